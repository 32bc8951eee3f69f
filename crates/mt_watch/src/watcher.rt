//! A watcher.
ghost use Rattle.std.specs.Prelude.{◌≡◌, Ok, IfOk};
ghost use Rattle.std.proofs.Props.{props};
ghost use Rattle.mt_watch.specs.Notices.{notice_of};
ghost use Rattle.mt_watch.specs.Scopes.{same_scope};

use crate::{Change, Notice, WatchFault};
use mt_model::Scope;

/// What a watcher asks with a change.
pub type Callback = Box<dyn Fn(&Change) -> Result<Notice, WatchFault> + Send>;

/// Whoever is to be told of the changes in one scope: a callback that is asked with a change, and answers the notice
/// of the change for that scope or refuses. Whether it refuses, and with what number, is its own affair.
#[derive(Drop)]
pub struct Watcher {
    scope: Scope,
    call: Callback,
    ghost callable: { Callback.IsAlwaysCallable call },
    ghost tells: { (change : _) (notice : _) → Callback.post call change (Ok notice) → notice ≡ notice_of scope change.now } by { Prim.hlevel props },
}

impl Watcher {
    /// A watcher of a scope. Each answer of the callback must be the notice of the change for that scope. It takes no
    /// memory.
    pub fn new(scope: Scope, call: Callback) -> Self
        requires callable { Callback.IsAlwaysCallable call }
        requires tells { (change : _) (notice : _) → Callback.post call change (Ok notice) → notice ≡ notice_of scope change.now }
        ensures scope { result.scope ≡ scope }
        ensures call { result.call ≡ call }
    {
        Watcher { scope, call }
    }

    /// Whether it has the scope.
    pub(crate) fn is_of(&self, scope: &Scope) -> bool
        ensures { result ≡ same_scope self.now.scope scope.now }
    {
        self.scope == *scope
    }

    /// Asks the callback. An answer is the notice of the change for the watcher's scope.
    pub(crate) fn ask(&self, change: &Change) -> Result<Notice, WatchFault>
        ensures answer { (asked : _) × (asked.now ≡ change.now) × Callback.post self.now.call asked result }
        ensures notice { IfOk result (λ notice. notice ≡ notice_of self.now.scope change.now) }
    {
        (self.call)(change)
    }
}
