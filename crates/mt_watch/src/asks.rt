//! What can be asked with a change.
ghost use Rattle.std.specs.Prelude.{◌≡◌, ℕ, List, Result};
ghost use Rattle.mt_model.specs.declared.entries.Entry.{Entry};
ghost use Rattle.mt_model.specs.declared.entries.Scope.{Scope};
ghost use Rattle.mt_watch.specs.declared.fault.WatchFault.{WatchFault};
ghost use Rattle.mt_watch.specs.Asking.{AsksEach};
ghost use Rattle.mt_watch.specs.Scopes.{has_scope};

use crate::{Change, Notice, WatchersFault};
use mt_model::Scope;

/// Whatever can be asked with a change as watchers are. No type with a boxed callback inside can be seen by contracts
/// as a value, so the layers above hold something that asks, and not watchers by name.
pub trait Asks {
    /// The scopes of the watchers, in the order in which they were added.
    ghost scopes: { Self → List Scope };
    /// What the watcher of a number may answer to a change.
    ghost may_answer: { Self → ℕ → List Entry → Result (List Entry) WatchFault → Type 0 };

    /// Whether a watcher has the scope. It takes no memory.
    fn has(&self, scope: &Scope) -> bool
        ensures { result ≡ has_scope (scopes self.now) scope.now };

    /// Asks every watcher of the scope with the change, in the order in which they were added, and answers the last
    /// one's notice, which is the notice of the change for the scope. The first that refuses ends it with `H2 Refused`
    /// and its number, counted from 0 over all watchers; where none has the scope it is `H1 NoWatcher`. It takes no
    /// memory but what the callbacks take.
    fn ask(&self, scope: &Scope, change: &Change) -> Result<Notice, WatchersFault>
        ensures { AsksEach (scopes self.now) (may_answer self.now) scope.now change.now result };
}
