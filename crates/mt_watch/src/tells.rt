//! Watchers that tell.
ghost use Rattle.std.specs.Prelude.{◌≡◌, IfErr, IfOk};
ghost use Rattle.mt_watch.specs.Notices.{notice_of};

use crate::{Change, Notice, WatchFault};
use mt_model::Scope;
use std::alloc::Global;

/// What a watcher that only tells answers to a change: its notice for the scope. It refuses with `WatchFault(0)`, if no
/// memory is left.
pub fn tell(alloc: Global, scope: &Scope, change: &Change) -> Result<Notice, WatchFault>
    ensures notice { IfOk result (λ notice. notice ≡ notice_of scope.now change.now) }
    ensures refused { IfErr result (λ fault. fault.0 ≡ 0) }
{
    match Notice::of(alloc, scope, change) {
        Ok(notice) => Ok(notice),
        Err(_) => Err(WatchFault(0)),
    }
}

/// A watcher of a scope that tells each change: its callback is `tell`. It is a `Result<Watcher, WatchersFault>`, and
/// refused with `H0 Memory` alone. It is a macro, since a function that makes a callback and hands it out isn't
/// proved to answer as it says: so the callback is made by the function that calls this.
#[macro_export]
macro_rules! telling_watcher {
    ($alloc:expr, $scope:expr) => {{
        let alloc = $alloc;
        let scope: $crate::Scope = $scope;
        let own = scope.copied();
        match Box::new(alloc, move |change: &$crate::Change| {
            $crate::tell(alloc, &own, change)
        }) {
            Ok(call) => Ok($crate::Watcher::new(scope, call)),
            Err(_) => Err($crate::WatchersFault::Memory),
        }
    }};
}
