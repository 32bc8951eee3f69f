//! One watcher's turn where watchers are asked.
ghost use Rattle.std.specs.Prelude.{◌≡◌};
ghost use Rattle.mt_watch.specs.Asking.{AsksOne};
ghost use Rattle.mt_watch.specs.Scopes.{same_scope};

use crate::{Callback, Change, Notice, Watcher, WatchersFault};
use mt_model::Scope;

/// Asks the watcher of a number where it has the scope, and answers the last notice so far.
pub fn ask_one(
    watcher: &Watcher,
    index: usize,
    scope: &Scope,
    change: &Change,
    told: Option<Notice>,
) -> Result<Option<Notice>, WatchersFault>
    ensures { AsksOne watcher.now.scope (λ answer. (asked : _) × (asked.now ≡ change.now) × Callback.post watcher.now.call asked answer) index scope.now change.now told result }
{
    if !watcher.is_of(scope) {
        return Ok(told);
    }
    match watcher.ask(change) {
        Ok(notice) => Ok(Some(notice)),
        Err(_) => Err(WatchersFault::Refused(index)),
    }
}
