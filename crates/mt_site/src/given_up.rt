//! A law on what must be taken, so that a move can always be given up.
ghost use Rattle.std.specs.Prelude.{◌≡◌};
ghost use Rattle.mt_plain.specs.Events.{Answer, Event, done};
ghost use Rattle.mt_stands.specs.Ways.{CoreState};
ghost use Rattle.mt_site.specs.Applies.{Applies};
ghost use Rattle.mt_site.specs.GivenUp.{CanBeGivenUp};

use mt_watch::Asks;

/// Before the journal an undo with the right number is done, and so is a Cancel where nothing is switched and no way is open: they
/// are never refused, whatever memory is left and whatever watchers would answer.
pub fn a_move_can_be_given_up<W: Asks>(watchers: &W)
    ensures { (old new : CoreState) (event : Event) (answer : Answer)
        → Applies (W.scopes watchers.now) (W.may_answer watchers.now) old event answer new → CanBeGivenUp old event → answer ≡ done }
{}
