//! Whole switches and reversals of traffic.
ghost use Rattle.std.specs.Prelude.{◌≡◌, ℕ, true, List, OnErr};
ghost use Rattle.mt_plain.specs.Drive.{begins};
ghost use Rattle.mt_plain.specs.Drive as plain;
ghost use Rattle.mt_plain.specs.Plain.{Plain};
ghost use Rattle.mt_event.specs.Asks.{event_on};
ghost use Rattle.mt_stands.specs.Purges.{IsPurged};
ghost use Rattle.mt_site.specs.Asks.{may_change};
ghost use Rattle.mt_site.specs.Drives.{DriveKeepsTheHeadline, DrivesFrom};
ghost use Rattle.mt_site.specs.Stood.{IsCoreWith};

use crate::Site;
use crate::turn::{Heard, MOST_TRIES, Turn, take};
use mt_event::{Driven, Reason, Refusal, Verb};
use mt_laws::{a_drive_fits_in_the_turns_that_are_left, every_run_keeps_the_headline};
use mt_names::{TypeSet, WorkflowName};
use mt_watch::Asks;

/// More events than any drive asks for.
const MOST_TURNS: usize = 1400;

/// What begins a switch of traffic, or its reversal.
fn begin_of(types: TypeSet, back: bool) -> Verb
    ensures asks { (p : Plain) (workflow : List ℕ) → event_on workflow result ≡ plain.event_of p (begins workflow types back) }
    ensures changes { may_change result ≡ true }
{
    if back {
        Verb::BeginReverse(types)
    } else {
        Verb::BeginSwitch(types)
    }
}

/// Switches the traffic of some types of a workflow as a whole, or reverses it (`back`): begins the way, and takes each of its steps in
/// turn. At `F18 NotLevel` the feeding stream of each shard reads at most 100 entries, and the step is tried again, at most 64 times in
/// all. Any other refusal of a step or of a stream ends it, and so does the last `F18 NotLevel`: before the journal all is undone, and
/// the answer is `Abandoned`; behind it the way stays open, and the answer is `Stopped`. It asks for at most 1,400 events, and takes no
/// memory beside theirs. A refusal is that of the begin, which leaves all as it was. (Vitess: SwitchTraffic, ReverseTraffic)
pub fn drive<W: Asks>(
    site: &mut Site<W>,
    workflow: &WorkflowName,
    types: TypeSet,
    back: bool,
) -> Result<Driven, Refusal>
    ensures watchers { site.new.watchers ≡ site.old.watchers }
    ensures drives { DrivesFrom (W.scopes site.old.watchers) site.old.core workflow.now types back result site.new.core }
    ensures headline { DriveKeepsTheHeadline (W.scopes site.old.watchers) site.old.core workflow.now types back result site.new.core }
    ensures unchanged { OnErr result (site.new.core ≡ site.old.core) }
    ensures stood { IsCoreWith (W.scopes site.old.watchers) site.old.core → IsCoreWith (W.scopes site.new.watchers) site.new.core }
    ensures purged { IsPurged site.old.core.base → IsPurged site.new.core.base }
{
    every_run_keeps_the_headline();
    a_drive_fits_in_the_turns_that_are_left();
    site.core
        .apply_on(&site.watchers, workflow, begin_of(types, back))?;
    let mut turn = Turn::Steps(MOST_TRIES);
    for _ in 1..MOST_TURNS {
        match take(&mut site.core, &site.watchers, workflow, turn) {
            Heard::GoesOn(next) => turn = next,
            Heard::Ends(end) => return Ok(end.driven()),
        }
    }
    // (no drive of a state that the definitions know has a turn more)
    Ok(Driven::Stopped(Refusal::Other(Reason::NotLevel), 0))
}
