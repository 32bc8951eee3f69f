//! Events, one after the other.
ghost use Rattle.std.specs.Prelude.{◌≡◌, IfOk, OnErr, map};
ghost use Rattle.mt_event.specs.Events.{answer_from, event_of};
ghost use Rattle.mt_stands.specs.Purges.{IsPurged};
ghost use Rattle.mt_site.specs.Headline.{KeepsTheHeadline};
ghost use Rattle.mt_site.specs.Runs.{Runs};
ghost use Rattle.mt_site.specs.Stood.{IsCoreWith};

use crate::Site;
use mt_event::{Event, Refusal, Reply};
use mt_laws::every_run_keeps_the_headline;
use mt_watch::Asks;
use std::alloc::Global;
use thiserror::Error;

/// Events that weren't applied, since there was no memory for the list of their answers.
#[derive(Clone, Copy, Debug, Eq, Error, PartialEq)]
#[error("no memory for the answers")]
pub struct RunStopped;

/// Applies some events, one after the other, and answers what each was answered, in their order. `RunStopped` if the list of
/// answers finds no memory: then no event was applied. The headline holds of them, as `Site::apply` says it, whatever was applied
/// before.
pub fn run_events<W: Asks>(
    alloc: Global,
    site: &mut Site<W>,
    events: &[Event],
) -> Result<Vec<Result<Reply, Refusal>>, RunStopped>
    ensures watchers { site.new.watchers ≡ site.old.watchers }
    ensures runs { IfOk result (λ answers. Runs (W.scopes site.old.watchers) site.old.core events.now answers.items site.new.core) }
    ensures headline { IfOk result (λ answers. KeepsTheHeadline (W.scopes site.old.watchers) site.old.core (map event_of events.now) (map answer_from answers.items) site.new.core) }
    ensures stopped { OnErr result (site.new.core ≡ site.old.core) }
    ensures stood { IsCoreWith (W.scopes site.old.watchers) site.old.core → IsCoreWith (W.scopes site.new.watchers) site.new.core }
    ensures purged { IsPurged site.old.core.base → IsPurged site.new.core.base }
{
    every_run_keeps_the_headline();
    let Ok(mut answers) = Vec::with_capacity(alloc, events.len()) else {
        return Err(RunStopped);
    };
    for event in events {
        answers.push_reserved(site.apply(event));
    }
    Ok(answers)
}
