//! A play by `run_events`: each run of lines that are events is one list. What is none is asked between the lists.

use crate::asked::{Asked, advance_at, asked_by, times};
use crate::at_site::AtSite;
use crate::playing::{Differs, Play, Wrong};
use crate::plays::Step;
use crate::told::{Answer, Kind, Told};
use crate::venue::Venue;
use mt_event::Event;
use mt_names::WorkflowName;
use mt_script::AdvanceWords;
use mt_site::{Site, run_events};
use mt_watch::Asks;
use std::alloc::Global;
use std::sync::Wait;

/// The event that a step is, if it is one.
fn event_of(step: &Step<'_>) -> Option<Event> {
    let asked = asked_by(step.line);
    match &asked {
        Asked::Event(event) => Some(event.copied()),
        Asked::Advance(workflow, _range, words) => first_shard(workflow, words, step.want),
        _ => None,
    }
}

/// An advance without a range as that of the first shard, unless there is to be none.
fn first_shard(workflow: &WorkflowName, words: &AdvanceWords<'_>, want: &str) -> Option<Event> {
    if words.range == "-" && want != "refused F32 NoShard" {
        return Some(advance_at(workflow, words, 0));
    }
    None
}

/// A step that went otherwise.
fn wrong_at<'a>(step: &Step<'a>, told: Told) -> Option<Wrong<'a>> {
    Some(Wrong {
        step: *step,
        told,
        differs: Differs::Answer,
    })
}

/// What goes otherwise first where some steps are run as one list of events.
fn run<'a, W: Asks>(
    alloc: Global,
    site: &mut Site<W>,
    steps: &[Step<'a>],
    events: &[Event],
) -> Option<Wrong<'a>> {
    let Ok(answers) = run_events(alloc, site, events) else {
        return wrong_at(steps.first()?, Told::out_of_memory());
    };
    let found = if answers.len() == events.len() {
        first_other(steps, answers.as_slice())
    } else {
        wrong_at(steps.first()?, Told::of_text(b"another number of answers"))
    };
    drop(answers);
    found
}

/// The first step that is answered otherwise.
fn first_other<'a>(steps: &[Step<'a>], answers: &[Answer]) -> Option<Wrong<'a>> {
    for (step, answer) in steps.iter().zip(answers.iter()) {
        let told = Told::of_answer(answer);
        if !told.is(step.want) {
            return wrong_at(step, told);
        }
    }
    None
}

/// What goes otherwise with a step that is no event.
fn alone<'a, W: Asks + Drop, R: Wait>(
    rt: &R,
    alloc: Global,
    site: &mut Site<W>,
    step: &Step<'a>,
) -> Option<Wrong<'a>> {
    let (count, line) = times(step.line);
    let asked = asked_by(line);
    let mut at = AtSite {
        alloc,
        site,
        by_ones: true,
    };
    for _ in 0..count {
        let told = at.tell(rt, &asked);
        if told.kind != Kind::Unasked && !told.is(step.want) {
            return wrong_at(step, told);
        }
    }
    None
}

/// Adds the events of the steps from one on, up to the first step that is none; whether there was memory for them.
fn add_events(events: &mut Vec<Event>, steps: &[Step<'_>]) -> bool {
    for step in steps {
        let Some(event) = event_of(step) else {
            return true;
        };
        if events.push(event).is_err() {
            return false;
        }
    }
    true
}

/// What goes otherwise first from a step on, and behind how many steps nothing was asked yet.
fn next<'a, W: Asks + Drop, R: Wait>(
    rt: &R,
    alloc: Global,
    site: &mut Site<W>,
    steps: &[Step<'a>],
) -> (usize, Option<Wrong<'a>>) {
    let mut events = Vec::new(alloc);
    let is_made = add_events(&mut events, steps);
    let count = events.len();
    let found = match steps.first() {
        Some(step) if !is_made => wrong_at(step, Told::out_of_memory()),
        Some(step) if count == 0 => alone(rt, alloc, site, step),
        _ => run(alloc, site, steps, events.as_slice()),
    };
    drop(events);
    (count.max(1), found)
}

/// What goes otherwise first, if anything does.
pub fn by_list<'a, W: Asks + Drop, R: Wait>(
    rt: &R,
    alloc: Global,
    watchers: W,
    play: &Play<'a>,
) -> Option<Wrong<'a>> {
    let mut site = Site::open(alloc, watchers);
    let found = first_in_lists(rt, alloc, &mut site, play.steps.as_slice());
    drop(site);
    found
}

/// What goes otherwise first at a site.
fn first_in_lists<'a, W: Asks + Drop, R: Wait>(
    rt: &R,
    alloc: Global,
    site: &mut Site<W>,
    steps: &[Step<'a>],
) -> Option<Wrong<'a>> {
    let mut from = 0usize;
    for _ in 0..steps.len() {
        let rest = steps.get(from..)?;
        if rest.is_empty() {
            return None;
        }
        let (count, found) = next(rt, alloc, site, rest);
        if found.is_some() {
            return found;
        }
        from = from.saturating_add(count);
    }
    None
}
