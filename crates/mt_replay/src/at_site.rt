//! A site that is asked one line after the other: by `apply`, or by lists of one event.

use crate::asked::{Asked, advance_at, row_there, type_of};
use crate::told::{Answer, Told};
use crate::venue::Venue;
use mt_event::{Event, Refusal};
use mt_names::{KeyRange, KeyspaceName, RuleKey, TypeSet, WorkflowName};
use mt_script::{AdvanceWords, RowAsked};
use mt_site::{Site, drive, run_events};
use mt_watch::Asks;
use std::alloc::Global;
use std::sync::Wait;

/// A site that is asked.
#[derive(Drop)]
pub struct AtSite<'a, W: Asks + Drop> {
    /// The allocator.
    pub alloc: Global,
    /// The site.
    pub site: &'a mut Site<W>,
    /// Whether each event is run as a list of one.
    pub by_ones: bool,
}

/// What an event is answered; none if memory was out before it was taken.
fn answer<W: Asks + Drop>(at: &mut AtSite<'_, W>, event: Event) -> Option<Answer> {
    if at.by_ones {
        return run_events(at.alloc, at.site, &[event]).ok()?.pop();
    }
    Some(at.site.apply(&event))
}

/// What is told of an event.
fn told_of<W: Asks + Drop>(at: &mut AtSite<'_, W>, event: Event) -> Told {
    match answer(at, event) {
        Some(answer) => Told::of_answer(&answer),
        None => Told::out_of_memory(),
    }
}

/// What is told of a row where a name leads.
fn row<W: Asks + Drop>(at: &mut AtSite<'_, W>, key: &RuleKey, asked: &RowAsked<'_>) -> Told {
    match at.site.resolve(key, type_of(key)) {
        Ok(target) => told_of(at, row_there(target, key, asked)),
        Err(fault) => Told::of_look_up(fault),
    }
}

/// What is told of an advance in the shard of a range.
fn advance<W: Asks + Drop>(
    at: &mut AtSite<'_, W>,
    workflow: &WorkflowName,
    range: &KeyRange,
    words: &AdvanceWords<'_>,
) -> Told {
    match at.site.core.shard(workflow, range) {
        Ok(shard) => told_of(at, advance_at(workflow, words, shard)),
        Err(reason) => Told::of_answer(&Err(Refusal::from(reason))),
    }
}

/// What is told of a whole switch, or of a whole reversal.
fn driven<W: Asks>(
    site: &mut Site<W>,
    workflow: &WorkflowName,
    types: TypeSet,
    back: bool,
) -> Told {
    Told::of_drive(&drive(site, workflow, types, back))
}

/// The place of the shard of a range.
fn place_of<W: Asks>(
    site: &Site<W>,
    keyspace: &KeyspaceName,
    range: &Option<KeyRange>,
) -> Option<u8> {
    match range {
        Some(range) => site.topology().shards(keyspace)?.place(range),
        None => Some(0),
    }
}

/// What is told of a log.
fn log<W: Asks>(site: &Site<W>, keyspace: &KeyspaceName, range: &Option<KeyRange>) -> Told {
    let Some(place) = place_of(site, keyspace, range) else {
        return Told::of_text(b"none");
    };
    match site.core.primary(keyspace, place) {
        Some(primary) => Told::of_numbers(primary.first_kept(), primary.position()),
        None => Told::of_text(b"none"),
    }
}

/// What is told of where a name leads.
fn led<W: Asks>(site: &Site<W>, key: &RuleKey) -> Told {
    match site.resolve(key, type_of(key)) {
        Ok(target) => Told::of_text(target.text().as_str().as_bytes()),
        Err(fault) => Told::of_look_up(fault),
    }
}

/// What is told of what changes nothing.
fn looked<W: Asks>(site: &Site<W>, asked: &Asked<'_>) -> Told {
    match asked {
        Asked::Rules => Told::of_document(site.rules_json().ok()),
        Asked::Dump => Told::of_document(site.dump().ok()),
        Asked::Owed => Told::of_number(site.owed() as u64),
        Asked::Leads(key) => led(site, key),
        Asked::Log(keyspace, range) => log(site, keyspace, range),
        _ => Told::unasked(),
    }
}

impl<W: Asks + Drop> Venue for AtSite<'_, W> {
    fn tell<R: Wait>(&mut self, _rt: &R, asked: &Asked<'_>) -> Told {
        match asked {
            Asked::Event(event) => told_of(self, event.copied()),
            Asked::Row(key, asked) => row(self, key, asked),
            Asked::Advance(workflow, range, words) => advance(self, workflow, range, words),
            Asked::Drive(workflow, types, back) => driven(self.site, workflow, *types, *back),
            other => looked(self.site, other),
        }
    }
}
