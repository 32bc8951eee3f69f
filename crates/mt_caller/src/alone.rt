//! A table that one caller moves, through a `Site`.
ghost use Rattle.std.specs.Prelude.{◌≡◌, true};
ghost use Rattle.mt_site.specs.Stood.{IsCoreWith};

use crate::names::{corder, create_and_copy, first, insert, keyspaces_and_tables, source};
use mt_site::{Asks, Driven, Event, Refusal, Site, TypeSet, drive, run_events};
use std::alloc::Global;

/// Applies some events. Answers whether each was taken.
fn are_taken<W: Asks>(alloc: Global, site: &mut Site<W>, events: &[Event]) -> bool
    ensures stood { IsCoreWith (W.scopes site.old.watchers) site.old.core → IsCoreWith (W.scopes site.new.watchers) site.new.core }
    ensures watchers { site.new.watchers ≡ site.old.watchers }
{
    match run_events(alloc, site, events) {
        Ok(answers) => answers.iter().all(|answer| answer.is_ok()),
        Err(_) => false,
    }
}

/// A row in each half of all keys.
fn rows() -> [Event; 2] {
    [
        Event::Write {
            keyspace: source(),
            table: corder(),
            op: insert(1),
        },
        Event::Write {
            keyspace: source(),
            table: corder(),
            op: insert(u64::MAX),
        },
    ]
}

/// Makes both keyspaces and both tables, and the rows of the first table.
fn begin<W: Asks>(alloc: Global, site: &mut Site<W>) -> bool
    ensures stood { IsCoreWith (W.scopes site.old.watchers) site.old.core → IsCoreWith (W.scopes site.new.watchers) site.new.core }
    ensures watchers { site.new.watchers ≡ site.old.watchers }
{
    are_taken(alloc, site, &keyspaces_and_tables()) && are_taken(alloc, site, &rows())
}

/// Makes the workflow behind that, and copies the table.
fn copy<W: Asks>(alloc: Global, site: &mut Site<W>) -> bool
    ensures stood { IsCoreWith (W.scopes site.old.watchers) site.old.core → IsCoreWith (W.scopes site.new.watchers) site.new.core }
    ensures watchers { site.new.watchers ≡ site.old.watchers }
{
    begin(alloc, site) && are_taken(alloc, site, &create_and_copy(&first(), corder()))
}

/// Whether a whole switch is done.
fn is_done(told: &Result<Driven, Refusal>) -> bool {
    matches!(told, Ok(Driven::Done))
}

/// Makes both keyspaces and both tables, and moves the first table, with a row in each of the two shards that it goes to. Answers whether its
/// traffic is switched. The headline holds of all that was done, whatever it was; and a caller who opened the site knows that the controller
/// still stands for a state, which a desk asks of it.
pub(crate) fn move_alone<W: Asks>(alloc: Global, site: &mut Site<W>) -> bool
    ensures stood { IsCoreWith (W.scopes site.old.watchers) site.old.core → IsCoreWith (W.scopes site.new.watchers) site.new.core }
    ensures watchers { site.new.watchers ≡ site.old.watchers }
{
    copy(alloc, site) && is_done(&drive(site, &first(), TypeSet::ALL, false))
}
