//! What happens at a primary in turn.

use crate::primary::{Answer, Call, all_answered, all_made};
use crate::refreshes::{is_given_back, is_taken};
use crate::streams::{Entry, Next, Row, all_next, all_put, drop_table, has_log};
use mt_primary::Primary;
use std::alloc::Global;

/// What happens next at a primary.
#[derive(Clone, Copy)]
pub enum Phase {
    /// Tables that aren't there are made.
    Made(&'static [&'static str]),
    /// Calls are answered so.
    Answered(&'static [(Call<'static>, Answer<'static>)]),
    /// The position is this one.
    At(u64),
    /// What the notice of a keyspace says of the tables `t` and `u` is taken over.
    Noticed(&'static str, &'static [(&'static str, bool)]),
    /// Calls are answered so as long as what the notice of the primary's own keyspace says of the table `t` is taken over.
    Meanwhile(&'static [(&'static str, bool)], &'static [(Call<'static>, Answer<'static>)]),
    /// Rows are put by a stream.
    Put(&'static [Row<'static>]),
    /// The log has these entries, and no others.
    Log(&'static [Entry<'static>]),
    /// These are the rows that follow.
    Follow(&'static [Next<'static>]),
    /// A table is dropped.
    Dropped(&'static str),
}

/// Whether a phase goes so.
fn goes(primary: &mut Primary, alloc: Global, phase: Phase) -> bool {
    match phase {
        Phase::Made(tables) => all_made(primary, tables),
        Phase::Answered(calls) => all_answered(primary, calls),
        Phase::At(position) => primary.position() == position,
        Phase::Noticed(keyspace, said) => is_taken(primary, alloc, keyspace, said),
        Phase::Meanwhile(said, calls) => is_given_back(primary, alloc, said, calls),
        Phase::Put(rows) => all_put(primary, alloc, rows),
        Phase::Log(entries) => has_log(primary, entries),
        Phase::Follow(wants) => all_next(primary, wants),
        Phase::Dropped(name) => drop_table(primary, name).is_ok(),
    }
}

/// The index of the first of some phases that doesn't go so, at a primary that stands as it does.
fn first_wrong_at(primary: &mut Primary, alloc: Global, phases: &[Phase]) -> Option<usize> {
    for (index, phase) in phases.iter().enumerate() {
        if !goes(primary, alloc, *phase) {
            return Some(index);
        }
    }
    None
}

/// The index of the first of some phases that doesn't go so, at a primary that begins with nothing.
pub fn first_wrong(alloc: Global, phases: &[Phase]) -> Option<usize> {
    let mut primary = Primary::new(alloc);
    first_wrong_at(&mut primary, alloc, phases)
}
