//! Events, as they are kept.
ghost use Rattle.std.specs.Prelude.{◌≡◌, ◌↔◌, false, true, IfOk, IsOk};
ghost use Rattle.mt_event.specs.Asks.{asks_a_workflow, is_on_a_workflow, owned};
ghost use Rattle.mt_event.specs.CompactEvents.{IsApart, event_from};

use crate::compact::names::{CompactKeyspace, CompactTable};
use crate::compact::ops::CompactOp;
use crate::{Ask, Event, Verb, events_and_answers_are_told_apart};
use mt_names::{TabletType, WorkflowName};
use std::alloc::{AllocError, Global};
use std::marker::Model;
use std::sync::Arc;

/// What is asked.
#[derive(Drop)]
enum Asked {
    Write {
        keyspace: CompactKeyspace,
        table: CompactTable,
        op: CompactOp,
    },
    Read {
        type_of: TabletType,
        key: u64,
        keyspace: CompactKeyspace,
        table: CompactTable,
    },
    OnWorkflow(WorkflowName, Verb),
    Other(Arc<Event>),
}

/// An event, as it is kept: contracts see it as the event. Names and values of at most 22 bytes stand in place, and so does the name of a
/// workflow that is there, whatever its length. Longer ones, and what is asked for seldom, stand in memory of their own, which all who keep the
/// event share.
#[derive(Drop)]
pub struct CompactEvent {
    asked: Asked,
}

impl Model for CompactEvent {
    ghost use Rattle.mt_event.specs.declared.event.Event.{Event};
    ghost use Rattle.mt_event.specs.CompactEvents.{IsApart, event_from};

    ghost Value = { Event };

    ghost view = { λ kept. event_from kept.asked };

    ghost invariant = { λ kept. IsApart kept.asked };
}

/// What is asked for seldom, as its event in memory of its own. It is refused only when out of memory.
#[inline(never)]
fn kept_apart(alloc: Global, ask: Ask<'_>) -> Result<Asked, AllocError>
    requires { asks_a_workflow ask ≡ false }
    ensures same { IfOk result (λ asked. event_from asked ≡ owned ask.entry) }
    ensures apart { IfOk result IsApart }
{
    Ok(Asked::Other(Arc::new(alloc, ask.event())?))
}

impl CompactEvent {
    /// What is asked for, to be kept as its event. It is refused only when out of memory; what is asked of a workflow that is there takes none.
    pub fn new(alloc: Global, ask: Ask<'_>) -> Result<Self, AllocError>
        ensures same { IfOk result (λ kept. kept ≡ owned ask.entry) }
        ensures in_place { asks_a_workflow ask.entry ≡ true → IsOk result }
    {
        let asked = match ask {
            Ask::Write(keyspace, table, op) => Asked::Write {
                keyspace: CompactKeyspace::new(alloc, keyspace)?,
                table: CompactTable::new(alloc, table)?,
                op: CompactOp::new(alloc, op)?,
            },
            Ask::Read(keyspace, table, key, type_of) => Asked::Read {
                type_of,
                key,
                keyspace: CompactKeyspace::new(alloc, keyspace)?,
                table: CompactTable::new(alloc, table)?,
            },
            Ask::On(workflow, verb) => Asked::OnWorkflow(workflow.copied(), verb),
            _ => kept_apart(alloc, ask)?,
        };
        Ok(CompactEvent { asked })
    }

    /// The event, for one more who keeps it. It takes no memory, and is refused only where those who share can't be counted any further; what is asked
    /// of a workflow that is there is never refused.
    pub fn again(&self) -> Result<Self, AllocError>
        ensures same { IfOk result (λ kept. kept ≡ self.now) }
        ensures in_place { is_on_a_workflow self.now ≡ true → IsOk result }
    {
        let asked = match &self.asked {
            Asked::Write {
                keyspace,
                table,
                op,
            } => Asked::Write {
                keyspace: keyspace.again()?,
                table: table.again()?,
                op: op.again()?,
            },
            Asked::Read {
                type_of,
                key,
                keyspace,
                table,
            } => Asked::Read {
                type_of: *type_of,
                key: *key,
                keyspace: keyspace.again()?,
                table: table.again()?,
            },
            Asked::OnWorkflow(workflow, verb) => Asked::OnWorkflow(workflow.copied(), *verb),
            Asked::Other(event) => Asked::Other(Arc::try_clone(event)?),
        };
        Ok(CompactEvent { asked })
    }

    /// Whether another one is the same event. It takes no memory; of two that ask for rows neither is copied whole.
    pub fn is_same(&self, other: &Self) -> bool
        ensures { (result ≡ true) ↔ (self.now ≡ other.now) }
    {
        match (&self.asked, &other.asked) {
            (
                Asked::Write {
                    keyspace,
                    table,
                    op,
                },
                Asked::Write {
                    keyspace: its_keyspace,
                    table: its_table,
                    op: its_op,
                },
            ) => {
                op.is_same(its_op) && table.is_same(its_table) && keyspace.is_same(its_keyspace)
            }
            (
                Asked::Read {
                    type_of,
                    key,
                    keyspace,
                    table,
                },
                Asked::Read {
                    type_of: its_type,
                    key: its_key,
                    keyspace: its_keyspace,
                    table: its_table,
                },
            ) => {
                key == its_key
                    && type_of == its_type
                    && table.is_same(its_table)
                    && keyspace.is_same(its_keyspace)
            }
            _ => are_same_copied(self, other),
        }
    }

    /// A copy of the event. It takes no memory.
    pub fn copied(&self) -> Event
        ensures { result ≡ self.now }
    {
        match &self.asked {
            Asked::Write {
                keyspace,
                table,
                op,
            } => Event::Write {
                keyspace: keyspace.name(),
                table: table.name(),
                op: op.op(),
            },
            Asked::Read {
                type_of,
                key,
                keyspace,
                table,
            } => Event::Read {
                keyspace: keyspace.name(),
                table: table.name(),
                key: *key,
                type_of: *type_of,
            },
            Asked::OnWorkflow(workflow, verb) => verb.of(workflow.copied()),
            Asked::Other(event) => event.copied(),
        }
    }
}

/// Whether two kept events are the same, by copies of both. It stands apart from what compares rows, since room for the copies is cleared.
#[inline(never)]
fn are_same_copied(one: &CompactEvent, other: &CompactEvent) -> bool
    ensures { (result ≡ true) ↔ (one.now ≡ other.now) }
{
    events_and_answers_are_told_apart();
    one.copied() == other.copied()
}
