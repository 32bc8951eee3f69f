//! The move that a race is about: the table `corder` goes from `commerce` to `customer` by the workflow `mv`.
ghost use Rattle.std.specs.Prelude.{◌≡◌, All, OnOk, codes, is_ok, map, true};
ghost use Rattle.mt_event.specs.Events.{event_of};
ghost use Rattle.mt_site.specs.Stood.{IsCoreWith};
ghost use Rattle.mt_race.specs.Agreements.{SetsUp, corder, mv, set_up_events};

use crate::RaceFault;
use arrayvec::ArrayVec;
use mt_event::{Answer, Event};
use mt_names::{KeyspaceName, RuleKey, ShardList, TableName, WorkflowName};
use mt_site::{Site, run_events};
use mt_watch::Asks;
use mt_workflow::Slot;
use std::alloc::Global;

/// The keyspace that the table moves from.
pub(crate) fn source() -> KeyspaceName
    ensures { result ≡ codes "commerce" }
{
    KeyspaceName::parse("commerce").unwrap()
}

/// The keyspace that it moves to.
pub(crate) fn target() -> KeyspaceName
    ensures { result ≡ codes "customer" }
{
    KeyspaceName::parse("customer").unwrap()
}

/// The table.
fn table() -> TableName
    ensures { result ≡ codes "corder" }
{
    TableName::parse("corder").unwrap()
}

/// The workflow.
pub(crate) fn workflow() -> WorkflowName
    ensures { result ≡ mv }
{
    WorkflowName::parse("mv").unwrap()
}

/// The name by which clients ask for the table, wherever it is.
pub(crate) fn name() -> RuleKey
    ensures { result ≡ corder }
{
    RuleKey {
        keyspace: None,
        table: table(),
        tablet_type: None,
    }
}

/// What is applied before a race: both keyspaces, the table without a row, the workflow, and its copy.
fn events() -> [Event; 5]
    ensures { map event_of result ≡ set_up_events }
{
    let mut tables = ArrayVec::new_in(());
    tables.push(table());
    [
        Event::AddKeyspace {
            keyspace: source(),
            shards: ShardList::unsharded(),
        },
        Event::AddKeyspace {
            keyspace: target(),
            shards: ShardList::unsharded(),
        },
        Event::AddTable {
            keyspace: source(),
            table: table(),
        },
        Event::Create {
            workflow: workflow(),
            source: source(),
            target: target(),
            tables,
        },
        Event::Advance {
            workflow: workflow(),
            stream: Slot::Forward,
            shard: 0,
            at: 0,
            max: 100,
        },
    ]
}

/// Whether all of some events were taken: `Setup` with the first refusal.
fn all_taken(answers: &[Answer]) -> Result<(), RaceFault>
    ensures { OnOk result (All (λ answer. is_ok answer ≡ true) answers.now) }
{
    for answer in answers {
        if let Err(refusal) = answer {
            return Err(RaceFault::Setup(refusal.copied()));
        }
    }
    Ok(())
}

/// Applies what comes before a race: `Setup` with the first refusal, and `Memory`.
pub(crate) fn set_up<W: Asks>(alloc: Global, site: &mut Site<W>) -> Result<(), RaceFault>
    ensures watchers { site.new.watchers ≡ site.old.watchers }
    ensures stood { IsCoreWith (W.scopes site.old.watchers) site.old.core → IsCoreWith (W.scopes site.new.watchers) site.new.core }
    ensures sets_up { OnOk result (SetsUp (W.scopes site.old.watchers) site.old.core site.new.core) }
{
    match run_events(alloc, site, &events()) {
        Ok(answers) => all_taken(&answers),
        Err(_) => Err(RaceFault::Memory),
    }
}
