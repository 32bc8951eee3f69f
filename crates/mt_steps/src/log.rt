//! What is kept of a way for its undo.
ghost use Rattle.std.specs.Prelude.{◌≡◌, ◌<◌, IfOk, IfErr, None, length, replicate};
ghost use Rattle.mt_model.specs.Part.{with_entries};
ghost use Rattle.mt_steps.specs.Entries.{HasPlaces, recorded, recorded_of, step_entries};
ghost use Rattle.mt_steps.specs.Plans.{number};
ghost use Rattle.mt_steps.specs.Steps.{given_listed, left_listed, listed_at};
ghost use Rattle.mt_steps.specs.Undo.{IsLogOf, new_log};

use crate::entries::{exchange_step, write_back};
use crate::fault::StepFault;
use crate::records::{TableRecord, push_at_rest};
use crate::step::Step;
use mt_model::part_keys_are_distinct;
use mt_names::{KeyspaceName, TypeSet};
use mt_primary::Before;
use mt_stream::Stream;
use mt_topology::Topology;
use mt_workflow::Workflow;
use std::alloc::Global;
use std::marker::Model;
use std::mem;

/// What is kept of a way for its undo: an entry for each key of the workflow's part, as it stood before its step; and for each shard of the
/// target what stood on a primary's own list before the last refresh that was for the shard, and the stream that a new one was put in place
/// of. It is made before the first step, and no step and no undo takes memory for it. The entries are recorded table by table, in the
/// order of the part, without the names of their keys: the sides stand once, and each table once in its record. (this profile's own)
#[derive(Drop)]
pub struct UndoLog {
    pub(crate) records: Vec<TableRecord>,
    pub(crate) late: Box<Late>,
}

/// The sides, and what steps put aside, in memory of their own.
#[derive(Drop)]
pub(crate) struct Late {
    /// The keyspace that the tables move from.
    source: KeyspaceName,
    /// The keyspace that they move to.
    target: KeyspaceName,
    /// What is put aside for each shard of the target, in their order.
    pub lanes: Vec<PutAway>,
}

/// What steps put aside for a shard of the target.
#[derive(Drop)]
pub(crate) struct PutAway {
    /// What stood on a primary's own list before the last refresh that was for the shard.
    pub listed: Option<Before>,
    /// The stream of the shard that a new one was put in place of.
    pub slot: Option<Stream>,
}

/// A way that is open: its number, by which its journal entry is told from all others, and what is kept of it for its undo.
/// (Vitess: a switch of traffic under way)
#[derive(Drop)]
pub struct OpenWay {
    /// The number.
    pub number: u64,
    /// What is kept for its undo.
    pub log: UndoLog,
}

impl Model for UndoLog {
    ghost use Rattle.std.specs.Prelude.{map};
    ghost use Rattle.mt_steps.specs.Records.{entries_of};
    ghost use Rattle.mt_steps.specs.Undo.{UndoState};

    ghost Value = { UndoState };

    ghost view = { λ log. record { entries = entries_of log.late.value.source log.late.value.target log.records.items; listed = map (λ k. k.listed) log.late.value.lanes.items; slots = map (λ k. k.slot) log.late.value.lanes.items } };
}

impl UndoLog {
    /// What is kept for a workflow on whose way no step was done: its part as it is served at rest. `F0 Memory`. It alone takes memory.
    pub fn reserve(alloc: Global, workflow: &Workflow) -> Result<Self, StepFault>
        ensures value { IfOk result (λ log. log ≡ new_log workflow.now) }
        ensures memory { IfErr result (λ fault. fault ≡ StepFault.Memory) }
    {
        workflow.facts();
        let Ok(mut records) = Vec::with_capacity(alloc, workflow.tables().len()) else {
            return Err(StepFault::Memory);
        };
        for table in workflow.tables() {
            push_at_rest(&mut records, workflow, table);
        }
        let late = Late {
            source: workflow.source().copied(),
            target: workflow.target().copied(),
            lanes: room_for(alloc, workflow.shards())?,
        };
        match Box::new(alloc, late) {
            Ok(late) => Ok(UndoLog { records, late }),
            Err(_) => Err(StepFault::Memory),
        }
    }

    /// Writes the entries of a workflow's part that change with a step as they are to be once these types are switched, and records
    /// what the topology said there.
    pub(crate) fn exchange(
        &mut self,
        topology: &mut Topology,
        workflow: &Workflow,
        types: TypeSet,
        step: Step,
    )
        requires places { HasPlaces topology.old workflow.now }
        requires log { IsLogOf workflow.now self.old }
        ensures recorded { self.new ≡ record self.old { entries = recorded workflow.now (number step) topology.old self.old.entries } }
        ensures written { topology.new ≡ with_entries topology.old (step_entries workflow.now types (number step)) }
    {
        workflow.facts();
        part_keys_are_distinct();
        exchange_step(topology, workflow, types, step, &mut self.records);
    }

    /// Writes back what is recorded of each entry of a workflow's part that changes with a step. It takes no memory.
    pub(crate) fn write_back(&self, topology: &mut Topology, workflow: &Workflow, step: Step)
        requires places { HasPlaces topology.old workflow.now }
        requires log { IsLogOf workflow.now self.now }
        ensures { topology.new ≡ with_entries topology.old (recorded_of workflow.now (number step) self.now.entries) }
    {
        write_back(
            topology,
            workflow,
            step,
            &self.late.source,
            &self.late.target,
            &self.records,
        );
    }

    /// Takes what the undo of a step for a shard gives back to a primary's own list.
    pub(crate) fn take_listed(&mut self, step: Step, shard: u8) -> Option<Before>
        requires { shard < length self.old.listed }
        ensures taken { result ≡ given_listed step (listed_at self.old shard) }
        ensures left { self.new ≡ record self.old { listed = left_listed step shard self.old.listed } }
    {
        match step {
            Step::RefreshSource => {
                mem::replace(&mut self.late.lanes[usize::from(shard)].listed, None)
            }
            _ => None,
        }
    }
}

/// Room for what is put aside for so many shards. `F0 Memory`.
fn room_for(alloc: Global, shards: u8) -> Result<Vec<PutAway>, StepFault>
    ensures value { IfOk result (λ lanes. lanes.items ≡ replicate shards (record { listed = None; slot = None })) }
    ensures memory { IfErr result (λ fault. fault ≡ StepFault.Memory) }
{
    let Ok(mut lanes) = Vec::with_capacity(alloc, usize::from(shards)) else {
        return Err(StepFault::Memory);
    };
    for _shard in 0..shards {
        lanes.push_reserved(PutAway {
            listed: None,
            slot: None,
        });
    }
    Ok(lanes)
}
