//! The begin of a way: a switch of traffic, or its reversal.
ghost use Rattle.std.specs.Prelude.{◌≡◌, false, not, nat_le, List, None, option_map};
ghost use Rattle.mt_event.specs.Reasons.{done_by, reason_from};
ghost use Rattle.mt_journal.specs.declared.entry.JournalEntry.{JournalEntry};
ghost use Rattle.mt_model.specs.Topology.{TopologyState};
ghost use Rattle.mt_plain.specs.Events as plain;
ghost use Rattle.mt_plain.specs.Refuse.{at_rest, has_more, most_ways, or_else, refuse_if, share_type};
ghost use Rattle.mt_primary.specs.Primaries.{Primaries};
ghost use Rattle.mt_stands.specs.Switching.{BeginsReverse, BeginsSwitch, has_copied_at, is_copying};
ghost use Rattle.mt_stands.specs.Ways.{open_at};
ghost use Rattle.mt_moves.specs.Ways.{CanBegin, OpensWay};
ghost use Rattle.mt_workflow.specs.Workflows.{live_of, way_from};

use crate::{OpenWays, Workflows};
use mt_event::Reason;
use mt_names::{TypeSet, WorkflowName};
use mt_steps::{OpenWay, UndoLog};
use mt_workflow::{Slot, Way, Workflow};
use std::alloc::Global;

/// How many ways may be begun at most: 2^63 − 1.
const MAX_WAYS: u64 = 0x7fff_ffff_ffff_ffff;

/// Whether a set of types has one that another lacks.
fn has_more(types: TypeSet, others: TypeSet) -> bool
    ensures { result ≡ has_more types others }
{
    !types.without(others).is_empty()
}

/// Whether two sets of types share one.
fn share_type(types: TypeSet, others: TypeSet) -> bool
    ensures { result ≡ share_type types others }
{
    !types.both(others).is_empty()
}

/// Whether all rows of a shard of a workflow's target are copied.
fn has_copied_at(workflow: &Workflow, shard: u8) -> bool
    ensures { result ≡ has_copied_at workflow.now shard }
{
    match workflow.slot(shard, Slot::Forward) {
        None => false,
        Some(stream) => stream.copied(),
    }
}

/// Whether a workflow still has rows to copy.
fn is_copying(workflow: &Workflow) -> bool
    ensures { result ≡ is_copying workflow.now }
{
    for shard in 0..workflow.shards() {
        if !has_copied_at(workflow, shard) {
            return true;
        }
    }
    false
}

/// What refuses a way forward: `F13 UnderWay`, `F15 NothingToSwitch`, `F17 Copying`, `F27 Full`.
fn switch_refusal(workflow: &Workflow, types: TypeSet, begun: u64) -> Option<Reason>
    ensures { option_map reason_from result ≡ at_rest (live_of workflow.now) (or_else (refuse_if (not (has_more types workflow.now.switched)) plain.nothing_to_switch)
        (or_else (refuse_if (is_copying workflow.now) plain.copying) (refuse_if (nat_le most_ways begun) plain.full))) }
{
    if workflow.way().is_some() {
        return Some(Reason::UnderWay);
    }
    if !has_more(types, workflow.switched()) {
        return Some(Reason::NothingToSwitch);
    }
    if is_copying(workflow) {
        return Some(Reason::Copying);
    }
    if begun >= MAX_WAYS {
        return Some(Reason::Full);
    }
    None
}

/// What refuses a way back: `F13 UnderWay`, `F16 NothingToReverse`, `F27 Full`.
fn reverse_refusal(workflow: &Workflow, types: TypeSet, begun: u64) -> Option<Reason>
    ensures { option_map reason_from result ≡ at_rest (live_of workflow.now) (or_else (refuse_if (not (share_type types workflow.now.switched)) plain.nothing_to_reverse)
        (refuse_if (nat_le most_ways begun) plain.full)) }
{
    if workflow.way().is_some() {
        return Some(Reason::UnderWay);
    }
    if !share_type(types, workflow.switched()) {
        return Some(Reason::NothingToReverse);
    }
    if begun >= MAX_WAYS {
        return Some(Reason::Full);
    }
    None
}

/// Opens a way on a workflow, which gets the next number, the first one 1; all that its undo will need finds its memory first:
/// `F0 Memory`, which leaves all as it was.
fn open_way(
    alloc: Global,
    workflow: &mut Workflow,
    opened: &mut OpenWays,
    begun: &mut u64,
    way: Way,
) -> Result<(), Reason>
    requires absent { open_at opened.old.entries workflow.old.name ≡ None }
    requires few { nat_le most_ways begun.old ≡ false }
    ensures { OpensWay workflow.old (way_from way) opened.old.entries begun.old (done_by result) workflow.new opened.new.entries begun.new }
{
    let Ok(log) = UndoLog::reserve(alloc, workflow) else {
        return Err(Reason::Memory);
    };
    let kept = OpenWay {
        number: *begun + 1,
        log,
    };
    match opened.insert(workflow.name().copied(), kept) {
        Ok(_) => {
            workflow.set_way(Some(way));
            *begun += 1;
            Ok(())
        }
        Err(_) => Err(Reason::Memory),
    }
}

/// Begins a way forward on a live workflow: `F7 NoWorkflow`, `F13 UnderWay`, `F15 NothingToSwitch`, `F17 Copying`, `F27 Full`,
/// `F0 Memory`. (Vitess: SwitchTraffic of MoveTables)
pub fn begin_switch(
    alloc: Global,
    workflows: &mut Workflows,
    opened: &mut OpenWays,
    begun: &mut u64,
    name: &WorkflowName,
    types: TypeSet,
) -> Result<(), Reason>
    requires { CanBegin workflows.old.entries opened.old.entries name.now }
    ensures { (topology : TopologyState) (primaries : Primaries) (journal : List JournalEntry)
        → BeginsSwitch (record { base = record { topology = topology; primaries = primaries; workflows = workflows.old.entries }; ways = record { opened = opened.old.entries; journal = journal; begun = begun.old } }) name.now types (done_by result)
        (record { base = record { topology = topology; primaries = primaries; workflows = workflows.new.entries }; ways = record { opened = opened.new.entries; journal = journal; begun = begun.new } }) }
{
    let Some(workflow) = workflows.get_mut(name) else {
        return Err(Reason::NoWorkflow);
    };
    if let Some(refusal) = switch_refusal(workflow, types, *begun) {
        return Err(refusal);
    }
    let shards = workflow.shards();
    let before = workflow.switched();
    let way = Way {
        back: false,
        shards,
        before,
        after: before.union(types),
        done: 0,
        undoing: false,
    };
    open_way(alloc, workflow, opened, begun, way)
}

/// Begins a way back on a live workflow: `F7 NoWorkflow`, `F13 UnderWay`, `F16 NothingToReverse`, `F27 Full`, `F0 Memory`.
/// (Vitess: ReverseTraffic of MoveTables)
pub fn begin_reverse(
    alloc: Global,
    workflows: &mut Workflows,
    opened: &mut OpenWays,
    begun: &mut u64,
    name: &WorkflowName,
    types: TypeSet,
) -> Result<(), Reason>
    requires { CanBegin workflows.old.entries opened.old.entries name.now }
    ensures { (topology : TopologyState) (primaries : Primaries) (journal : List JournalEntry)
        → BeginsReverse (record { base = record { topology = topology; primaries = primaries; workflows = workflows.old.entries }; ways = record { opened = opened.old.entries; journal = journal; begun = begun.old } }) name.now types (done_by result)
        (record { base = record { topology = topology; primaries = primaries; workflows = workflows.new.entries }; ways = record { opened = opened.new.entries; journal = journal; begun = begun.new } }) }
{
    let Some(workflow) = workflows.get_mut(name) else {
        return Err(Reason::NoWorkflow);
    };
    if let Some(refusal) = reverse_refusal(workflow, types, *begun) {
        return Err(refusal);
    }
    let shards = workflow.shards();
    let before = workflow.switched();
    let way = Way {
        back: true,
        shards,
        before,
        after: before.without(types),
        done: 0,
        undoing: false,
    };
    open_way(alloc, workflow, opened, begun, way)
}
