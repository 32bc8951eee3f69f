//! A step, and the undo of the last one.
ghost use Rattle.std.specs.Prelude.{◌≡◌, ◌<◌, true, None, is_some, length};
ghost use Rattle.mt_model.specs.Part.{with_entries};
ghost use Rattle.mt_model.specs.Topology.{has_place, key_of};
ghost use Rattle.mt_plain.specs.Plain.{last_step, next_step, write_journal};
ghost use Rattle.mt_workflow.specs.Workflows.{way_from};
ghost use Rattle.mt_journal.specs.Journal.{entry_of};
ghost use Rattle.mt_steps.specs.Entries.{HasPlaces, recorded, recorded_of, step_entries};
ghost use Rattle.mt_steps.specs.Plans.{number, step_at};
ghost use Rattle.mt_steps.specs.Steps.{IsGivenBack, IsUndone, Steps, left_slots, open_way};
ghost use Rattle.mt_steps.specs.Streams.{KeepsToTest, put_away, workflow_stepped, workflow_undone};
ghost use Rattle.mt_steps.specs.Undo.{IsLogOf};

use crate::attempt::attempt;
use crate::fault::StepFault;
use crate::log::UndoLog;
use crate::step::Step;
use crate::streams::{
    count_step, count_undo, last_shard, last_step, log_ends, step_streams, undo_streams,
};
use mt_journal::Journal;
use mt_names::Position;
use mt_primary::{Before, Primary};
use mt_topology::Topology;
use mt_watch::Asks;
use mt_workflow::{Way, Workflow};
use std::alloc::Global;

/// What a step works on: the topology, the primaries of the workflow's two sides, the workflow, the journal, the watchers, and the
/// number of the way.
#[derive(Drop)]
pub struct Sides<'a, W: Asks> {
    /// The topology.
    pub topology: &'a mut Topology,
    /// The source's primary.
    pub source: &'a mut Primary,
    /// The target's primaries, one for each of its shards, in their order.
    pub targets: &'a mut [Primary],
    /// The workflow whose way is open.
    pub workflow: &'a mut Workflow,
    /// The journal.
    pub journal: &'a mut Journal,
    /// The watchers.
    pub watchers: &'a W,
    /// The number of the way.
    pub number: u64,
}

/// Does the step of a way that is next, for the shard that the next place is for; `log` becomes what its undo needs. See `Step` for what
/// each step does, what refuses it, and whom it asks. A refused step leaves everything as it was. Of the steps only a refresh and the
/// journal take memory: for the streams that step 5 puts away, `log` has room from the begin on, however many shards there are.
/// (Vitess: SwitchTraffic, ReverseTraffic)
pub fn do_step<W: Asks>(
    alloc: Global,
    sides: &mut Sides<'_, W>,
    log: &mut UndoLog,
    step: Step,
) -> Result<(), StepFault>
    requires open { is_some sides.old.workflow.now.way ≡ true }
    requires next { number step ≡ next_step (open_way sides.old.workflow.now) }
    requires places { HasPlaces sides.old.topology.now sides.old.workflow.now }
    requires log { IsLogOf sides.old.workflow.now log.old }
    requires targets { length sides.old.targets.now ≡ length sides.old.workflow.now.lanes }
    requires shards { (open_way sides.old.workflow.now).shards ≡ length sides.old.workflow.now.lanes }
    requires kept { KeepsToTest sides.old.workflow.now (open_way sides.old.workflow.now) (number step) sides.old.source.now sides.old.targets.now }
    requires fresh { number step ≡ write_journal → entry_of sides.old.journal.now sides.old.number ≡ None }
    ensures topology { sides.new.topology.ghost_name ≡ sides.old.topology.ghost_name }
    ensures source { sides.new.source.ghost_name ≡ sides.old.source.ghost_name }
    ensures targets { sides.new.targets.ghost_name ≡ sides.old.targets.ghost_name }
    ensures workflow { sides.new.workflow.ghost_name ≡ sides.old.workflow.ghost_name }
    ensures journal { sides.new.journal.ghost_name ≡ sides.old.journal.ghost_name }
    ensures watchers { sides.new.watchers ≡ sides.old.watchers }
    ensures number { sides.new.number ≡ sides.old.number }
    ensures log { IsLogOf sides.new.workflow.now log.new }
    ensures places { HasPlaces sides.new.topology.now sides.new.workflow.now }
    ensures steps { Steps (W.scopes sides.old.watchers.now) (W.may_answer sides.old.watchers.now) sides.old.number (open_way sides.old.workflow.now) step
        (record { topology = sides.old.topology.now; source = sides.old.source.now; targets = sides.old.targets.now; workflow = sides.old.workflow.now; journal = sides.old.journal.now }) log.old
        result
        (record { topology = sides.new.topology.now; source = sides.new.source.now; targets = sides.new.targets.now; workflow = sides.new.workflow.now; journal = sides.new.journal.now }) log.new }
{
    let way = sides.workflow.way().unwrap();
    step_of_way(
        alloc,
        way,
        step,
        sides.number,
        sides.topology,
        sides.source,
        sides.targets,
        sides.workflow,
        sides.journal,
        sides.watchers,
        log,
    )
}

/// Does the step of a way that is next, as `do_step` says, with all that it works on apart.
fn step_of_way<W: Asks>(
    alloc: Global,
    way: Way,
    step: Step,
    id: u64,
    topology: &mut Topology,
    source: &mut Primary,
    targets: &mut [Primary],
    workflow: &mut Workflow,
    journal: &mut Journal,
    watchers: &W,
    log: &mut UndoLog,
) -> Result<(), StepFault>
    requires next { number step ≡ next_step (way_from way) }
    requires places { HasPlaces topology.old workflow.old }
    requires log { IsLogOf workflow.old log.old }
    requires targets { length targets.old ≡ length workflow.old.lanes }
    requires shards { way.shards ≡ length workflow.old.lanes }
    requires kept { KeepsToTest workflow.old (way_from way) (number step) source.old targets.old }
    requires fresh { number step ≡ write_journal → entry_of journal.old id ≡ None }
    ensures log { IsLogOf workflow.new log.new }
    ensures places { HasPlaces topology.new workflow.new }
    ensures steps { Steps (W.scopes watchers.now) (W.may_answer watchers.now) id (way_from way) step
        (record { topology = topology.old; source = source.old; targets = targets.old; workflow = workflow.old; journal = journal.old }) log.old
        result
        (record { topology = topology.new; source = source.new; targets = targets.new; workflow = workflow.new; journal = journal.new }) log.new }
{
    workflow.facts();
    let ends = log_ends(way, source, targets);
    let listed = &mut log.late.lanes[usize::from(way.next_shard())].listed;
    attempt(
        alloc, way, step, id, topology, workflow, source, targets, journal, watchers, listed,
    )?;
    finish_step(way, step, ends.as_slice(), topology, workflow, log);
    Ok(())
}

/// Does the part of a step that is never refused: it writes the entries that change with the step, and records what stood there; it
/// changes the streams, and counts the step. `ends` are the ends of the logs that new streams will read.
#[inline(always)]
fn finish_step(
    way: Way,
    step: Step,
    ends: &[Position],
    topology: &mut Topology,
    workflow: &mut Workflow,
    log: &mut UndoLog,
)
    requires next { number step ≡ next_step (way_from way) }
    requires shards { way.shards ≡ length workflow.old.lanes }
    requires ends { length ends.now ≡ length workflow.old.lanes }
    requires places { HasPlaces topology.old workflow.old }
    requires log { IsLogOf workflow.old log.old }
    ensures log { IsLogOf workflow.new log.new }
    ensures places { HasPlaces topology.new workflow.new }
    ensures topology { topology.new ≡ with_entries topology.old (step_entries workflow.old (way_from way).after (number step)) }
    ensures workflow { workflow.new ≡ workflow_stepped workflow.old (way_from way) step ends.now }
    ensures recorded { log.new ≡ record { entries = recorded workflow.old (number step) topology.old log.old.entries; listed = log.old.listed; slots = put_away workflow.old (way_from way) step log.old.slots } }
{
    log.exchange(topology, workflow, way.after, step);
    workflow.facts();
    step_streams(workflow, way, step, ends, &mut log.late.lanes);
    count_step(workflow, way, step);
}

/// Takes back the step that was done last, for the shard that its place is for; it is before the journal. Its entries, the own list and
/// the slots get what stood there before it, and all else stays as it is now. It takes no memory, asks nobody, and is never refused. (Vitess: Cancel of a switch of
/// traffic before its journal)
pub fn undo_last<W: Asks>(sides: &mut Sides<'_, W>, log: &mut UndoLog)
    requires open { is_some sides.old.workflow.now.way ≡ true }
    requires some { 0 < (open_way sides.old.workflow.now).done }
    requires before { last_step (open_way sides.old.workflow.now) < write_journal }
    requires targets { length sides.old.targets.now ≡ length sides.old.workflow.now.lanes }
    requires shards { (open_way sides.old.workflow.now).shards ≡ length sides.old.workflow.now.lanes }
    requires places { HasPlaces sides.old.topology.now sides.old.workflow.now }
    requires log { IsLogOf sides.old.workflow.now log.old }
    ensures topology { sides.new.topology.ghost_name ≡ sides.old.topology.ghost_name }
    ensures source { sides.new.source.ghost_name ≡ sides.old.source.ghost_name }
    ensures targets { sides.new.targets.ghost_name ≡ sides.old.targets.ghost_name }
    ensures workflow { sides.new.workflow.ghost_name ≡ sides.old.workflow.ghost_name }
    ensures journal { sides.new.journal.ghost_name ≡ sides.old.journal.ghost_name }
    ensures watchers { sides.new.watchers ≡ sides.old.watchers }
    ensures number { sides.new.number ≡ sides.old.number }
    ensures log { IsLogOf sides.new.workflow.now log.new }
    ensures places { HasPlaces sides.new.topology.now sides.new.workflow.now }
    ensures undone { IsUndone (open_way sides.old.workflow.now) (step_at (last_step (open_way sides.old.workflow.now)))
        (record { topology = sides.old.topology.now; source = sides.old.source.now; targets = sides.old.targets.now; workflow = sides.old.workflow.now; journal = sides.old.journal.now }) log.old
        (record { topology = sides.new.topology.now; source = sides.new.source.now; targets = sides.new.targets.now; workflow = sides.new.workflow.now; journal = sides.new.journal.now }) log.new }
{
    let way = sides.workflow.way().unwrap();
    let step = last_step(way);
    undo_of_way(
        way,
        step,
        sides.topology,
        sides.source,
        sides.targets,
        sides.workflow,
        sides.journal,
        log,
    );
}

/// Takes back the step of a way that was done last, as `undo_last` says, with all that it works on apart.
fn undo_of_way(
    way: Way,
    step: Step,
    topology: &mut Topology,
    source: &mut Primary,
    targets: &mut [Primary],
    workflow: &mut Workflow,
    journal: &Journal,
    log: &mut UndoLog,
)
    requires targets { length targets.old ≡ length workflow.old.lanes }
    requires shards { way.shards ≡ length workflow.old.lanes }
    requires places { HasPlaces topology.old workflow.old }
    requires log { IsLogOf workflow.old log.old }
    ensures log { IsLogOf workflow.new log.new }
    ensures places { HasPlaces topology.new workflow.new }
    ensures undone { IsUndone (way_from way) step
        (record { topology = topology.old; source = source.old; targets = targets.old; workflow = workflow.old; journal = journal.now }) log.old
        (record { topology = topology.new; source = source.new; targets = targets.new; workflow = workflow.new; journal = journal.now }) log.new }
{
    workflow.facts();
    let shard = last_shard(way);
    give_back(way, shard, source, targets, log.take_listed(step, shard));
    finish_undo(way, step, topology, workflow, log);
}

/// Does the part of an undo that concerns no primary: it writes back what is recorded of the step's entries, gives back the streams
/// that the step put away, and counts the undo.
#[inline(always)]
fn finish_undo(
    way: Way,
    step: Step,
    topology: &mut Topology,
    workflow: &mut Workflow,
    log: &mut UndoLog,
)
    requires places { HasPlaces topology.old workflow.old }
    requires log { IsLogOf workflow.old log.old }
    ensures log { IsLogOf workflow.new log.new }
    ensures places { HasPlaces topology.new workflow.new }
    ensures topology { topology.new ≡ with_entries topology.old (recorded_of workflow.old (number step) log.old.entries) }
    ensures workflow { workflow.new ≡ workflow_undone workflow.old (way_from way) step log.old.slots }
    ensures left { log.new ≡ record log.old { slots = left_slots step log.old.slots } }
{
    log.write_back(topology, workflow, step);
    undo_streams(workflow, way, step, &mut log.late.lanes);
    count_undo(workflow, way);
}

/// Gives back to the old owner's primary what stood on its own list; at the target it is that of a shard.
fn give_back(
    way: Way,
    shard: u8,
    source: &mut Primary,
    targets: &mut [Primary],
    listed: Option<Before>,
)
    requires { shard < length targets.old }
    ensures { IsGivenBack (way_from way).before.primary shard listed source.old targets.old source.new targets.new }
{
    let Some(before) = listed else {
        return;
    };
    if way.before.primary {
        targets[usize::from(shard)].put_denied(before);
        return;
    }
    source.put_denied(before);
}
