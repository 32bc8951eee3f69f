//! The next step of a way.
ghost use Rattle.std.specs.Prelude.{◌≡◌, ℕ, true, None, Some, is_some, length, option_map};
ghost use Rattle.mt_event.specs.Reasons.{done_by, reason_from};
ghost use Rattle.mt_stands.specs.Switching.{StepsWorkflow, answer_by_step, step_refusal};
ghost use Rattle.mt_moves.specs.Ways.{CanStep, IsUnderWay, StepsBetween, left_open};
ghost use Rattle.mt_journal.specs.Journal.{entry_of};
ghost use Rattle.mt_plain.specs.Plain.{next_step, write_journal};
ghost use Rattle.mt_steps.specs.Entries.{HasPlaces};
ghost use Rattle.mt_steps.specs.Faults.{refusal_of};
ghost use Rattle.mt_steps.specs.Plans.{number};
ghost use Rattle.mt_steps.specs.Steps.{Steps, open_way};
ghost use Rattle.mt_steps.specs.Streams.{KeepsToTest};
ghost use Rattle.mt_steps.specs.Undo.{IsLogOf};
ghost use Rattle.mt_workflow.specs.Workflows.{way_from};

use crate::{OpenWays, Primaries, Workflows};
use mt_event::Reason;
use mt_journal::Journal;
use mt_names::WorkflowName;
use mt_primary::{Primary, sides_of};
use mt_steps::{OpenWay, Sides, Step, StepFault, UndoLog, do_step, next_step};
use mt_topology::Topology;
use mt_watch::Asks;
use mt_workflow::{Way, Workflow};
use std::alloc::Global;

/// The refusal of the controller for one of a step.
fn refusal_by_step(fault: StepFault) -> Reason
    ensures { reason_from result ≡ refusal_of fault }
{
    match fault {
        StepFault::Memory => Reason::Memory,
        StepFault::NotLevel => Reason::NotLevel,
        StepFault::WatcherRefused(index) => Reason::WatcherRefused(index),
        StepFault::NoWatcher => Reason::NoWatcher,
        StepFault::Full => Reason::Full,
    }
}

/// What the controller answers to a step.
fn answer_by_step(done: Result<(), StepFault>) -> Result<(), Reason>
    ensures { done_by result ≡ answer_by_step done }
{
    match done {
        Ok(()) => Ok(()),
        Err(fault) => Err(refusal_by_step(fault)),
    }
}

/// Forgets what was kept of the way of a workflow, if no way is open on it now. It takes no memory.
pub(crate) fn close(opened: &mut OpenWays, name: &WorkflowName, way: Option<Way>)
    ensures { opened.new.entries ≡ left_open opened.old.entries name.now (option_map way_from way) }
{
    match way {
        None => {
            opened.shift_remove(name);
        }
        Some(_) => {}
    }
}

/// What refuses a step before it is tried: `F28 Undoing`, `F25 Stale`.
fn step_refusal(way: Way, at: u64) -> Option<Reason>
    ensures { option_map reason_from result ≡ step_refusal at (way_from way) }
{
    if way.undoing {
        return Some(Reason::Undoing);
    }
    if at != u64::from(way.done) {
        return Some(Reason::Stale(u64::from(way.done)));
    }
    None
}

/// Does a step that is next between the primaries of a workflow's sides, as `do_step` says.
fn step_on<W: Asks>(
    alloc: Global,
    topology: &mut Topology,
    source: &mut Primary,
    targets: &mut [Primary],
    workflow: &mut Workflow,
    journal: &mut Journal,
    watchers: &W,
    id: u64,
    log: &mut UndoLog,
    step: Step,
) -> Result<(), StepFault>
    requires open { is_some workflow.old.way ≡ true }
    requires next { number step ≡ next_step (open_way workflow.old) }
    requires places { HasPlaces topology.old workflow.old }
    requires log { IsLogOf workflow.old log.old }
    requires targets { length targets.old ≡ length workflow.old.lanes }
    requires shards { (open_way workflow.old).shards ≡ length workflow.old.lanes }
    requires kept { KeepsToTest workflow.old (open_way workflow.old) (number step) source.old targets.old }
    requires fresh { number step ≡ write_journal → entry_of journal.old id ≡ None }
    ensures { Steps (W.scopes watchers.now) (W.may_answer watchers.now) id (open_way workflow.old) step
        (record { topology = topology.old; source = source.old; targets = targets.old; workflow = workflow.old; journal = journal.old }) log.old
        result
        (record { topology = topology.new; source = source.new; targets = targets.new; workflow = workflow.new; journal = journal.new }) log.new }
{
    let mut sides = Sides {
        topology,
        source,
        targets,
        workflow,
        journal,
        watchers,
        number: id,
    };
    do_step(alloc, &mut sides, log, step)
}

/// Does the step that is next between the primaries of a workflow's sides, wherever they stand.
#[inline(never)]
fn step_between<W: Asks>(
    alloc: Global,
    topology: &mut Topology,
    primaries: &mut Primaries,
    workflow: &mut Workflow,
    way: Way,
    journal: &mut Journal,
    kept: &mut OpenWay,
    watchers: &W,
) -> Result<(), StepFault>
    requires way { workflow.old.way ≡ Some (way_from way) }
    requires stands { IsUnderWay topology.old primaries.old journal.old workflow.old.name workflow.old (way_from way) kept.old }
    ensures { StepsBetween (W.scopes watchers.now) (W.may_answer watchers.now) topology.old primaries.old workflow.old (way_from way) journal.old kept.old result
        topology.new primaries.new workflow.new journal.new kept.new }
{
    let (places, source, target) = primaries.sides_mut(workflow.source(), workflow.target());
    let (one, all) = sides_of(places, source, target);
    step_on(
        alloc,
        topology,
        one,
        all,
        workflow,
        journal,
        watchers,
        kept.number,
        &mut kept.log,
        next_step(way),
    )
}

/// Does the next step of the way that is open on a live workflow, and closes the way behind its last one: `F7 NoWorkflow`,
/// `F14 NothingUnderWay`, `F28 Undoing`, `F25 Stale`, and what the step itself is refused by: `F18 NotLevel`, `F24 NoWatcher`,
/// `F27 Full`, `F0 Memory`, `F23 WatcherRefused`. A refusal leaves all as it was. (Vitess: SwitchTraffic, ReverseTraffic)
pub fn step<W: Asks>(
    alloc: Global,
    topology: &mut Topology,
    primaries: &mut Primaries,
    workflows: &mut Workflows,
    opened: &mut OpenWays,
    journal: &mut Journal,
    watchers: &W,
    name: &WorkflowName,
    at: u64,
) -> Result<(), Reason>
    requires { CanStep topology.old primaries.old workflows.old.entries journal.old opened.old.entries name.now }
    ensures { (begun : ℕ) → StepsWorkflow (record { base = record { topology = topology.old; primaries = primaries.old; workflows = workflows.old.entries }; ways = record { opened = opened.old.entries; journal = journal.old; begun = begun } })
        (W.scopes watchers.now) (W.may_answer watchers.now) name.now at (done_by result)
        (record { base = record { topology = topology.new; primaries = primaries.new; workflows = workflows.new.entries }; ways = record { opened = opened.new.entries; journal = journal.new; begun = begun } }) }
{
    let Some(workflow) = workflows.get_mut(name) else {
        return Err(Reason::NoWorkflow);
    };
    let Some(way) = workflow.way() else {
        return Err(Reason::NothingUnderWay);
    };
    if let Some(refusal) = step_refusal(way, at) {
        return Err(refusal);
    }
    let Some(kept) = opened.get_mut(name) else {
        unreachable!()
    };
    let result = step_between(
        alloc, topology, primaries, workflow, way, journal, kept, watchers,
    );
    close(opened, name, workflow.way());
    answer_by_step(result)
}
