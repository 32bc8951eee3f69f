//! The undo of the last step of a way.
ghost use Rattle.std.specs.Prelude.{◌≡◌, ◌<◌, ◌==◌, ℕ, false, true, Some, is_some, length, option_map};
ghost use Rattle.mt_event.specs.Reasons.{done_by, reason_from};
ghost use Rattle.mt_plain.specs.Plain.{last_step, stands_done, write_journal};
ghost use Rattle.mt_steps.specs.Entries.{HasPlaces};
ghost use Rattle.mt_steps.specs.Plans.{step_at};
ghost use Rattle.mt_steps.specs.Steps.{IsUndone, open_way};
ghost use Rattle.mt_steps.specs.Undo.{IsLogOf};
ghost use Rattle.mt_stands.specs.Switching.{UndoesWorkflow, undo_refusal};
ghost use Rattle.mt_moves.specs.Ways.{CanStep, IsUnderWay, UndoesBetween};
ghost use Rattle.mt_workflow.specs.Workflows.{way_from};

use crate::stepping::close;
use crate::{OpenWays, Primaries, Workflows};
use mt_event::Reason;
use mt_journal::Journal;
use mt_names::WorkflowName;
use mt_primary::{Primary, sides_of};
use mt_steps::{OpenWay, Sides, UndoLog, undo_last};
use mt_topology::Topology;
use mt_watch::Asks;
use mt_workflow::{Way, Workflow};

/// What refuses an undo: `F19 PastJournal`, `F25 Stale`.
fn undo_refusal(way: Way, at: u64) -> Option<Reason>
    ensures { option_map reason_from result ≡ undo_refusal at (way_from way) }
{
    if way.is_past_journal() {
        return Some(Reason::PastJournal);
    }
    if at != u64::from(way.done) {
        return Some(Reason::Stale(u64::from(way.done)));
    }
    None
}

/// Takes the step that was done last back between the primaries of a workflow's sides, as `undo_last` says.
fn undo_on<W: Asks>(
    topology: &mut Topology,
    source: &mut Primary,
    targets: &mut [Primary],
    workflow: &mut Workflow,
    journal: &mut Journal,
    watchers: &W,
    id: u64,
    log: &mut UndoLog,
)
    requires open { is_some workflow.old.way ≡ true }
    requires some { 0 < (open_way workflow.old).done }
    requires before { last_step (open_way workflow.old) < write_journal }
    requires targets { length targets.old ≡ length workflow.old.lanes }
    requires shards { (open_way workflow.old).shards ≡ length workflow.old.lanes }
    requires places { HasPlaces topology.old workflow.old }
    requires log { IsLogOf workflow.old log.old }
    ensures { IsUndone (open_way workflow.old) (step_at (last_step (open_way workflow.old)))
        (record { topology = topology.old; source = source.old; targets = targets.old; workflow = workflow.old; journal = journal.old }) log.old
        (record { topology = topology.new; source = source.new; targets = targets.new; workflow = workflow.new; journal = journal.new }) log.new }
{
    let mut sides = Sides {
        topology,
        source,
        targets,
        workflow,
        journal,
        watchers,
        number: id,
    };
    undo_last(&mut sides, log)
}

/// Undoes the step that was done last between the primaries of a workflow's sides, wherever they stand.
#[inline(never)]
fn undo_done<W: Asks>(
    topology: &mut Topology,
    primaries: &mut Primaries,
    workflow: &mut Workflow,
    way: Way,
    journal: &mut Journal,
    kept: &mut OpenWay,
    watchers: &W,
)
    requires way { workflow.old.way ≡ Some (way_from way) }
    requires stands { IsUnderWay topology.old primaries.old journal.old workflow.old.name workflow.old (way_from way) kept.old }
    requires before { stands_done (way_from way) write_journal ≡ false }
    requires some { (way.done == 0) ≡ false }
    ensures { UndoesBetween topology.old primaries.old workflow.old (way_from way) journal.old kept.old
        topology.new primaries.new workflow.new journal.new kept.new }
{
    let (places, source, target) = primaries.sides_mut(workflow.source(), workflow.target());
    let (one, all) = sides_of(places, source, target);
    undo_on(
        topology,
        one,
        all,
        workflow,
        journal,
        watchers,
        kept.number,
        &mut kept.log,
    );
}

/// Undoes the step that was done last between the primaries of a workflow's sides, or closes the way, if none of its steps stands done.
fn undo_between<W: Asks>(
    topology: &mut Topology,
    primaries: &mut Primaries,
    workflow: &mut Workflow,
    way: Way,
    journal: &mut Journal,
    kept: &mut OpenWay,
    watchers: &W,
)
    requires way { workflow.old.way ≡ Some (way_from way) }
    requires stands { IsUnderWay topology.old primaries.old journal.old workflow.old.name workflow.old (way_from way) kept.old }
    requires before { stands_done (way_from way) write_journal ≡ false }
    ensures { UndoesBetween topology.old primaries.old workflow.old (way_from way) journal.old kept.old
        topology.new primaries.new workflow.new journal.new kept.new }
{
    if way.done == 0 {
        workflow.set_way(None);
        return;
    }
    undo_done(topology, primaries, workflow, way, journal, kept, watchers);
}

/// Undoes the last step of the way that is open on a live workflow, and closes the way if none stands done then: `F7 NoWorkflow`,
/// `F14 NothingUnderWay`, `F19 PastJournal`, `F25 Stale`. It takes no memory, and asks nobody. (Vitess: Cancel of a switch of
/// traffic before its journal)
pub fn undo<W: Asks>(
    topology: &mut Topology,
    primaries: &mut Primaries,
    workflows: &mut Workflows,
    opened: &mut OpenWays,
    journal: &mut Journal,
    watchers: &W,
    name: &WorkflowName,
    at: u64,
) -> Result<(), Reason>
    requires { CanStep topology.old primaries.old workflows.old.entries journal.old opened.old.entries name.now }
    ensures { (begun : ℕ) → UndoesWorkflow (record { base = record { topology = topology.old; primaries = primaries.old; workflows = workflows.old.entries }; ways = record { opened = opened.old.entries; journal = journal.old; begun = begun } }) name.now at (done_by result)
        (record { base = record { topology = topology.new; primaries = primaries.new; workflows = workflows.new.entries }; ways = record { opened = opened.new.entries; journal = journal.new; begun = begun } }) }
{
    let Some(workflow) = workflows.get_mut(name) else {
        return Err(Reason::NoWorkflow);
    };
    let Some(way) = workflow.way() else {
        return Err(Reason::NothingUnderWay);
    };
    if let Some(refusal) = undo_refusal(way, at) {
        return Err(refusal);
    }
    let Some(kept) = opened.get_mut(name) else {
        unreachable!()
    };
    undo_between(topology, primaries, workflow, way, journal, kept, watchers);
    close(opened, name, workflow.way());
    Ok(())
}
