//! The part of a step that may be refused.
ghost use Rattle.std.specs.Prelude.{◌≡◌, ◌≤◌, ◌||◌, true, not, None, length};
ghost use Rattle.mt_names.specs.Shards.{most_shards};
ghost use Rattle.mt_plain.specs.Plain.{write_journal};
ghost use Rattle.mt_workflow.specs.Workflows.{way_from};
ghost use Rattle.mt_journal.specs.Journal.{entry_of};
ghost use Rattle.mt_steps.specs.Plans.{number};
ghost use Rattle.mt_steps.specs.Steps.{Attempts, Journals, answer_if_level, journal_entry};
ghost use Rattle.mt_steps.specs.Streams.{KeepsToFeed, KeepsToTest, is_fed, serves_other_side};

use crate::fault::StepFault;
use crate::refresh::refresh_side;
use crate::step::Step;
use crate::streams::{is_fed, positions, serves_other_side};
use mt_journal::{Journal, JournalEntry, JournalFault};
use mt_primary::{Before, Primary};
use mt_topology::Topology;
use mt_watch::Asks;
use mt_workflow::{Way, Workflow};
use std::alloc::Global;

/// `F18 NotLevel`, if the streams that feed on the way aren't all level.
fn check_level(
    workflow: &Workflow,
    way: Way,
    source: &Primary,
    targets: &[Primary],
) -> Result<(), StepFault>
    requires shards { length targets.now ≡ length workflow.now.lanes }
    requires kept { KeepsToFeed workflow.now (way_from way) source.now targets.now }
    ensures { result ≡ answer_if_level (is_fed workflow.now (way_from way) source.now targets.now) }
{
    if is_fed(workflow, way, source, targets) {
        return Ok(());
    }
    Err(StepFault::NotLevel)
}

/// `F18 NotLevel`, if the side that will serve the reads isn't the owner, and the streams that feed on the way aren't all level.
fn check_reads(
    workflow: &Workflow,
    way: Way,
    source: &Primary,
    targets: &[Primary],
) -> Result<(), StepFault>
    requires shards { length targets.now ≡ length workflow.now.lanes }
    requires kept { serves_other_side (way_from way) ≡ true → KeepsToFeed workflow.now (way_from way) source.now targets.now }
    ensures { result ≡ answer_if_level (not (serves_other_side (way_from way)) || is_fed workflow.now (way_from way) source.now targets.now) }
{
    if serves_other_side(way) {
        return check_level(workflow, way, source, targets);
    }
    Ok(())
}

/// Appends the entry of a way to the journal. `F27 Full`, `F0 Memory`.
fn append(
    journal: &mut Journal,
    number: u64,
    workflow: &Workflow,
    way: Way,
    source: &Primary,
    targets: &[Primary],
) -> Result<(), StepFault>
    requires few { length targets.now ≤ most_shards }
    requires fresh { entry_of journal.old number ≡ None }
    ensures { Journals (journal_entry number workflow.now (way_from way) source.now targets.now) journal.old result journal.new }
{
    let entry = JournalEntry {
        id: number,
        workflow: workflow.name().copied(),
        back: way.back,
        source_position: source.position(),
        target_positions: positions(targets),
    };
    match journal.append(entry) {
        Ok(()) => Ok(()),
        Err(JournalFault::Full) => Err(StepFault::Full),
        Err(_) => Err(StepFault::Memory),
    }
}

/// Does the part of a step that may be refused, and leaves all as it was if it is refused.
pub(crate) fn attempt<W: Asks>(
    alloc: Global,
    way: Way,
    step: Step,
    id: u64,
    topology: &Topology,
    workflow: &Workflow,
    source: &mut Primary,
    targets: &mut [Primary],
    journal: &mut Journal,
    watchers: &W,
    listed: &mut Option<Before>,
) -> Result<(), StepFault>
    requires shards { length targets.old ≡ length workflow.now.lanes }
    requires way { way.shards ≡ length workflow.now.lanes }
    requires kept { KeepsToTest workflow.now (way_from way) (number step) source.old targets.old }
    requires fresh { number step ≡ write_journal → entry_of journal.old id ≡ None }
    ensures { Attempts (W.scopes watchers.now) (W.may_answer watchers.now) id topology.now workflow.now (way_from way) step
        (record { source = source.old; targets = targets.old; journal = journal.old; listed = listed.old }) result
        (record { source = source.new; targets = targets.new; journal = journal.new; listed = listed.new }) }
{
    workflow.facts();
    let at_target = way.before.primary;
    let shard = way.next_shard();
    match step {
        Step::RefreshSource => {
            refresh_side(
                alloc, topology, workflow, at_target, shard, source, targets, watchers, listed,
            )
        }
        Step::RefreshTarget => {
            refresh_side(
                alloc, topology, workflow, !at_target, shard, source, targets, watchers, listed,
            )
        }
        Step::SwitchReads => check_reads(workflow, way, source, targets),
        Step::CatchUp => check_level(workflow, way, source, targets),
        Step::Journal => append(journal, id, workflow, way, source, targets),
        _ => Ok(()),
    }
}
