//! Cancel: a workflow is taken back.
ghost use Rattle.std.specs.Prelude.{◌≡◌, true, All, Some, None, option_map, fold};
ghost use Rattle.mt_event.specs.Reasons.{done_by, reason_from};
ghost use Rattle.mt_model.specs.Topology.{has_place};
ghost use Rattle.mt_plain.specs.Refuse.{cancel_refusal};
ghost use Rattle.mt_primary.specs.Writes.{without_table};
ghost use Rattle.mt_primary.specs.Primaries.{has_primaries, with_all};
ghost use Rattle.mt_stands.specs.Base.{workflow_at};
ghost use Rattle.mt_stands.specs.Workflows.{Cancels};
ghost use Rattle.mt_stands.specs.Keys.{kept_entries, keys_of_part};
ghost use Rattle.mt_workflow.specs.Workflows.{WorkflowState, live_of};
ghost use Rattle.mt_model.specs.Part.{with_entries, without_places};
ghost use Rattle.mt_moves.specs.Cancel.{CanCancel, IsInPlace};

use crate::parts::write_kept;
use crate::target::drop_at;
use crate::{Primaries, Workflows};
use mt_event::Reason;
use mt_names::{TypeSet, WorkflowName};
use mt_topology::Topology;
use mt_workflow::Workflow;

/// What refuses a Cancel of a workflow: `F13 UnderWay`, `F20 TrafficSwitched`.
fn cancel_refusal(workflow: &Workflow) -> Option<Reason>
    ensures { option_map reason_from result ≡ cancel_refusal (live_of workflow.now) }
{
    if workflow.way().is_some() {
        return Some(Reason::UnderWay);
    }
    let switched = workflow.switched();
    if switched.primary || switched.replica || switched.rdonly {
        return Some(Reason::TrafficSwitched);
    }
    None
}

/// Writes back what the workflow keeps over its part, whose places that then hold nothing it drops.
fn give_back_part(topology: &mut Topology, workflow: &Workflow)
    requires { All (λ key. has_place topology.old key ≡ true) (keys_of_part (live_of workflow.now)) }
    ensures { topology.new ≡ without_places (with_entries topology.old (kept_entries workflow.now.kept (live_of workflow.now))) (keys_of_part (live_of workflow.now)) }
{
    write_kept(topology, workflow);
    topology.release_part(workflow.source(), workflow.target(), workflow.tables());
}

/// Cancels a live workflow: `F7 NoWorkflow`, `F13 UnderWay`, `F20 TrafficSwitched`. It takes no memory, and asks nobody.
/// (Vitess: Cancel of MoveTables)
pub fn cancel(
    topology: &mut Topology,
    primaries: &mut Primaries,
    workflows: &mut Workflows,
    name: &WorkflowName,
) -> Result<(), Reason>
    requires { CanCancel topology.old primaries.old workflows.old.entries name.now }
    ensures { Cancels (record { topology = topology.old; primaries = primaries.old; workflows = workflows.old.entries }) name.now (done_by result)
        (record { topology = topology.new; primaries = primaries.new; workflows = workflows.new.entries }) }
{
    let Some(workflow) = workflows.get(name) else {
        return Err(Reason::NoWorkflow);
    };
    if let Some(refusal) = cancel_refusal(workflow) {
        return Err(refusal);
    }
    give_back_part(topology, workflow);
    drop_at(primaries, workflow.target(), workflow.tables());
    workflows.shift_remove(name);
    Ok(())
}
