//! The shards of a workflow's target, by their ranges.
ghost use Rattle.std.specs.Prelude.{◌≡◌, position};
ghost use Rattle.mt_names.specs.Shards.{same_range};
ghost use Rattle.mt_stands.specs.Base.{workflow_at};
ghost use Rattle.mt_site.specs.Shards.{shard_from, shard_in, shard_or_none};

use crate::Workflows;
use mt_event::Reason;
use mt_names::{KeyRange, WorkflowName};
use mt_workflow::Workflow;

/// The shard of a workflow's target whose range is written so.
fn place_in(workflow: &Workflow, range: &KeyRange) -> Option<u8>
    ensures { result ≡ position (λ lane. same_range range.now lane.range) workflow.now.lanes }
{
    for shard in 0..workflow.shards() {
        if range == workflow.range(shard) {
            return Some(shard);
        }
    }
    None
}

/// What is told of it.
fn told(place: Option<u8>) -> Result<u8, Reason>
    ensures { shard_from result ≡ shard_or_none place }
{
    match place {
        None => Err(Reason::NoShard),
        Some(shard) => Ok(shard),
    }
}

/// The same of a live workflow: `F7 NoWorkflow`, `F32 NoShard`. It takes no memory.
pub(crate) fn place_of(
    workflows: &Workflows,
    name: &WorkflowName,
    range: &KeyRange,
) -> Result<u8, Reason>
    ensures { shard_from result ≡ shard_in (workflow_at workflows.now.entries name.now) range.now }
{
    match workflows.get(name) {
        None => Err(Reason::NoWorkflow),
        Some(workflow) => told(place_in(workflow, range)),
    }
}
