//! Laws on the shards of a base's workflows.
ghost use Rattle.std.specs.Prelude.{◌≡◌, [], ℕ, List, Some, length};
ghost use Rattle.mt_primary.specs.Primaries.{count_of, shards_of};
ghost use Rattle.mt_stands.specs.Base.{BaseState, workflow_at};
ghost use Rattle.mt_stands.specs.Stands.{IsBase};
ghost use Rattle.mt_workflow.specs.Workflows.{WorkflowState};

use mt_laws::{a_live_workflow_knows_its_shards, live_workflows_stand_in_place};

/// A workflow of a base has a lane for each shard of its target, and its source has one shard.
pub fn workflows_of_a_base_know_their_shards()
    ensures lanes { (base : BaseState) → IsBase base → (name : List ℕ) (w : WorkflowState)
        → workflow_at base.workflows name ≡ Some w → length w.lanes ≡ count_of base.primaries w.target }
    ensures source { (base : BaseState) → IsBase base → (name : List ℕ) (w : WorkflowState)
        → workflow_at base.workflows name ≡ Some w → count_of base.primaries w.source ≡ 1 }
    ensures cuts { (base : BaseState) → IsBase base → (name : List ℕ) (w : WorkflowState)
        → workflow_at base.workflows name ≡ Some w → (shards_of base.primaries w.source).cuts ≡ [] }
{
    a_live_workflow_knows_its_shards();
    live_workflows_stand_in_place();
}
