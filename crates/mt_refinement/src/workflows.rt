//! Laws on the workflows of a base.
ghost use Rattle.std.specs.Prelude.{◌≡◌, ◌≢◌, ℕ, ◌<◌, true, All, List, Some, length};
ghost use Rattle.mt_model.specs.Topology.{has_place};
ghost use Rattle.mt_plain.specs.Plain.{among};
ghost use Rattle.mt_primary.specs.Primary.{has_table};
ghost use Rattle.mt_primary.specs.Primaries.{has_primaries, primary_of};
ghost use Rattle.mt_stands.specs.Base.{BaseState, workflow_at};
ghost use Rattle.mt_stands.specs.Stands.{IsBase};
ghost use Rattle.mt_stands.specs.Keys.{keys_of_part};
ghost use Rattle.mt_workflow.specs.Workflows.{WorkflowState, live_of};

use mt_laws::{a_live_workflow_is_found_by_its_part, live_workflows_stand_in_place};
use mt_stands::what_is_written_has_a_place;

/// A workflow of a base is found by its own name; its sides are two, and both have primaries; each key of its part has a place
/// in the topology; and the source's primary and each of the target's have all of its tables.
pub fn workflows_of_a_base_stand_in_place()
    ensures named { (base : BaseState) → IsBase base → (name : List ℕ) (w : WorkflowState) → workflow_at base.workflows name ≡ Some w
        → w.name ≡ name }
    ensures source { (base : BaseState) → IsBase base → (name : List ℕ) (w : WorkflowState) → workflow_at base.workflows name ≡ Some w
        → has_primaries base.primaries w.source ≡ true }
    ensures target { (base : BaseState) → IsBase base → (name : List ℕ) (w : WorkflowState) → workflow_at base.workflows name ≡ Some w
        → has_primaries base.primaries w.target ≡ true }
    ensures apart { (base : BaseState) → IsBase base → (name : List ℕ) (w : WorkflowState) → workflow_at base.workflows name ≡ Some w
        → w.source ≢ w.target }
    ensures places { (base : BaseState) → IsBase base → (name : List ℕ) (w : WorkflowState) → workflow_at base.workflows name ≡ Some w
        → All (λ key. has_place base.topology key ≡ true) (keys_of_part (live_of w)) }
    ensures at_source { (base : BaseState) → IsBase base → (name : List ℕ) (w : WorkflowState)
        → workflow_at base.workflows name ≡ Some w → (table : List ℕ) → among w.tables table ≡ true
        → has_table (primary_of base.primaries w.source 0) table ≡ true }
    ensures at_target { (base : BaseState) → IsBase base → (name : List ℕ) (w : WorkflowState)
        → workflow_at base.workflows name ≡ Some w → (shard : ℕ) → shard < length w.lanes → (table : List ℕ) → among w.tables table ≡ true
        → has_table (primary_of base.primaries w.target shard) table ≡ true }
{
    a_live_workflow_is_found_by_its_part();
    live_workflows_stand_in_place();
    what_is_written_has_a_place();
}
