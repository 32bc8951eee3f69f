//! Laws on the denials of a base's topology.
ghost use Rattle.std.specs.Prelude.{◌≡◌, ℕ, true, List};
ghost use Rattle.mt_model.specs.Topology.{is_denied};
ghost use Rattle.mt_stands.specs.Base.{BaseState};
ghost use Rattle.mt_stands.specs.Stands.{IsBase};
ghost use Rattle.mt_stands.specs.Workflows.{is_moved};

use mt_laws::{a_live_workflow_is_found_by_its_part, live_workflows_stand_in_place};

/// The topology of a base denies a table only where a live workflow moves it.
pub fn a_base_denies_only_what_a_workflow_moves()
    ensures { (base : BaseState) → IsBase base → (keyspace table : List ℕ) → is_denied base.topology.keyspaces keyspace table ≡ true
        → is_moved base.workflows table ≡ true }
{
    a_live_workflow_is_found_by_its_part();
    live_workflows_stand_in_place();
}
