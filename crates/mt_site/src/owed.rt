//! The events that are owed to the live workflows, so that each can be given up.
ghost use Rattle.std.specs.Prelude.{◌≡◌, ◌≤◌, List, length};
ghost use Rattle.mt_model.specs.declared.entries.Scope.{Scope};
ghost use Rattle.mt_plain.specs.Plain.{Plain};
ghost use Rattle.mt_plain.specs.Refuse.{most_workflows, owed, owed_by};
ghost use Rattle.mt_stands.specs.Base.{BaseState};
ghost use Rattle.mt_stands.specs.Stands.{IsBase, StandsWith};
ghost use Rattle.mt_workflow.specs.Workflows.{live_of};
ghost use Rattle.mt_site.specs.Owed.{owed_to};

use crate::Workflows;
use mt_laws::{no_limit_is_passed, parts_are_apart};
use mt_workflow::Workflow;

/// A core has 16 workflows at most, and what is owed to them is what is owed to the live ones of the state that it stands for.
pub fn a_base_owes_what_its_state_owes()
    ensures few { (core : BaseState) → IsBase core → length core.workflows ≤ most_workflows }
    ensures same { (scopes : List Scope) (p : Plain) (core : BaseState) → StandsWith p scopes core → owed_to core.workflows ≡ owed p }
{
    no_limit_is_passed();
    parts_are_apart();
}

/// The events that are owed to a workflow: its Cancel, and where a way is open before its journal an undo of each step that
/// stands done, or of the begin.
fn owed_by(workflow: &Workflow) -> usize
    ensures value { result ≡ owed_by (live_of workflow.now) }
    ensures few { result ≤ 256 }
{
    let Some(way) = workflow.way() else {
        return 1;
    };
    if way.is_past_journal() {
        return 1;
    }
    1 + (way.done as usize).max(1)
}

/// The events that are owed to all workflows.
pub(crate) fn owed(workflows: &Workflows) -> usize
    requires { length workflows.now.entries ≤ most_workflows }
    ensures { result ≡ owed_to workflows.now.entries }
{
    let mut owed = 0;
    for (_, workflow) in workflows.iter() {
        owed += owed_by(workflow);
    }
    owed
}
