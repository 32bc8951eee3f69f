//! Laws on what keeps a base one that stands for a state.
ghost use Rattle.std.specs.Prelude.{◌≡◌, List, ◌++◌};
ghost use Rattle.mt_laws.specs.Texts.{BringsNames};
ghost use Rattle.mt_model.specs.declared.entries.Scope.{Scope};
ghost use Rattle.mt_plain.specs.Events.{Answer, Event};
ghost use Rattle.mt_stands.specs.Base.{BaseState, empty_base};
ghost use Rattle.mt_stands.specs.Stands.{HasState, IsBase, Steps};

use mt_stands::{the_empty_topology_stands_for_the_opening, the_opening_has_no_rows};

/// A base without keyspaces and workflows is one. A base stands for a state with more watchers too. What leads from each state
/// that a base stands for to the next one leaves a base, whatever watchers are there besides.
pub fn a_base_stays_one()
    ensures opening { IsBase empty_base }
    ensures wider { (base : BaseState) (scopes : List Scope) (h : HasState base)
        → (g : HasState base) × (g.state.scopes ≡ h.state.scopes ++ scopes) }
    ensures stays { (scopes : List Scope) (old new : BaseState) (event : Event) (answer : Answer) → BringsNames event
        → ((more : List Scope) → Steps (more ++ scopes) old event answer new) → IsBase old → IsBase new }
{
    the_empty_topology_stands_for_the_opening();
    the_opening_has_no_rows();
}
