//! The law on logs that are purged, with ways open.
ghost use Rattle.std.specs.Prelude.{List};
ghost use Rattle.mt_model.specs.declared.entries.Scope.{Scope};
ghost use Rattle.mt_plain.specs.Events.{Answer, Event};
ghost use Rattle.mt_plain.specs.Plain.{Plain};
ghost use Rattle.mt_stands.specs.Base.{BaseState};
ghost use Rattle.mt_stands.specs.Purges.{PurgesBase};
ghost use Rattle.mt_stands.specs.Ways.{IsCore, CoreState, CoreStands, CoreSteps};

use crate::a_purged_base_stands;

/// A core whose logs are purged, each below a position of which nothing before is needed, stands for the states that it stood for, so
/// that it is one still, and an event that led to it leads to it purged.
pub fn a_purged_core_stands()
    ensures stands { (p : Plain) (scopes : List Scope) (s : CoreState) (base : BaseState) → CoreStands p scopes s → PurgesBase s.base base
        → CoreStands p scopes (record s { base = base }) }
    ensures core { (s : CoreState) (base : BaseState) → IsCore s → PurgesBase s.base base → IsCore (record s { base = base }) }
    ensures steps { (scopes : List Scope) (old made : CoreState) (event : Event) (answer : Answer) (base : BaseState)
        → CoreSteps scopes old event answer made → PurgesBase made.base base → CoreSteps scopes old event answer (record made { base = base }) }
{
    a_purged_base_stands();
}
