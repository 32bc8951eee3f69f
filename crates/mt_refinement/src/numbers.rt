//! The law on the numbers of ways.
ghost use Rattle.std.specs.Prelude.{◌≡◌, ◌≤◌, All, ℕ, suc, List, None, Some, option_map};
ghost use Rattle.mt_model.specs.declared.entries.Scope.{Scope};
ghost use Rattle.mt_plain.specs.Events.{Way};
ghost use Rattle.mt_plain.specs.Plain.{Plain};
ghost use Rattle.mt_stands.specs.Base.{workflow_at};
ghost use Rattle.mt_stands.specs.Switching.{with_way};
ghost use Rattle.mt_stands.specs.Ways.{CoreState, CoreStands, open_at};
ghost use Rattle.mt_steps.specs.declared.log.OpenWay.{OpenWay};
ghost use Rattle.mt_workflow.specs.Workflows.{WorkflowState};

/// Numbers count the ways from 1: that of an entry of the journal, or of an open way, is at least 1, and at most as many as were begun;
/// and a way that is begun gets the number that it has among them, so that the first one gets 1.
pub fn numbers_count_the_ways_from_one()
    ensures written { (p : Plain) (scopes : List Scope) (s : CoreState) → CoreStands p scopes s
        → All (λ entry. (1 ≤ entry.id) × (entry.id ≤ p.ways)) s.ways.journal }
    ensures opened { (p : Plain) (scopes : List Scope) (s : CoreState) → CoreStands p scopes s → (name : List ℕ) (o : OpenWay)
        → open_at s.ways.opened name ≡ Some o → (1 ≤ o.number) × (o.number ≤ p.ways) }
    ensures begun { (p : Plain) (scopes : List Scope) (s : CoreState) → CoreStands p scopes s → (w : WorkflowState) (way : Way)
        → workflow_at s.base.workflows w.name ≡ Some w → w.way ≡ None
        → option_map (λ o. o.number) (open_at (with_way s w way).ways.opened w.name) ≡ Some (suc p.ways) }
{}
