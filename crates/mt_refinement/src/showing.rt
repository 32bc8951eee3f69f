//! The law on Show.
ghost use Rattle.std.specs.Prelude.{ℕ, List};
ghost use Rattle.mt_model.specs.declared.entries.Scope.{Scope};
ghost use Rattle.mt_plain.specs.Events.{Answer, show};
ghost use Rattle.mt_stands.specs.Base.{BaseState};
ghost use Rattle.mt_stands.specs.Stands.{Steps};
ghost use Rattle.mt_stands.specs.Workflows.{ShowsWorkflow};

/// What Show tells of a workflow of the base is what the definitions tell of the live one, and nothing changes.
pub fn a_show_steps()
    ensures { (scopes : List Scope) (old new : BaseState) (workflow : List ℕ) (answer : Answer)
        → ShowsWorkflow old workflow answer new → Steps scopes old (show workflow) answer new }
{}
