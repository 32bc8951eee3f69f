//! What follows from how scopes are told apart and notices are made.
ghost use Rattle.std.specs.Prelude.{◌≡◌, ℕ, true, List, Decides};
ghost use Rattle.std.specs.List.{Contains};
ghost use Rattle.mt_names.specs.Same.{DecidesEquality};
ghost use Rattle.mt_watch.specs.Asking.{IsScopeAt};
ghost use Rattle.mt_watch.specs.Scopes.{has_scope, same_scope};

use mt_model::Scope;

/// `==` of two scopes is true exactly where they are equal, and watchers have a scope exactly where one of them has it.
pub fn scopes_are_told_apart()
    ensures equality { DecidesEquality same_scope }
    ensures has { (scopes : List Scope) (scope : Scope) → Decides (has_scope scopes scope) ((i : ℕ) × IsScopeAt scopes scope i) }
{}
