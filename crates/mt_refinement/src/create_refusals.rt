//! Laws on what refuses a Create, and on what it asks.
ghost use Rattle.std.specs.Prelude.{◌≡◌, ℕ, List, None};
ghost use Rattle.mt_model.specs.declared.entries.Scope.{Scope};
ghost use Rattle.mt_plain.specs.Asks.{asked_change};
ghost use Rattle.mt_plain.specs.Events.{create};
ghost use Rattle.mt_plain.specs.Plain.{Plain, each_once};
ghost use Rattle.mt_plain.specs.Refuse.{refusal_of};
ghost use Rattle.mt_topology.specs.Part.{reserve_refusal};
ghost use Rattle.mt_stands.specs.Base.{BaseState};
ghost use Rattle.mt_stands.specs.Stands.{StandsWith};
ghost use Rattle.mt_stands.specs.Workflows.{change_of, create_refusal, new_of};

use mt_laws::{
    a_live_workflow_is_found_by_its_part, live_workflows_stand_in_place,
    names_as_a_set_have_each_name_once, no_limit_is_passed, only_what_stands_has_a_place,
    parts_are_apart,
};
use mt_stands::{
    create_writes_the_part, places_are_as_many_as_the_definitions_count,
    tables_are_as_many_as_the_definitions_count,
};
use mt_watch::scopes_are_told_apart;

/// A base that stands for a state refuses a Create by the very test by which the definitions refuse it, and takes it where they
/// take it: the name, the tables, the sides, a source with several shards, each table, the watcher of the target's primary, the limits.
pub fn a_create_is_refused_as_the_definitions_refuse_it()
    ensures { (p : Plain) (scopes : List Scope) (base : BaseState) → StandsWith p scopes base
        → (workflow source target : List ℕ) (tables : List (List ℕ))
        → create_refusal base scopes workflow source target (each_once tables) ≡ refusal_of p (create workflow source target tables) }
{
    a_live_workflow_is_found_by_its_part();
    live_workflows_stand_in_place();
    names_as_a_set_have_each_name_once();
    no_limit_is_passed();
    only_what_stands_has_a_place();
    parts_are_apart();
    places_are_as_many_as_the_definitions_count();
    tables_are_as_many_as_the_definitions_count();
    scopes_are_told_apart();
}

/// And it asks the watchers of the target's primary with the very change with which the definitions ask them.
pub fn the_watchers_are_asked_with_what_create_makes()
    ensures { (p : Plain) (scopes : List Scope) (base : BaseState) → StandsWith p scopes base
        → (workflow source target : List ℕ) (tables : List (List ℕ))
        → create_refusal base scopes workflow source target (each_once tables) ≡ None
        → change_of (new_of base workflow source target (each_once tables)) ≡ asked_change p (create workflow source target tables) }
{
    a_create_is_refused_as_the_definitions_refuse_it();
    create_writes_the_part();
}

/// What the definitions take of a Create, the topology of a base has room for: no limit of its own refuses it, that on denials
/// neither, with however many live workflows.
pub fn a_create_that_is_taken_finds_room()
    ensures { (p : Plain) (scopes : List Scope) (base : BaseState) → StandsWith p scopes base
        → (workflow source target : List ℕ) (tables : List (List ℕ))
        → refusal_of p (create workflow source target tables) ≡ None → reserve_refusal base.topology source target (each_once tables) ≡ None }
{
    a_create_is_refused_as_the_definitions_refuse_it();
}
