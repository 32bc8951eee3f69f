//! Laws on the base that a Create leaves, and on places that it made in vain.
ghost use Rattle.std.specs.Prelude.{◌≡◌, ℕ, true, false, List, None};
ghost use Rattle.mt_laws.specs.Texts.{BringsNames};
ghost use Rattle.mt_model.specs.Part.{part_keys, with_places, without_places};
ghost use Rattle.mt_plain.specs.Events.{Answer, create};
ghost use Rattle.mt_plain.specs.Plain.{among, each_once};
ghost use Rattle.mt_primary.specs.Primary.{has_table};
ghost use Rattle.mt_primary.specs.Primaries.{primary_of};
ghost use Rattle.mt_stands.specs.Base.{BaseState};
ghost use Rattle.mt_stands.specs.Stands.{IsBase};
ghost use Rattle.mt_stands.specs.Workflows.{Creates, create_refusal};

use crate::a_base_stays_one;
use crate::create_refusals::a_create_is_refused_as_the_definitions_refuse_it;
use crate::creating::what_a_create_makes_stands_for_the_next_state;
use mt_stands::a_create_taken_back_leaves_the_topology;
use mt_watch::Asks;

/// A Create of names leaves a base, whatever it answers.
pub fn a_create_leaves_a_base<W: Asks>(watchers: &W)
    ensures { (old new : BaseState) (workflow source target : List ℕ) (tables : List (List ℕ)) (answer : Answer)
        → BringsNames (create workflow source target tables)
        → Creates old (W.scopes watchers.now) (W.may_answer watchers.now) workflow source target tables answer new
        → IsBase old → IsBase new }
{
    a_create_is_refused_as_the_definitions_refuse_it();
    what_a_create_makes_stands_for_the_next_state();
    a_base_stays_one();
}

/// Where no test refuses a Create, the places that it makes in the topology can be dropped again, and the topology is as it was;
/// and the target's primaries have none of the tables, so that those can be dropped there too.
pub fn a_create_can_be_taken_back<W: Asks>(watchers: &W)
    ensures { (base : BaseState) (workflow source target : List ℕ) (tables : List (List ℕ)) → IsBase base
        → create_refusal base (W.scopes watchers.now) workflow source target (each_once tables) ≡ None
        → (without_places (with_places base.topology (part_keys source target (each_once tables))) (part_keys source target (each_once tables)) ≡ base.topology)
        × ((shard : ℕ) (table : List ℕ) → among (each_once tables) table ≡ true → has_table (primary_of base.primaries target shard) table ≡ false) }
{
    a_create_is_refused_as_the_definitions_refuse_it();
    a_base_stays_one();
    a_create_taken_back_leaves_the_topology();
}
