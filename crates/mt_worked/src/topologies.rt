//! Lists and entries that say the same, and the topologies that a state serves.
ghost use Rattle.std.specs.Prelude.{◌≡◌, Some, false, true};
ghost use Rattle.mt_model.specs.Topology.{value_of};
ghost use Rattle.mt_plain.specs.Plain.{in_keyspace};
ghost use Rattle.mt_plain.specs.Serve.{IsServed, served, served_entry};
ghost use Rattle.mt_worked.specs.Scripts.{a_table};
ghost use Rattle.mt_worked.specs.States.{commerce, corder, customer, live, plain, stepped};
ghost use Rattle.mt_worked.specs.Topologies.{turned, two_keyspaces, with_a_rule, with_blank_place, with_denial};
ghost use Rattle.mt_worked.specs.Topologies.{with_one_keyspace, with_place_twice, with_shards, with_three_keyspaces};
ghost use Rattle.mt_worked.specs.Topologies.{without_rule};
ghost use Rattle.mt_model.specs.declared.entries.Entry.TheVariants as entry;
ghost use Rattle.mt_model.specs.declared.entries.EntryKey.TheVariants as about;

/// The topology that is served as lists says at a key what is served there.
pub fn lists_say_what_is_served()
    ensures a_denial { value_of (served live) (about.Denied customer corder)
        ≡ served_entry live (about.Denied customer corder) }
    ensures a_table { value_of (served live) (about.Present customer corder) ≡ entry.Present customer corder true }
    ensures a_rule { value_of (served stepped) (about.Rule (plain corder))
        ≡ entry.Rule (plain corder) (Some (in_keyspace commerce corder)) }
    ensures the_source_before_its_step { value_of (served live) (about.Denied commerce corder)
        ≡ entry.Denied commerce corder false }
{}

/// A topology is served if it says what is served, with no place twice, in whatever order.
pub fn topologies_are_served_by_what_they_say()
    ensures what_was_made_by_hand_is_served { IsServed with_a_rule with_a_rule.topology }
    ensures a_place_that_holds_nothing_may_stand { IsServed with_a_rule with_blank_place }
    ensures keyspaces_may_stand_in_another_order { IsServed two_keyspaces turned }
    ensures no_rule_may_be_lost { ¬ (IsServed with_a_rule without_rule) }
    ensures no_place_may_stand_twice { ¬ (IsServed with_a_rule with_place_twice) }
    ensures no_denial_may_be_invented { ¬ (IsServed with_a_rule with_denial) }
    ensures no_shard_may_be_invented { ¬ (IsServed with_a_rule with_shards) }
    ensures no_keyspace_may_be_lost { ¬ (IsServed two_keyspaces with_one_keyspace) }
    ensures no_keyspace_may_be_invented { ¬ (IsServed two_keyspaces with_three_keyspaces) }
{}
