//! What follows from how a topology is written and looked up.
ghost use Rattle.std.specs.Prelude.{◌≡◌, ◌≢◌, ℕ, true, List, Option, None, Some, Ok, is_some};
ghost use Rattle.mt_names.specs.Shards.{Cuts};
ghost use Rattle.mt_model.specs.Topology.{TopologyState, HasDistinctPlaces, empty_topology, key_of, value_of, has_place, with_entry, keyspace_at, rule_at, rule_for, for_type, for_all_types, resolution, with_keyspace_state, with_rule_place, without_rule_place, with_table_place, without_table_place, with_denied_place, without_denied_place, with_keyspace, with_table, with_rule};

use crate::{Entry, EntryKey};
use mt_names::{RuleKey, RuleTarget, TabletType};

/// A write of what stood before gives back the topology, places included.
pub fn written_back()
    ensures { (t : TopologyState) (e : Entry) → has_place t (key_of e) ≡ true
        → with_entry (with_entry t e) (value_of t (key_of e)) ≡ t }
{}

/// A write gives its entry the new value, and changes no other entry.
pub fn one_entry_and_no_other()
    ensures one { (t : TopologyState) (e : Entry) → has_place t (key_of e) ≡ true
        → value_of (with_entry t e) (key_of e) ≡ e }
    ensures no_other { (t : TopologyState) (e : Entry) (k : EntryKey) → key_of e ≢ k
        → value_of (with_entry t e) k ≡ value_of t k }
{}

/// A place says nothing by itself: to make or to drop one changes no entry. What is dropped is the first place of
/// the name, so there must be no second.
pub fn places_change_no_value()
    ensures rule_made { (t : TopologyState) (key : RuleKey) (k : EntryKey)
        → value_of (record t { rules = with_rule_place t.rules key }) k ≡ value_of t k }
    ensures rule_dropped { (t : TopologyState) (key : RuleKey) (k : EntryKey) → HasDistinctPlaces t
        → value_of (record t { rules = without_rule_place t.rules key }) k ≡ value_of t k }
    ensures table_made { (t : TopologyState) (keyspace table : List ℕ) (k : EntryKey)
        → value_of (record t { keyspaces = with_keyspace_state (with_table_place table) t.keyspaces keyspace }) k ≡ value_of t k }
    ensures table_dropped { (t : TopologyState) (keyspace table : List ℕ) (k : EntryKey) → HasDistinctPlaces t
        → value_of (record t { keyspaces = with_keyspace_state (without_table_place table) t.keyspaces keyspace }) k ≡ value_of t k }
    ensures denial_made { (t : TopologyState) (keyspace table : List ℕ) (k : EntryKey)
        → value_of (record t { keyspaces = with_keyspace_state (with_denied_place table) t.keyspaces keyspace }) k ≡ value_of t k }
    ensures denial_dropped { (t : TopologyState) (keyspace table : List ℕ) (k : EntryKey) → HasDistinctPlaces t
        → value_of (record t { keyspaces = with_keyspace_state (without_denied_place table) t.keyspaces keyspace }) k ≡ value_of t k }
{}

/// What an operator makes by hand: a keyspace says nothing yet, a table is there in its keyspace, a rule is that of its
/// key, and nothing else changes.
pub fn what_is_made_by_hand()
    ensures keyspace { (t : TopologyState) (name : List ℕ) (cuts : Cuts) (k : EntryKey)
        → value_of (with_keyspace t name cuts) k ≡ value_of t k }
    ensures table { (t : TopologyState) (keyspace table : List ℕ) → is_some (keyspace_at t.keyspaces keyspace) ≡ true
        → value_of (with_table t keyspace table) (EntryKey.Present keyspace table) ≡ Entry.Present keyspace table true }
    ensures no_other_table { (t : TopologyState) (keyspace table : List ℕ) (k : EntryKey)
        → EntryKey.Present keyspace table ≢ k → value_of (with_table t keyspace table) k ≡ value_of t k }
    ensures rule { (t : TopologyState) (key : RuleKey) (target : Option RuleTarget) → HasDistinctPlaces t
        → value_of (record t { rules = with_rule t.rules key target }) (EntryKey.Rule key) ≡ Entry.Rule key target }
    ensures no_other_rule { (t : TopologyState) (key : RuleKey) (target : Option RuleTarget) (k : EntryKey)
        → EntryKey.Rule key ≢ k → value_of (record t { rules = with_rule t.rules key target }) k ≡ value_of t k }
{}

/// Where a rule applies to a name, the name leads to the rule's target, which isn't looked up again. The rule for the
/// type comes before the one for all types, and the key's own type is not looked at.
pub fn rules_are_applied_once()
    ensures once { (t : TopologyState) (key : RuleKey) (type : TabletType) (target : RuleTarget)
        → rule_for t.rules key type ≡ Some target → resolution t key type ≡ Ok target }
    ensures typed_first { (t : TopologyState) (key : RuleKey) (type : TabletType) (target : RuleTarget)
        → rule_at t.rules (for_type key type) ≡ Some target → resolution t key type ≡ Ok target }
    ensures plain_else { (t : TopologyState) (key : RuleKey) (type : TabletType) (target : RuleTarget)
        → rule_at t.rules (for_type key type) ≡ None → rule_at t.rules (for_all_types key) ≡ Some target
        → resolution t key type ≡ Ok target }
    ensures own_type { (t : TopologyState) (key : RuleKey) (own : Option TabletType) (type : TabletType)
        → resolution t (record key { tablet_type = own }) type ≡ resolution t key type }
{}

/// Places stay distinct, whatever is written, made or dropped.
pub fn places_stay_distinct()
    ensures empty { HasDistinctPlaces empty_topology }
    ensures write { (t : TopologyState) (e : Entry) → HasDistinctPlaces t → HasDistinctPlaces (with_entry t e) }
    ensures keyspace { (t : TopologyState) (name : List ℕ) (cuts : Cuts) → keyspace_at t.keyspaces name ≡ None
        → HasDistinctPlaces t → HasDistinctPlaces (with_keyspace t name cuts) }
    ensures table { (t : TopologyState) (keyspace table : List ℕ) → HasDistinctPlaces t
        → HasDistinctPlaces (with_table t keyspace table) }
    ensures rule { (t : TopologyState) (key : RuleKey) (target : Option RuleTarget) → HasDistinctPlaces t
        → HasDistinctPlaces (record t { rules = with_rule t.rules key target }) }
    ensures rule_made { (t : TopologyState) (key : RuleKey) → HasDistinctPlaces t
        → HasDistinctPlaces (record t { rules = with_rule_place t.rules key }) }
    ensures rule_dropped { (t : TopologyState) (key : RuleKey) → HasDistinctPlaces t
        → HasDistinctPlaces (record t { rules = without_rule_place t.rules key }) }
    ensures table_made { (t : TopologyState) (keyspace table : List ℕ) → HasDistinctPlaces t
        → HasDistinctPlaces (record t { keyspaces = with_keyspace_state (with_table_place table) t.keyspaces keyspace }) }
    ensures table_dropped { (t : TopologyState) (keyspace table : List ℕ) → HasDistinctPlaces t
        → HasDistinctPlaces (record t { keyspaces = with_keyspace_state (without_table_place table) t.keyspaces keyspace }) }
    ensures denial_made { (t : TopologyState) (keyspace table : List ℕ) → HasDistinctPlaces t
        → HasDistinctPlaces (record t { keyspaces = with_keyspace_state (with_denied_place table) t.keyspaces keyspace }) }
    ensures denial_dropped { (t : TopologyState) (keyspace table : List ℕ) → HasDistinctPlaces t
        → HasDistinctPlaces (record t { keyspaces = with_keyspace_state (without_denied_place table) t.keyspaces keyspace }) }
{}
