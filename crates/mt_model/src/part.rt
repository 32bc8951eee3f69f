//! The part of a topology that a workflow moves.
ghost use Rattle.std.specs.Prelude.{◌≡◌, ◌≢◌, ◌↔◌, ℕ, true, Bool, List, All, AllPairs, Contains, reverse, is_some, option_copied};
ghost use Rattle.mt_model.specs.Part.{IsSameTopology, befores, part_keys, table_rule_keys, with_entries, with_places, without_places};
ghost use Rattle.mt_model.specs.Topology.{HasDistinctPlaces, TopologyState, has_place, is_routed, key_of, keyspace_at, resolution, routes_of, value_of, with_entry};

use crate::{Entry, EntryKey};
use mt_names::{KeyspaceName, RuleKey, TableName, TabletType};

/// A name as a rule key, for one tablet type or for all. It takes no memory.
pub fn key_of_name(
    keyspace: Option<&KeyspaceName>,
    table: &TableName,
    tablet_type: Option<TabletType>,
) -> RuleKey
    ensures { result ≡ record { keyspace = option_copied keyspace.entry; table = table.now; tablet_type = tablet_type } }
{
    RuleKey {
        keyspace: keyspace.map(KeyspaceName::copied),
        table: table.copied(),
        tablet_type,
    }
}

/// The twelve rule keys of a table that moves from a keyspace to another, as Vitess's MoveTables names them: the table
/// alone, in the source and in the target, each for all tablet types, for primary, for replica and for rdonly. It takes
/// no memory.
pub fn table_rule_keys(
    source: &KeyspaceName,
    target: &KeyspaceName,
    table: &TableName,
) -> [RuleKey; 12]
    ensures { result ≡ table_rule_keys source.now target.now table.now }
{
    [
        key_of_name(None, table, None),
        key_of_name(None, table, Some(TabletType::Primary)),
        key_of_name(None, table, Some(TabletType::Replica)),
        key_of_name(None, table, Some(TabletType::Rdonly)),
        key_of_name(Some(source), table, None),
        key_of_name(Some(source), table, Some(TabletType::Primary)),
        key_of_name(Some(source), table, Some(TabletType::Replica)),
        key_of_name(Some(source), table, Some(TabletType::Rdonly)),
        key_of_name(Some(target), table, None),
        key_of_name(Some(target), table, Some(TabletType::Primary)),
        key_of_name(Some(target), table, Some(TabletType::Replica)),
        key_of_name(Some(target), table, Some(TabletType::Rdonly)),
    ]
}

/// No key stands twice in a part, where no table is named twice and the sides are two.
pub fn part_keys_are_distinct()
    ensures { (source target : List ℕ) (tables : List (List ℕ)) → source ≢ target → AllPairs (λ a b. a ≢ b) tables
        → AllPairs (λ a b. a ≢ b) (part_keys source target tables) }
{}

/// Writes that are taken back, the last of them first, give back the topology, places included.
pub fn taken_back_in_reverse()
    ensures { (t : TopologyState) (entries : List Entry) → All (λ e. has_place t (key_of e) ≡ true) entries
        → with_entries (with_entries t entries) (reverse (befores t entries)) ≡ t }
{}

/// Where both sides are there, each key of a part that is reserved has a place.
pub fn part_has_places()
    ensures { (t : TopologyState) (source target : List ℕ) (tables : List (List ℕ))
        → is_some (keyspace_at t.keyspaces source) ≡ true → is_some (keyspace_at t.keyspaces target) ≡ true
        → All (λ key. has_place (with_places t (part_keys source target tables)) key ≡ true) (part_keys source target tables) }
{}

/// To reserve keys or to release them changes no value and no look-up.
pub fn places_say_nothing()
    ensures reserved { (t : TopologyState) (keys : List EntryKey) → IsSameTopology (with_places t keys) t }
    ensures released { (t : TopologyState) (keys : List EntryKey) → HasDistinctPlaces t → IsSameTopology (without_places t keys) t }
    ensures reserved_look_up { (t : TopologyState) (keys : List EntryKey) (name : RuleKey) (type : TabletType)
        → resolution (with_places t keys) name type ≡ resolution t name type }
    ensures released_look_up { (t : TopologyState) (keys : List EntryKey) (name : RuleKey) (type : TabletType) → HasDistinctPlaces t
        → resolution (without_places t keys) name type ≡ resolution t name type }
{}

/// A denial leads nowhere: to write one changes no look-up.
pub fn denials_change_no_look_up()
    ensures { (t : TopologyState) (keyspace table : List ℕ) (mark : Bool) (name : RuleKey) (type : TabletType)
        → resolution (with_entry t (Entry.Denied keyspace table mark)) name type ≡ resolution t name type }
{}

/// The routes of a topology are its entries that say a rule or a table that is there, each with the value that the
/// topology gives it; no key stands twice among them.
pub fn routes_are_what_stands()
    ensures each { (t : TopologyState) (e : Entry) → HasDistinctPlaces t
        → Contains (routes_of t) e ↔ ((is_routed e ≡ true) × (value_of t (key_of e) ≡ e)) }
    ensures once { (t : TopologyState) → HasDistinctPlaces t → AllPairs (λ a b. key_of a ≢ key_of b) (routes_of t) }
{}
