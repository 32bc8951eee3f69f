//! Laws on entries that are written over a list of keys.
ghost use Rattle.std.specs.Prelude.{◌≡◌, ℕ, true, All, List, Some, map, if◌then◌else◌};
ghost use Rattle.mt_laws.specs.WayBack.{IsReached};
ghost use Rattle.mt_model.specs.declared.entries.Entry.{Entry};
ghost use Rattle.mt_model.specs.declared.entries.EntryKey.{EntryKey};
ghost use Rattle.mt_model.specs.Part.{with_entries};
ghost use Rattle.mt_model.specs.Topology.{TopologyState, has_place, key_of, value_of};
ghost use Rattle.mt_plain.specs.Plain.{Live, Plain, has_part, live_at};
ghost use Rattle.mt_stands.specs.Keys.{end_keys, keys_of_part, lists};
ghost use Rattle.mt_stands.specs.Topologies.{TopologyStands};

use mt_laws::{
    a_live_workflow_is_found_by_its_part, live_workflows_stand_in_place,
    only_what_stands_has_a_place,
};

/// Entries that are written over a list of keys that have places, one at each key, give these keys their values, and
/// change no other entry; whatever is written, no place comes or goes. The keys of a part are those that lie in it.
pub fn entries_are_written_each_at_its_key()
    ensures values { (t : TopologyState) (f : EntryKey → Entry) (keys : List EntryKey) → ((key : EntryKey) → key_of (f key) ≡ key)
        → All (λ key. has_place t key ≡ true) keys → (key : EntryKey)
        → value_of (with_entries t (map f keys)) key ≡ (if lists keys key then f key else value_of t key) }
    ensures places { (t : TopologyState) (entries : List Entry) (key : EntryKey)
        → has_place (with_entries t entries) key ≡ has_place t key }
    ensures part { (w : Live) (key : EntryKey) → lists (keys_of_part w) key ≡ has_part w key }
{}

/// In a topology that stands for a state each key of the part of a live workflow has a place, and so has each key that
/// Complete writes.
pub fn what_is_written_has_a_place()
    ensures part { (p : Plain) (t : TopologyState) (name : List ℕ) (w : Live) → IsReached p → live_at p name ≡ Some w
        → TopologyStands p t → All (λ key. has_place t key ≡ true) (keys_of_part w) }
    ensures end { (p : Plain) (t : TopologyState) (name : List ℕ) (w : Live) → IsReached p → live_at p name ≡ Some w
        → TopologyStands p t → All (λ key. has_place t key ≡ true) (end_keys w) }
{
    a_live_workflow_is_found_by_its_part();
    live_workflows_stand_in_place();
    only_what_stands_has_a_place();
}
