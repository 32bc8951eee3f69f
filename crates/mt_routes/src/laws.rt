//! What follows from how publications are listed and names looked up.
ghost use Rattle.std.specs.Prelude.{◌≡◌, ◌≤◌, ◌⊎◌, ℕ, List, Err, fold};
ghost use mathlib.Core.List.{IsPrefix};
ghost use Rattle.mt_names.specs.declared.keys.RuleKey.{RuleKey};
ghost use Rattle.mt_names.specs.declared.types.TabletType.{TabletType};
ghost use Rattle.mt_model.specs.declared.entries.Entry.{Entry};
ghost use Rattle.mt_model.specs.declared.faults.TopologyFault.{TopologyFault};
ghost use Rattle.mt_model.specs.declared.faults.TopologyFault.TheVariants.{NoTable, Ambiguous};
ghost use Rattle.mt_model.specs.Topology.{HasDistinctPlaces, TopologyState, is_present, resolution, routes_of, rule_at};
ghost use Rattle.mt_routes.specs.declared.publication.Publication.{Publication};
ghost use Rattle.mt_routes.specs.LookUp.{is_listed, led_by, target_in};
ghost use Rattle.mt_routes.specs.Differences.{AreDifferences};
ghost use Rattle.mt_routes.specs.Places.{Agrees, AreRoutes, PlacesState, with_entry};
ghost use Rattle.mt_routes.specs.Publications.{Rises, last_front};

/// Where the fronts of a list never fall, a longer list's last front is no less than that of its beginning.
pub fn fronts_never_fall()
    ensures { (shorter list : List Publication) → IsPrefix shorter list → Rises list → last_front shorter ≤ last_front list }
{}

/// A look-up by routes is refused as `T2 NoTable` or `T3 Ambiguous`, and in no other way.
pub fn look_ups_are_refused_in_two_ways()
    ensures { (entries : List Entry) (key : RuleKey) (type : TabletType) (fault : TopologyFault)
        → led_by entries key type ≡ Err fault → (fault ≡ NoTable) ⊎ (fault ≡ Ambiguous) }
{}

/// The routes of a topology lead each name where the topology leads it.
pub fn routes_lead_as_their_topology()
    ensures { (t : TopologyState) (key : RuleKey) (type : TabletType) → HasDistinctPlaces t
        → led_by (routes_of t) key type ≡ resolution t key type }
{}

/// The routes of a topology say each of themselves, and no table twice in one keyspace.
pub fn routes_of_a_topology_say_each_of_themselves()
    ensures { (t : TopologyState) → HasDistinctPlaces t → AreRoutes (routes_of t) }
{}

/// The routes of a topology say of each key and of each table what the topology says.
pub fn routes_say_what_their_topology_says()
    ensures rules { (t : TopologyState) (key : RuleKey) → HasDistinctPlaces t → target_in (routes_of t) key ≡ rule_at t.rules key }
    ensures tables { (t : TopologyState) (keyspace table : List ℕ) → HasDistinctPlaces t → is_listed (routes_of t) keyspace table ≡ is_present t.keyspaces keyspace table }
{}

/// Where all that routes say otherwise than those before them is written, what is said is what the routes say.
pub fn what_is_written_agrees()
    ensures { (places : PlacesState) (before routes written : List Entry) → Agrees places before → AreDifferences before routes written
        → Agrees (fold with_entry places written) routes }
{}
