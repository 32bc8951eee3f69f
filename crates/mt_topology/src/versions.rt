//! The two versions of a dump.
ghost use Rattle.std.specs.Prelude.{◌≡◌};
ghost use Rattle.mt_model.specs.Documents.{dump_text};
ghost use Rattle.mt_model.specs.Topology.{HasDistinctPlaces, TopologyState};
ghost use Rattle.mt_topology.specs.Dump.{topology_of_text, whole_topology};
ghost use Rattle.mt_topology.specs.Values.{IsNamedTopology, dump_value};
ghost use Rattle.mt_topology.specs.Versions.{IsUnsharded, dump_text_one, dump_value_one};

/// Where each keyspace has one shard, what version 1 told of a topology is read as the same topology as what the dump tells of it now.
pub fn versions_are_read_alike()
    ensures values { (t : TopologyState) → IsUnsharded t → whole_topology (dump_value_one t) ≡ whole_topology (dump_value t) }
    ensures texts { (t : TopologyState) → IsUnsharded t → HasDistinctPlaces t → IsNamedTopology t
        → topology_of_text (dump_text_one t) ≡ topology_of_text (dump_text t) }
{}
