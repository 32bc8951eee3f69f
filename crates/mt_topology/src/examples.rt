//! Dumps, as the definitions read them.
ghost use Rattle.std.specs.Prelude.{◌≡◌, [], ◌∷◌, true, codes, Ok, Err};
ghost use Rattle.mt_model.specs.Topology.{TopologyState, new_keyspace};
ghost use Rattle.mt_topology.specs.Dump.{topology_of_text};

use mt_model::TopologyFault;

/// Dumps of a keyspace are read: in version 2 with its shards, which are one where the text names none, and in version 1 with one whatever it
/// says of them. None of another version is read, nor one whose shards don't cover all keys, nor one of a denied table that isn't there.
pub fn dumps_are_read()
    ensures read { topology_of_text (codes "{\"keyspaces\":[{\"name\":\"b\",\"tables\":[\"t\"]}],\"denied\":[\"b.t\"],\"version\":1}")
        ≡ Ok (record { rules = []; keyspaces = (codes "b", record { cuts = []; tables = (codes "t", true) ∷ []; denied = (codes "t", true) ∷ [] }) ∷ [] }) }
    ensures sharded { topology_of_text (codes "{\"keyspaces\":[{\"name\":\"b\",\"shards\":[\"-80\",\"80-\"]},{\"name\":\"a\"}],\"version\":2}")
        ≡ Ok (record { rules = []; keyspaces = (codes "b", new_keyspace (codes "80" ∷ [])) ∷ (codes "a", new_keyspace []) ∷ [] }) }
    ensures ignored { topology_of_text (codes "{\"keyspaces\":[{\"name\":\"b\",\"shards\":[\"-80\",\"80-\"]}],\"version\":1}")
        ≡ Ok (record { rules = []; keyspaces = (codes "b", new_keyspace []) ∷ [] }) }
    ensures version { topology_of_text (codes "{\"version\":3}") ≡ Err TopologyFault.BadDump }
    ensures covering { topology_of_text (codes "{\"keyspaces\":[{\"name\":\"b\",\"shards\":[\"-80\",\"90-\"]}],\"version\":2}") ≡ Err TopologyFault.BadDump }
    ensures none { topology_of_text (codes "{\"keyspaces\":[{\"name\":\"b\",\"shards\":[]}],\"version\":2}") ≡ Err TopologyFault.BadDump }
    ensures denied { topology_of_text (codes "{\"keyspaces\":[{\"name\":\"b\"}],\"denied\":[\"b.t\"],\"version\":1}") ≡ Err TopologyFault.BadDump }
{}
