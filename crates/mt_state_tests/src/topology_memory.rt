//! Where an allocation fails, the answer is `Memory` or the one that there is without, and a refusal changes nothing.

use mt_model::{EntryKey, table_rule_keys};
use mt_names::{KeyspaceName, NameFault, RuleKey, RuleTarget, ShardList, TableName};
use mt_topology::{Topology, TopologyFault};
use std::alloc::Global;

/// The dump of the keyspaces `a` and `b` with a table and a rule.
const DUMP: &str =
    "{\"denied\":[],\"keyspaces\":[{\"name\":\"a\",\"shards\":[\"-\"],\"tables\":[]},{\"name\":\"b\",\"shards\":[\"-\"],\"tables\":[\"t\"]}],\"rules\":[{\"from_table\":\"x\",\"to_tables\":[\"b.t\"]}],\"version\":2}";

/// Whether the dump is this, at once or at a second try.
fn dumps(alloc: Global, topology: &Topology, want: &str) -> bool {
    let text = match topology.dump(alloc) {
        Err(TopologyFault::Memory) => topology.dump(alloc),
        answer => answer,
    };
    text.is_ok_and(|text| text.as_str() == want)
}

/// Whether a keyspace is added, at once or at a second try.
fn add_keyspace(topology: &mut Topology, name: &str) -> Result<bool, NameFault> {
    let name = KeyspaceName::parse(name)?;
    Ok(match topology.add_keyspace(&name, ShardList::unsharded()) {
        Err(TopologyFault::Memory) => topology.add_keyspace(&name, ShardList::unsharded()).is_ok(),
        answer => answer.is_ok(),
    })
}

/// Whether a table is added, at once or at a second try.
fn add_table(topology: &mut Topology, keyspace: &str, table: &str) -> Result<bool, NameFault> {
    let (keyspace, table) = (KeyspaceName::parse(keyspace)?, TableName::parse(table)?);
    Ok(match topology.add_table(&keyspace, &table) {
        Err(TopologyFault::Memory) => topology.add_table(&keyspace, &table).is_ok(),
        answer => answer.is_ok(),
    })
}

/// Whether a rule is set, at once or at a second try.
fn set_rule(topology: &mut Topology, key: &str, target: &str) -> Result<bool, NameFault> {
    let (key, target) = (RuleKey::parse(key)?, RuleTarget::parse(target)?);
    Ok(match topology.edit_rule(&key, Some(target.copied())) {
        Err(TopologyFault::Memory) => topology.edit_rule(&key, Some(target)).is_ok(),
        answer => answer.is_ok(),
    })
}

/// Whether the topology of the dump is made of none.
fn is_made(topology: &mut Topology) -> Result<bool, NameFault> {
    Ok(
        add_keyspace(topology, "a")?
            && add_keyspace(topology, "b")?
            && add_table(topology, "b", "t")?
            && set_rule(topology, "x", "b.t")?,
    )
}

/// How many rules of the part that moves `t` from `b` to `a` have a place.
fn rule_places(topology: &Topology, part: &Part) -> usize {
    table_rule_keys(&part.source, &part.target, &part.tables[0])
        .iter()
        .filter(|key| topology.rules().has_place(key))
        .count()
}

/// How many other entries of that part have a place.
fn other_places(topology: &Topology, part: &Part) -> usize {
    let table = &part.tables[0];
    let others = [
        EntryKey::Denied(part.source.copied(), table.copied()),
        EntryKey::Denied(part.target.copied(), table.copied()),
        EntryKey::Present(part.target.copied(), table.copied()),
    ];
    others.iter().filter(|key| topology.has_place(key)).count()
}

/// How many rules of that part have a place, and how many other entries.
fn places(topology: &Topology, part: &Part) -> (usize, usize) {
    (rule_places(topology, part), other_places(topology, part))
}

/// The part of a workflow that moves one table.
#[derive(Drop)]
struct Part {
    source: KeyspaceName,
    target: KeyspaceName,
    tables: [TableName; 1],
}

/// The part that moves `t` from `b` to `a`.
fn moved_table() -> Result<Part, NameFault> {
    Ok(Part {
        source: KeyspaceName::parse("b")?,
        target: KeyspaceName::parse("a")?,
        tables: [TableName::parse("t")?],
    })
}

/// Whether the part is reserved, at once or at a second try after a refusal that changed nothing.
fn is_reserved(topology: &mut Topology, part: &Part) -> bool {
    match topology.reserve_part(&part.source, &part.target, &part.tables) {
        Err(TopologyFault::Memory) => {
            places(topology, part) == (0, 0)
                && topology.rules().places() == 1
                && topology
                    .reserve_part(&part.source, &part.target, &part.tables)
                    .is_ok()
        }
        answer => answer.is_ok(),
    }
}

/// Whether a dump is read, at once or at a second try, as a topology that has it.
fn is_loaded(alloc: Global, text: &str) -> bool {
    let loaded = match Topology::load(alloc, text.as_bytes()) {
        Err(TopologyFault::Memory) => Topology::load(alloc, text.as_bytes()),
        answer => answer,
    };
    loaded.is_ok_and(|topology| dumps(alloc, &topology, text))
}

/// Whether a topology is made, and a part reserved in it and given back.
fn is_kept(alloc: Global, topology: &mut Topology) -> bool {
    let Ok(part) = moved_table() else {
        return false;
    };
    let is_held = is_made(topology) == Ok(true)
        && dumps(alloc, topology, DUMP)
        && is_reserved(topology, &part)
        && places(topology, &part) == (12, 3)
        && dumps(alloc, topology, DUMP);
    topology.release_part(&part.source, &part.target, &part.tables);
    is_held && dumps(alloc, topology, DUMP)
}

#[test]
fn want_of_memory_is_no_other_answer(rt: HostRuntime) {
    let mut topology = Topology::new(rt.alloc());
    assert!(rt; is_kept(rt.alloc(), &mut topology) && is_loaded(rt.alloc(), DUMP));
}
