//! As many routes as a topology may have, and as many others in their stead.
ghost use Rattle.std.specs.Prelude.{◌≡◌};

use crate::acts::fails;
use crate::said::{Said, add_table};
use crate::scene::Scene;
use mt_model::{MAX_KEYSPACES, MAX_RULES, TopologyFault};
use mt_names::{KeyspaceName, RuleKey, RuleTarget, TableName, TabletType};
use mt_routes::{Front, Naming, Opened, Router};
use mt_topology::Topology;
use std::alloc::Global;
use std::marker::Brand;
use std::sync::Wait;
use std::test::Fail;

/// Names that are a word with a number each, from 0 on: first those that have rules, then the tables.
#[derive(Clone, Copy)]
pub struct Many<'a> {
    /// The word.
    pub word: &'a str,
    /// How many have rules.
    pub rules: usize,
    /// How many there are.
    pub names: usize,
}

/// The keyspace that rules lead to, or that of a table: tables in a row are spread over as many keyspaces as there may be.
fn keyspace(alloc: Global, number: usize, is_rule: bool) -> Option<KeyspaceName> {
    if is_rule {
        return KeyspaceName::parse("ruled").ok();
    }
    let text = format!(in alloc; "k{}", number % MAX_KEYSPACES).ok()?;
    KeyspaceName::parse(text.as_str()).ok()
}

/// The table of a word and a number.
fn table(alloc: Global, word: &str, number: usize) -> Option<TableName> {
    let text = format!(in alloc; "{word}{number}").ok()?;
    TableName::parse(text.as_str()).ok()
}

/// The name of a number without a keyspace.
fn key(alloc: Global, many: Many<'_>, number: usize) -> Option<RuleKey> {
    Some(RuleKey {
        keyspace: None,
        table: table(alloc, many.word, number)?,
        tablet_type: None,
    })
}

/// Where it leads.
fn target(alloc: Global, many: Many<'_>, number: usize) -> Option<RuleTarget> {
    Some(RuleTarget {
        keyspace: keyspace(alloc, number, number < many.rules)?,
        table: table(alloc, many.word, number)?,
    })
}

/// Adds the rule of a number, or its table.
fn add(alloc: Global, topology: &mut Topology, many: Many<'_>, number: usize) -> Option<()> {
    let key = key(alloc, many, number)?;
    let target = target(alloc, many, number)?;
    if number < many.rules {
        topology.edit_rule(&key, Some(target)).ok()
    } else {
        add_table(topology, &target.keyspace, &target.table)
    }
}

/// A topology with these names and no others.
pub fn many_routes(alloc: Global, many: Many<'_>) -> Option<Topology> {
    let mut topology = Topology::new(alloc);
    for number in 0..many.names {
        add(alloc, &mut topology, many, number)?;
    }
    Some(topology)
}

/// The names that have rules.
pub fn many_keys(alloc: Global, many: Many<'_>) -> Option<Vec<RuleKey>> {
    let mut keys = Vec::new(alloc);
    for number in 0..many.rules {
        keys.push(key(alloc, many, number)?).ok()?;
    }
    Some(keys)
}

/// Whether the name of a number leads where it should.
fn is_led<J: Naming>(
    alloc: Global,
    router: &mut Router<J>,
    many: Many<'_>,
    number: usize,
    front: u64,
) -> bool {
    match (key(alloc, many, number), target(alloc, many, number)) {
        (Some(key), Some(target)) => {
            router.route(&key, TabletType::Primary) == Ok((target, Front(front)))
        }
        _ => false,
    }
}

/// Whether each name leads where it should.
fn are_led<J: Naming>(alloc: Global, router: &mut Router<J>, many: Many<'_>, front: u64) -> bool {
    for number in 0..many.names {
        if !is_led(alloc, router, many, number, front) {
            return false;
        }
    }
    true
}

/// Whether each of these names is that of no table any more.
fn are_gone<J: Naming>(router: &mut Router<J>, names: &[&str], front: u64) -> bool {
    for name in names {
        if !fails(
            router,
            *name,
            TabletType::Primary,
            TopologyFault::NoTable,
            front,
        ) {
            return false;
        }
    }
    true
}

/// How many tables there may be, in all keyspaces together.
const MAX_TABLES: usize = 8192;

/// As many names as there may be.
const ALL: usize = MAX_RULES + MAX_TABLES;

/// The word of the names of a publication, how many have rules, how many there are, and some that are gone.
static SIZES: [(&str, usize, usize, &[&str]); 3] = [
    ("a", MAX_RULES, ALL, &["x"]),
    ("b", MAX_RULES, ALL, &["a0", "a4095", "a4096", "a12287"]),
    ("c", 1000, 3000, &["a0", "b0", "b4095", "b4096", "b12287"]),
];

/// Whether these names are published, and lead where they should.
fn are_published<J: Naming, R: Wait>(
    rt: &R,
    alloc: Global,
    scene: &mut Scene<J>,
    router: &mut Router<J>,
    many: Many<'_>,
    front: u64,
) -> bool {
    match many_routes(alloc, many) {
        Some(topology) => {
            scene.publishes(rt, alloc, front, &topology) && are_led(alloc, router, many, front)
        }
        None => false,
    }
}

/// How many publications go so one after the other, up to the first that doesn't.
fn played<J: Naming, R: Wait>(
    rt: &R,
    alloc: Global,
    scene: &mut Scene<J>,
    router: &mut Router<J>,
) -> usize {
    for (index, (word, rules, names, gone)) in SIZES.iter().enumerate() {
        let many = Many {
            word: *word,
            rules: *rules,
            names: *names,
        };
        let front = index as u64;
        if !are_published(rt, alloc, scene, router, many, front)
            || !are_gone(router, *gone, front)
        {
            return index;
        }
    }
    SIZES.len()
}

/// How many go so to a new router.
fn plays_at<J: Naming, R: Wait>(rt: &R, alloc: Global, scene: &mut Scene<J>) -> Option<usize> {
    match scene.router() {
        Ok(mut router) => Some(played(rt, alloc, scene, &mut router)),
        Err(_) => None,
    }
}

/// How many go so at a new list.
fn plays<J: Naming, R: Wait>(rt: &R, alloc: Global, opened: Opened) -> Option<usize>
    requires { (opened.seen.book ≡ J.book) × (opened.blank.name ≡ J.shown) }
{
    let made: Option<Scene<J>> = Scene::of(alloc, opened, 0, &[Said::Rule("x", "a.t")]);
    match made {
        Some(mut scene) => plays_at(rt, alloc, &mut scene),
        None => None,
    }
}

#[test]
fn many_names_are_led(rt: HostRuntime) -> Result<(), Fail> {
    let played = plays::<Brand, _>(&rt, rt.alloc(), Opened::new());
    assert_eq!(rt; played, Some(SIZES.len()));
    Ok(())
}
