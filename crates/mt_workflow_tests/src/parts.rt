//! The part of a workflow: its keys, what they are to say, and with which step they change.

use crate::made::workflow_of;
use mt_names::{KeyspaceName, NameFault, RuleKey, RuleTarget, TableName, TypeSet};
use mt_topology::{Entry, EntryKey};
use mt_workflow::Workflow;
use std::test::Fail;

/// An entry's key in texts.
#[derive(Clone, Copy)]
enum Key {
    /// A rule key.
    Rule(&'static str),
    /// A denial at a keyspace.
    Denied(&'static str, &'static str),
    /// A table of a keyspace.
    Present(&'static str, &'static str),
}

/// The keys of a part that moves `y` and `t` from `a` to `b`, in their order.
static PART: [Key; 30] = [
    Key::Rule("y"),
    Key::Rule("y@primary"),
    Key::Rule("y@replica"),
    Key::Rule("y@rdonly"),
    Key::Rule("a.y"),
    Key::Rule("a.y@primary"),
    Key::Rule("a.y@replica"),
    Key::Rule("a.y@rdonly"),
    Key::Rule("b.y"),
    Key::Rule("b.y@primary"),
    Key::Rule("b.y@replica"),
    Key::Rule("b.y@rdonly"),
    Key::Denied("a", "y"),
    Key::Denied("b", "y"),
    Key::Present("b", "y"),
    Key::Rule("t"),
    Key::Rule("t@primary"),
    Key::Rule("t@replica"),
    Key::Rule("t@rdonly"),
    Key::Rule("a.t"),
    Key::Rule("a.t@primary"),
    Key::Rule("a.t@replica"),
    Key::Rule("a.t@rdonly"),
    Key::Rule("b.t"),
    Key::Rule("b.t@primary"),
    Key::Rule("b.t@replica"),
    Key::Rule("b.t@rdonly"),
    Key::Denied("a", "t"),
    Key::Denied("b", "t"),
    Key::Present("b", "t"),
];

/// The key that these texts name.
fn key_of(key: Key) -> Result<EntryKey, NameFault> {
    Ok(match key {
        Key::Rule(key) => EntryKey::Rule(RuleKey::parse(key)?),
        Key::Denied(keyspace, table) => {
            EntryKey::Denied(KeyspaceName::parse(keyspace)?, TableName::parse(table)?)
        }
        Key::Present(keyspace, table) => {
            EntryKey::Present(KeyspaceName::parse(keyspace)?, TableName::parse(table)?)
        }
    })
}

/// Whether an index of the part is that of this key.
fn is_key(workflow: &Workflow, index: usize, want: Key) -> Result<bool, NameFault> {
    Ok(index < workflow.part_len() && workflow.part_key(index) == key_of(want)?)
}

/// The first index of the part that isn't that of its key.
fn first_other_key(workflow: &Workflow) -> Result<Option<usize>, NameFault> {
    for (index, want) in PART.iter().enumerate() {
        if !is_key(workflow, index, *want)? {
            return Ok(Some(index));
        }
    }
    Ok(None)
}

/// The length of a part, and the first index of it that isn't that of its key.
fn part_of(workflow: &Workflow) -> (usize, Result<Option<usize>, NameFault>) {
    (workflow.part_len(), first_other_key(workflow))
}

#[test]
fn a_part_has_its_keys_in_their_order(rt: HostRuntime) -> Result<(), Fail> {
    let workflow = workflow_of(rt.alloc(), "y,t")?;
    let answer = part_of(&workflow);
    drop(workflow);
    assert_eq!(rt; answer, (30, Ok(None)));
    Ok(())
}

/// A key, and what it is to say before any type is switched, once reads are, and once all types are: a target, `-` for no rule,
/// `yes` or `no`.
static WANTED: [(Key, [&str; 3]); 19] = [
    (Key::Rule("y"), ["a.y", "a.y", "b.y"]),
    (Key::Rule("y@primary"), ["-", "-", "-"]),
    (Key::Rule("y@replica"), ["a.y", "b.y", "b.y"]),
    (Key::Rule("y@rdonly"), ["a.y", "b.y", "b.y"]),
    (Key::Rule("a.y"), ["a.y", "a.y", "b.y"]),
    (Key::Rule("a.y@primary"), ["-", "-", "-"]),
    (Key::Rule("a.y@replica"), ["a.y", "b.y", "b.y"]),
    (Key::Rule("a.y@rdonly"), ["a.y", "b.y", "b.y"]),
    (Key::Rule("b.y"), ["a.y", "a.y", "-"]),
    (Key::Rule("b.y@primary"), ["-", "-", "-"]),
    (Key::Rule("b.y@replica"), ["a.y", "b.y", "b.y"]),
    (Key::Rule("b.y@rdonly"), ["a.y", "b.y", "b.y"]),
    (Key::Denied("a", "y"), ["no", "no", "yes"]),
    (Key::Denied("b", "y"), ["yes", "yes", "no"]),
    (Key::Present("b", "y"), ["yes", "yes", "yes"]),
    (Key::Rule("t"), ["a.t", "a.t", "b.t"]),
    (Key::Rule("a.t"), ["-", "-", "b.t"]),
    (Key::Rule("b.t"), ["a.t", "a.t", "-"]),
    (Key::Denied("a", "t"), ["no", "no", "yes"]),
];

/// A mark of these texts.
fn mark_of(text: &str) -> bool {
    text == "yes"
}

/// The entry of a key that says this.
fn entry_of(key: EntryKey, says: &str) -> Result<Entry, NameFault> {
    Ok(match key {
        EntryKey::Rule(key) if says == "-" => Entry::Rule(key, None),
        EntryKey::Rule(key) => Entry::Rule(key, Some(RuleTarget::parse(says)?)),
        EntryKey::Denied(keyspace, table) => Entry::Denied(keyspace, table, mark_of(says)),
        EntryKey::Present(keyspace, table) => Entry::Present(keyspace, table, mark_of(says)),
    })
}

/// Whether a key is to say this once these types are switched.
fn is_wanted(workflow: &Workflow, key: Key, types: TypeSet, says: &str) -> Result<bool, NameFault> {
    let key = key_of(key)?;
    Ok(workflow.wanted(&key, types) == entry_of(key, says)?)
}

/// The types that read.
const READS: TypeSet = TypeSet {
    primary: false,
    replica: true,
    rdonly: true,
};

/// Whether a key is to say these before any type is switched, once reads are, and once all types are.
fn are_wanted(workflow: &Workflow, key: Key, says: &[&str; 3]) -> Result<bool, NameFault> {
    Ok(
        is_wanted(workflow, key, TypeSet::NONE, says[0])?
            && is_wanted(workflow, key, READS, says[1])?
            && is_wanted(workflow, key, TypeSet::ALL, says[2])?,
    )
}

/// The first row whose key is to say something else.
fn first_unwanted(workflow: &Workflow) -> Result<Option<usize>, NameFault> {
    for (at, (key, says)) in WANTED.iter().enumerate() {
        if !are_wanted(workflow, *key, says)? {
            return Ok(Some(at));
        }
    }
    Ok(None)
}

#[test]
fn a_part_says_what_the_switched_types_tell(rt: HostRuntime) -> Result<(), Fail> {
    let workflow = workflow_of(rt.alloc(), "y,t")?;
    let answer = first_unwanted(&workflow);
    drop(workflow);
    assert_eq!(rt; answer, Ok(None));
    Ok(())
}

/// A rule key, and the rule that is kept of it.
static KEPT: [(&str, &str); 6] = [
    ("y", "a.y"),
    ("a.y", "a.y"),
    ("b.y", "-"),
    ("y@replica", "-"),
    ("t", "-"),
    ("u", "-"),
];

/// Whether this rule is kept of a key, or none.
fn is_kept(workflow: &Workflow, key: &str, want: &str) -> Result<bool, NameFault> {
    Ok(match workflow.kept(&RuleKey::parse(key)?) {
        Some(target) => target.text().as_str() == want,
        None => want == "-",
    })
}

/// The first row whose rule isn't kept.
fn first_not_kept(workflow: &Workflow) -> Result<Option<usize>, NameFault> {
    for (at, (key, want)) in KEPT.iter().enumerate() {
        if !is_kept(workflow, key, want)? {
            return Ok(Some(at));
        }
    }
    Ok(None)
}

#[test]
fn the_rules_before_are_kept(rt: HostRuntime) -> Result<(), Fail> {
    let workflow = workflow_of(rt.alloc(), "y,t")?;
    let answer = first_not_kept(&workflow);
    drop(workflow);
    assert_eq!(rt; answer, Ok(None));
    Ok(())
}
