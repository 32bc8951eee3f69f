//! Where an allocation fails, the answer is `Memory` or the one that there is without, and a refusal changes nothing.

use mt_names::{RuleKey, RuleTarget};
use mt_rules::{RoutingRules, RulesFault};
use std::alloc::Global;

/// A document with both spellings, whose rules aren't in order.
const MIXED: &str =
    "{\"rules\":[{\"fromTable\":\"b\",\"toTables\":[\"k.b\"],\"x\":1},{\"from_table\":\"a\",\"to_tables\":[\"k.a\"]}]}";

/// That document as it is written.
const WRITTEN: &str =
    "{\"rules\":[{\"from_table\":\"a\",\"to_tables\":[\"k.a\"]},{\"from_table\":\"b\",\"to_tables\":[\"k.b\"]}]}";

/// Whether a place is made at once, or at a second try after a refusal that changed nothing.
fn reserves(rules: &mut RoutingRules, key: &RuleKey) -> bool {
    let before = rules.places();
    if rules.reserve_key(key) == Err(RulesFault::Memory) {
        let is_kept = rules.places() == before && !rules.has_place(key);
        return is_kept && rules.reserve_key(key) == Ok(()) && rules.places() == before + 1;
    }
    rules.has_place(key) && rules.places() == before + 1
}

/// Whether the rules are written so at once, or at a second try.
fn writes(alloc: Global, rules: &RoutingRules, want: &str) -> bool {
    let text = match rules.to_json(alloc) {
        Err(RulesFault::Memory) => rules.to_json(alloc),
        answer => answer,
    };
    text.is_ok_and(|text| text.as_str() == want)
}

/// Whether a document is read and written so, or is refused so, at once or at a second try.
fn reads(alloc: Global, text: &str, want: Result<&str, RulesFault>) -> bool {
    let rules = match RoutingRules::from_json(alloc, text.as_bytes()) {
        Err(RulesFault::Memory) => RoutingRules::from_json(alloc, text.as_bytes()),
        answer => answer,
    };
    match (&rules, want) {
        (Ok(rules), Ok(want)) => writes(alloc, rules, want),
        (Err(fault), Err(want)) => *fault == want,
        _ => false,
    }
}

/// Whether keys get places.
fn are_reserved(rules: &mut RoutingRules, names: &[&str]) -> bool {
    for name in names {
        match RuleKey::parse(name) {
            Ok(key) if reserves(rules, &key) => {}
            _ => return false,
        }
    }
    true
}

/// Whether a rule is set where there was none.
fn sets(rules: &mut RoutingRules, name: &str, target: &str) -> bool {
    let (Ok(key), Ok(target)) = (RuleKey::parse(name), RuleTarget::parse(target)) else {
        return false;
    };
    if !rules.has_place(&key) {
        return false;
    }
    rules.set(&key, Some(target)).is_none()
}

/// Whether rules are made that are written so.
fn are_made(alloc: Global, rules: &mut RoutingRules) -> bool {
    are_reserved(rules, &["b", "c", "a", "e", "d"])
        && sets(rules, "b", "k.b")
        && sets(rules, "a", "k.a")
        && writes(alloc, rules, WRITTEN)
}

/// Whether documents are read so.
fn are_read(alloc: Global) -> bool {
    reads(alloc, MIXED, Ok(WRITTEN))
        && reads(alloc, "{\"rules\":[", Err(RulesFault::NotJson))
        && reads(alloc, "{\"rules\":[{\"x\":[1]}]}", Err(RulesFault::Shape))
}

#[test]
fn want_of_memory_is_no_other_answer(rt: HostRuntime) {
    let mut rules = RoutingRules::new(rt.alloc());
    assert!(rt; are_made(rt.alloc(), &mut rules) && are_read(rt.alloc()));
}
