//! Tests of documents.
use crate::rules::{Call, answers};
use mt_names::RuleKey;
use mt_rules::{RoutingRules, RulesFault};
use std::alloc::{AllocError, Global};

/// The rules of a fresh workflow.
const FRESH: &str =
    "{\"rules\":[{\"from_table\":\"commerce.corder@rdonly\",\"to_tables\":[\"commerce.corder\"]},{\"from_table\":\"commerce.corder@replica\",\"to_tables\":[\"commerce.corder\"]},{\"from_table\":\"corder\",\"to_tables\":[\"commerce.corder\"]},{\"from_table\":\"corder@rdonly\",\"to_tables\":[\"commerce.corder\"]},{\"from_table\":\"corder@replica\",\"to_tables\":[\"commerce.corder\"]},{\"from_table\":\"customer.corder\",\"to_tables\":[\"commerce.corder\"]},{\"from_table\":\"customer.corder@rdonly\",\"to_tables\":[\"commerce.corder\"]},{\"from_table\":\"customer.corder@replica\",\"to_tables\":[\"commerce.corder\"]}]}";

/// How a document is written that is read, or why it is refused.
type Read = Result<&'static str, RulesFault>;

/// Whether rules are written so.
fn is_written(alloc: Global, rules: &RoutingRules, want: &str) -> bool {
    match rules.to_json(alloc) {
        Ok(text) => text.as_str() == want,
        Err(_) => false,
    }
}

/// Whether a document is read so.
fn reads(alloc: Global, text: &[u8], want: Result<&str, RulesFault>) -> bool {
    match (RoutingRules::from_json(alloc, text), want) {
        (Ok(rules), Ok(written)) => is_written(alloc, &rules, written),
        (Err(fault), Err(refusal)) => fault == refusal,
        _ => false,
    }
}

/// Documents that are taken and refused.
static DOCUMENTS: [(&str, Read); 33] = [
    (FRESH, Ok(FRESH)),
    (
        "{\"rules\":[{\"fromTable\":\"b\",\"toTables\":[\"k.b\"],\"x\":1},{\"from_table\":\"a@replica\",\"to_tables\":[\"k.a\"]}]}",
        Ok(
            "{\"rules\":[{\"from_table\":\"a@replica\",\"to_tables\":[\"k.a\"]},{\"from_table\":\"b\",\"to_tables\":[\"k.b\"]}]}",
        ),
    ),
    ("{}", Ok("{\"rules\":[]}")),
    (" {\"rules\":null}", Ok("{\"rules\":[]}")),
    ("{\"rules\":1,\"rules\":[]}", Ok("{\"rules\":[]}")),
    (
        "{\"x\":[{}],\"rules\":[{\"to_tables\":[\"k.a\"],\"from_table\":\"b\",\"from_table\":\"a\",\"fromTable\":1}]}",
        Ok("{\"rules\":[{\"from_table\":\"a\",\"to_tables\":[\"k.a\"]}]}"),
    ),
    ("{\"rules\":[],\"rules\":1}", Err(RulesFault::Shape)),
    ("{\"rules\":1,\"\\u0072ules\":[]}", Ok("{\"rules\":[]}")),
    (
        "{\"rules\":[{\"from_table\":\"a\",\"to_tables\":[],\"to_tables\":[\"k.a\",\"k.b\"],\"to_tables\":[\"k.c\"]}]}",
        Ok("{\"rules\":[{\"from_table\":\"a\",\"to_tables\":[\"k.c\"]}]}"),
    ),
    (
        "{\"rules\":[{\"from_table\":\"a\",\"to_tables\":[\"k.c\"],\"to_tables\":[\"k.a\",\"k.b\"]}]}",
        Err(RulesFault::NotOneTarget),
    ),
    (
        "{\"rules\":[{\"fromTable\":1,\"toTables\":null,\"fromTable\":\"a\",\"toTables\":[\"k.a\"]}]}",
        Ok("{\"rules\":[{\"from_table\":\"a\",\"to_tables\":[\"k.a\"]}]}"),
    ),
    (
        "{\"rules\":[{\"from_table\":\"b\",\"from_table\":null,\"fromTable\":\"a\",\"to_tables\":[\"k.a\"]}]}",
        Err(RulesFault::Shape),
    ),
    (
        "{\"rules\":[{\"from_table\":\"a\",\"to_tables\":[\"k.a\"],\"to_tables\":null,\"toTables\":[\"k.b\"]}]}",
        Err(RulesFault::NotOneTarget),
    ),
    (
        "{\"x\":{\"y\":1,\"y\":{\"z\":2,\"z\":3}},\"rules\":[{\"x\":[{\"y\":1,\"y\":2}],\"from_table\":\"a\",\"to_tables\":[\"k.a\"],\"x\":1}],\"x\":1}",
        Ok("{\"rules\":[{\"from_table\":\"a\",\"to_tables\":[\"k.a\"]}]}"),
    ),
    ("{\"rules\":[", Err(RulesFault::NotJson)),
    ("", Err(RulesFault::NotJson)),
    ("{\"rules\":[]} x", Err(RulesFault::NotJson)),
    ("null", Err(RulesFault::Shape)),
    ("[]", Err(RulesFault::Shape)),
    ("{\"rules\":{}}", Err(RulesFault::Shape)),
    ("{\"rules\":[1]}", Err(RulesFault::Shape)),
    (
        "{\"rules\":[{\"to_tables\":[\"k.a\"]}]}",
        Err(RulesFault::Shape),
    ),
    (
        "{\"rules\":[{\"from_table\":null,\"fromTable\":\"a\",\"to_tables\":[\"k.a\"]}]}",
        Err(RulesFault::Shape),
    ),
    (
        "{\"rules\":[{\"from_table\":\"a\",\"to_tables\":\"k.a\"}]}",
        Err(RulesFault::Shape),
    ),
    (
        "{\"rules\":[{\"from_table\":\"a\",\"to_tables\":[\"k.a\",1]}]}",
        Err(RulesFault::Shape),
    ),
    (
        "{\"rules\":[{\"from_table\":\"a!\",\"to_tables\":[\"k.a\"]}]}",
        Err(RulesFault::BadName),
    ),
    (
        "{\"rules\":[{\"from_table\":\"a\",\"to_tables\":[\"a\"]}]}",
        Err(RulesFault::BadName),
    ),
    (
        "{\"rules\":[{\"from_table\":\"a\"}]}",
        Err(RulesFault::NotOneTarget),
    ),
    (
        "{\"rules\":[{\"from_table\":\"a\",\"to_tables\":null,\"toTables\":[\"k.a\"]}]}",
        Err(RulesFault::NotOneTarget),
    ),
    (
        "{\"rules\":[{\"from_table\":\"a\",\"to_tables\":[]}]}",
        Err(RulesFault::NotOneTarget),
    ),
    (
        "{\"rules\":[{\"from_table\":\"a!\",\"to_tables\":[\"k.a\",\"k.b\"]}]}",
        Err(RulesFault::NotOneTarget),
    ),
    (
        "{\"rules\":[{\"from_table\":\"a\",\"to_tables\":[\"k.a\"]},{\"from_table\":\"a\",\"to_tables\":[\"k.a\"]}]}",
        Err(RulesFault::RepeatedKey),
    ),
    (
        "{\"rules\":[{\"from_table\":\"a!\",\"to_tables\":[\"k.a\"]},{\"from_table\":1}]}",
        Err(RulesFault::BadName),
    ),
];

/// The first document that isn't read so.
fn first_wrong(alloc: Global) -> Option<&'static str> {
    for (text, want) in &DOCUMENTS {
        if !reads(alloc, text.as_bytes(), *want) {
            return Some(text);
        }
    }
    None
}

#[test]
fn documents(rt: HostRuntime) {
    assert_eq!(rt; first_wrong(rt.alloc()), None);
}

/// Where a key leads by the rules of a fresh workflow, of which there are so many.
fn leads(alloc: Global, count: usize, key: &str, want: &str) -> bool {
    let Ok(key) = RuleKey::parse(key) else {
        return false;
    };
    match RoutingRules::from_json(alloc, FRESH.as_bytes()) {
        Ok(rules) => {
            rules.places() == count
                && rules
                    .get(&key)
                    .is_some_and(|target| target.text().as_str() == want)
        }
        Err(_) => false,
    }
}

#[test]
fn rules_of_a_fresh_workflow_are_found(rt: HostRuntime) {
    assert!(rt; leads(rt.alloc(), 8, "customer.corder@replica", "commerce.corder"));
}

/// One key with a place, and one with a place and a rule.
fn has_places(rules: &mut RoutingRules) -> bool {
    answers(rules, "b", &[(Call::Reserve, "ok")]) == Ok(true)
        && answers(rules, "a", &[(Call::Reserve, "ok"), (Call::Set, "no rule")]) == Ok(true)
}

/// Whether a place without a rule is left out of the document.
fn is_left_out(alloc: Global) -> bool {
    let mut rules = RoutingRules::new(alloc);
    has_places(&mut rules)
        && is_written(
            alloc,
            &rules,
            "{\"rules\":[{\"from_table\":\"a\",\"to_tables\":[\"k.a\"]}]}",
        )
}

#[test]
fn places_without_a_rule_are_left_out(rt: HostRuntime) {
    assert!(rt; is_left_out(rt.alloc()));
}

/// A text whose byte at this place is replaced by one that no text has.
fn spoilt(alloc: Global, text: &[u8], at: usize) -> Result<Vec<u8>, AllocError> {
    let mut bytes = Vec::new(alloc);
    bytes.extend_from_slice(text)?;
    if let Some(byte) = bytes.get_mut(at) {
        *byte = 0xff;
    }
    Ok(bytes)
}

/// Whether a document is refused that ends before a byte, and one in which the byte is none of a text.
fn refuses_at(alloc: Global, text: &[u8], at: usize) -> bool {
    match (text.get(..at), spoilt(alloc, text, at)) {
        (Some(cut), Ok(bytes)) => {
            reads(alloc, cut, Err(RulesFault::NotJson))
                && reads(alloc, bytes.as_slice(), Err(RulesFault::NotJson))
        }
        _ => false,
    }
}

/// The first place at which it is taken.
fn first_taken(alloc: Global) -> Option<usize> {
    let text = FRESH.as_bytes();
    for at in 0..text.len() {
        if !refuses_at(alloc, text, at) {
            return Some(at);
        }
    }
    None
}

#[test]
fn every_prefix_and_every_byte_that_is_none(rt: HostRuntime) {
    assert_eq!(rt; first_taken(rt.alloc()), None);
}

/// Writes a bracket so often.
fn push_times(text: &mut String, bracket: char, times: u32) -> Result<(), AllocError> {
    for _ in 0..times {
        text.push(bracket)?;
    }
    Ok(())
}

/// A document of which a member has so many lists, each in the one before it.
fn nested(alloc: Global, member: &str, depth: u32) -> Result<String, AllocError> {
    let mut text = String::new(alloc);
    text.push_str("{\"")?;
    text.push_str(member)?;
    text.push_str("\":")?;
    push_times(&mut text, '[', depth)?;
    push_times(&mut text, ']', depth)?;
    text.push('}')?;
    Ok(text)
}

/// Whether such a document is read so.
fn reads_nested(alloc: Global, member: &str, depth: u32, want: Result<&str, RulesFault>) -> bool {
    match nested(alloc, member, depth) {
        Ok(text) => reads(alloc, text.as_bytes(), want),
        Err(_) => false,
    }
}

#[test]
fn nested_deep(rt: HostRuntime) {
    let refused = Err(RulesFault::NotJson);
    assert!(rt; reads_nested(rt.alloc(), "rules", 200, refused));
    assert!(rt; reads_nested(rt.alloc(), "x", 200, refused));
    assert!(rt; reads_nested(rt.alloc(), "rules", 20, Err(RulesFault::Shape)));
    assert!(rt; reads_nested(rt.alloc(), "x", 20, Ok("{\"rules\":[]}")));
}

/// The document of so many rules.
fn of_rules(alloc: Global, count: u32) -> Option<String> {
    let mut text = String::new(alloc);
    text.push_str("{\"rules\":[").ok()?;
    for number in 0..count {
        let comma = if number > 0 { "," } else { "" };
        let rule = format!(in alloc;
            "{comma}{{\"from_table\":\"t{number}\",\"to_tables\":[\"k.t{number}\"]}}"
        );
        text.push_str(rule.ok()?.as_str()).ok()?;
    }
    text.push_str("]}").ok()?;
    Some(text)
}

/// How many bytes a document is written with, or why it is refused.
fn length(alloc: Global, text: &str) -> Result<usize, RulesFault> {
    match RoutingRules::from_json(alloc, text.as_bytes()) {
        Ok(rules) => rules.to_json(alloc).map(|written| written.len()),
        Err(fault) => Err(fault),
    }
}

/// Whether the document of so many rules is written with as many bytes, or refused so.
fn reads_many(alloc: Global, count: u32, refusal: Option<RulesFault>) -> bool {
    let Some(text) = of_rules(alloc, count) else {
        return false;
    };
    match length(alloc, text.as_str()) {
        Ok(bytes) => refusal.is_none() && bytes == text.len(),
        Err(fault) => refusal == Some(fault),
    }
}

#[test]
fn as_many_rules_as_there_may_be(rt: HostRuntime) {
    assert!(rt; reads_many(rt.alloc(), 4096, None));
    assert!(rt; reads_many(rt.alloc(), 4097, Some(RulesFault::Full)));
}
