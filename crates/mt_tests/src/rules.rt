//! Routing rules.

use mt_names::{NameFault, RuleKey, RuleTarget};
use mt_rules::{RoutingRules, RulesFault};
use std::alloc::Global;
use std::test::Fail;

/// A call that concerns a key.
#[derive(Clone, Copy)]
pub enum Call {
    Reserve,
    Release,
    /// The rule to `k.a` is set, where there is a place. Answered is what stood there.
    Set,
    /// The rule is taken away, where there is a place. Answered is what stood there.
    Take,
    Get,
}

/// How a rule is printed.
fn printed(target: Option<&RuleTarget>) -> &'static str {
    match target {
        Some(target) if target.text().as_str() == "k.a" => "k.a",
        Some(_) => "another rule",
        None => "no rule",
    }
}

/// Sets the rule of a key, or takes it away: what stood there.
fn set(rules: &mut RoutingRules, key: &RuleKey, target: Option<RuleTarget>) -> &'static str {
    if rules.has_place(key) {
        return printed(rules.set(key, target).as_ref());
    }
    "no place"
}

/// How a call is answered.
fn answer(rules: &mut RoutingRules, key: &RuleKey, call: Call) -> Result<&'static str, NameFault> {
    Ok(match call {
        Call::Reserve => match rules.reserve_key(key) {
            Ok(()) => "ok",
            Err(fault) => fault.as_str(),
        },
        Call::Release => {
            rules.release_key(key);
            "ok"
        }
        Call::Set => set(rules, key, Some(RuleTarget::parse("k.a")?)),
        Call::Take => set(rules, key, None),
        Call::Get => printed(rules.get(key)),
    })
}

/// Whether calls that concern one key are answered so.
pub fn answers(
    rules: &mut RoutingRules,
    key: &str,
    calls: &[(Call, &str)],
) -> Result<bool, NameFault> {
    let key = RuleKey::parse(key)?;
    for (call, want) in calls {
        if answer(rules, &key, *call)? != *want {
            return Ok(false);
        }
    }
    Ok(true)
}

/// A place is kept while it has a rule.
static ONE_KEY: [(Call, &str); 11] = [
    (Call::Set, "no place"),
    (Call::Reserve, "ok"),
    (Call::Reserve, "ok"),
    (Call::Set, "no rule"),
    (Call::Get, "k.a"),
    (Call::Release, "ok"),
    (Call::Take, "k.a"),
    (Call::Get, "no rule"),
    (Call::Take, "no rule"),
    (Call::Release, "ok"),
    (Call::Set, "no place"),
];

#[test]
fn a_rule_is_set_and_taken_away(rt: HostRuntime) -> Result<(), Fail> {
    let mut rules = RoutingRules::new(rt.alloc());
    assert!(rt; answers(&mut rules, "a", &ONE_KEY)?);
    assert!(rt; rules.is_empty());
    Ok(())
}

/// Whether so many keys get a place.
fn is_filled(alloc: Global, rules: &mut RoutingRules, count: u32) -> Result<bool, Fail> {
    for number in 0..count {
        let name = format!(in alloc; "t{number}")?;
        if !answers(rules, name.as_str(), &[(Call::Reserve, "ok")])? {
            return Ok(false);
        }
    }
    Ok(true)
}

/// Whether rules with 4,096 places take none more, and have each that they had.
fn is_full(rules: &mut RoutingRules) -> Result<bool, NameFault> {
    Ok(
        answers(rules, "t4096", &[(Call::Reserve, "R1 Full")])?
            && answers(rules, "t7", &[(Call::Reserve, "ok")])?
            && rules.places() == 4096,
    )
}

#[test]
fn places_are_limited(rt: HostRuntime) -> Result<(), Fail> {
    let mut rules = RoutingRules::new(rt.alloc());
    assert!(rt; is_filled(rt.alloc(), &mut rules, 4096)?);
    assert!(rt; is_full(&mut rules) == Ok(true));
    Ok(())
}

/// Whether a refusal is printed so.
fn is_printed(alloc: Global, fault: RulesFault, text: &str) -> bool {
    format!(in alloc; "{fault}").is_ok_and(|printed| printed.as_str() == text)
}

#[test]
fn refusals_are_printed(rt: HostRuntime) {
    assert!(rt;
        is_printed(rt.alloc(), RulesFault::Memory, "R0 Memory")
            && is_printed(rt.alloc(), RulesFault::Full, "R1 Full")
    );
}
