//! Reading the rules as a member of a larger document, which are read to the end before a limit is told.
ghost use Rattle.std.specs.Prelude.{◌≡◌, [], option_map};
ghost use Rattle.serde_json.specs.View.{view, items_view};
ghost use Rattle.mt_rules.specs.Read.{IsUnlessMemory, answer_with};
ghost use Rattle.mt_rules.specs.Member.{or_shape, rules_in, rules_of, with_new_rule, with_rule_of};

use crate::RulesFault;
use crate::places::Places;
use crate::read::rule_of;
use mt_names::{RuleKey, RuleTarget};
use serde_json::Value;
use std::alloc::Global;

/// Adds a rule, whose key must be new.
fn add(places: &mut Places, key: &RuleKey, target: RuleTarget) -> Result<(), RulesFault>
    ensures { IsUnlessMemory (answer_with places.new result) (or_shape (with_new_rule places.old (key.now, target))) }
{
    if places.contains(key) {
        return Err(RulesFault::Shape);
    }
    match places.add(key, Some((&target.keyspace, &target.table))) {
        Ok(()) => Ok(()),
        Err(_) => Err(RulesFault::Memory),
    }
}

/// Adds the rule of a value.
fn add_rule_of(places: &mut Places, rule: &Value) -> Result<(), RulesFault>
    ensures { IsUnlessMemory (answer_with places.new result) (or_shape (with_rule_of places.old (view rule.now))) }
{
    match rule_of(rule) {
        Ok((key, target)) => add(places, &key, target),
        Err(_) => Err(RulesFault::Shape),
    }
}

/// Adds the rules of a list.
fn add_rules_of(places: &mut Places, list: &[Value]) -> Result<(), RulesFault>
    ensures { IsUnlessMemory (answer_with places.new result) (or_shape (rules_of places.old (items_view list.now))) }
{
    'values: for value in list {
        add_rule_of(places, value)?;
    }
    Ok(())
}

/// The rules of a list.
fn places_of_list(alloc: Global, list: &[Value]) -> Result<Places, RulesFault>
    ensures { IsUnlessMemory result (or_shape (rules_of [] (items_view list.now))) }
{
    let mut places = Places::new(alloc);
    add_rules_of(&mut places, list)?;
    Ok(places)
}

/// The rules of a document's member.
pub fn places_of_member(alloc: Global, found: Option<&Value>) -> Result<Places, RulesFault>
    ensures { IsUnlessMemory result (or_shape (rules_in (option_map (λ v. view v.now) found.entry))) }
{
    match found {
        None | Some(Value::Null) => Ok(Places::new(alloc)),
        Some(Value::Array(list)) => places_of_list(alloc, list),
        Some(_) => Err(RulesFault::Shape),
    }
}
