//! Reading the document of the rules.
ghost use Rattle.std.specs.Prelude.{◌≡◌, ◌⊎◌, [], Some, None, option_map, IfOk, IfErr};
ghost use Rattle.serde_json.specs.View.{view, items_view};
ghost use Rattle.mt_rules.specs.Read.{IsUnlessMemory, spelled, text_of, from_table, are_texts, sole_text, sole_target, to_table, rule_of_texts, rule_of, with_rules, rules_of_member, rules_of_value, rules_of_text, value_of_text, result_copied};

use crate::{RoutingRules, RulesFault};
use mt_names::{NameFault, RuleKey, RuleTarget};
use serde_json::Value;
use std::alloc::Global;

impl From<NameFault> for RulesFault {
    ghost use Rattle.std.specs.Prelude.{◌≡◌};
    ghost use Rattle.mt_rules.specs.declared.fault.RulesFault.TheVariants.{BadName};

    ghost from_gives = { λ _ fault. fault ≡ BadName };

    fn from(_fault: NameFault) -> RulesFault {
        RulesFault::BadName
    }
}

/// The value of a member that has two spellings.
fn spelled<'a>(rule: &'a Value, first: &str, second: &str) -> Option<&'a Value>
    ensures { option_map (λ v. view v.now) result ≡ spelled first.now second.now (view rule.now) }
{
    match rule.get(first) {
        Some(value) => Some(value),
        None => rule.get(second),
    }
}

/// The text that a value is.
fn text_of(found: Option<&Value>) -> Result<&str, RulesFault>
    ensures { result_copied result ≡ text_of (option_map (λ v. view v.now) found.entry) }
{
    match found {
        Some(Value::String(text)) => Ok(text.as_str()),
        _ => Err(RulesFault::Shape),
    }
}

/// Whether each value of a list is a text.
fn are_texts(list: &[Value]) -> bool
    ensures { result ≡ are_texts (items_view list.now) }
{
    'values: for value in list {
        if !value.is_string() {
            return false;
        }
    }
    true
}

/// The text of a list that has one value.
fn sole_text(list: &[Value]) -> Result<&str, RulesFault>
    ensures { result_copied result ≡ sole_text (items_view list.now) }
{
    if list.len() != 1 {
        return Err(RulesFault::NotOneTarget);
    }
    text_of(Some(&list[0]))
}

/// The one target that a list of texts names.
fn sole_target(found: Option<&Value>) -> Result<&str, RulesFault>
    ensures { result_copied result ≡ sole_target (option_map (λ v. view v.now) found.entry) }
{
    match found {
        None | Some(Value::Null) => Err(RulesFault::NotOneTarget),
        Some(Value::Array(list)) if are_texts(list) => sole_text(list),
        Some(_) => Err(RulesFault::Shape),
    }
}

/// The rule of these two texts.
fn rule_of_texts(from: &str, to: &str) -> Result<(RuleKey, RuleTarget), RulesFault>
    ensures { result ≡ rule_of_texts from.now to.now }
{
    let key = RuleKey::parse(from)?;
    let target = RuleTarget::parse(to)?;
    Ok((key, target))
}

/// The rule that a value says.
pub fn rule_of(rule: &Value) -> Result<(RuleKey, RuleTarget), RulesFault>
    ensures { result ≡ rule_of (view rule.now) }
{
    let from = text_of(spelled(rule, "from_table", "fromTable"))?;
    let to = sole_target(spelled(rule, "to_tables", "toTables"))?;
    rule_of_texts(from, to)
}

/// The rule that a value says, in whose place null is left, so that its memory is given back.
fn take_rule(rule: &mut Value) -> Result<(RuleKey, RuleTarget), RulesFault>
    ensures { result ≡ rule_of (view rule.old) }
{
    rule_of(&rule.take())
}

/// The rules of a list, taken in turn. Each value is given back as its rule is taken, so that the two never stand in memory whole.
fn rules_of_list(alloc: Global, list: &mut [Value]) -> Result<RoutingRules, RulesFault>
    ensures { IsUnlessMemory result (with_rules [] (items_view list.old)) }
{
    let mut rules = RoutingRules::new(alloc);
    'values: for value in list.iter_mut() {
        let (key, target) = take_rule(value)?;
        rules.add(key, target)?;
    }
    Ok(rules)
}

/// The rules of a document's member.
pub fn rules_of_member(alloc: Global, found: Option<&mut Value>) -> Result<RoutingRules, RulesFault>
    ensures { IsUnlessMemory result (rules_of_member (option_map (λ v. view v.now) found.entry)) }
{
    match found {
        None | Some(Value::Null) => Ok(RoutingRules::new(alloc)),
        Some(Value::Array(list)) => rules_of_list(alloc, list),
        Some(_) => Err(RulesFault::Shape),
    }
}

/// The rules that a document's value says.
fn rules_of_value(alloc: Global, document: &mut Value) -> Result<RoutingRules, RulesFault>
    ensures { IsUnlessMemory result (rules_of_value (view document.old)) }
{
    if !document.is_object() {
        return Err(RulesFault::Shape);
    }
    rules_of_member(alloc, document.get_mut("rules"))
}

/// The value that `serde_json` reads of a text. `R2 NotJson` where it reads none, `R0 Memory`.
pub fn value_of_text(alloc: Global, text: &[u8]) -> Result<Value, RulesFault>
    ensures ok { IfOk result (λ value. value_of_text text.now ≡ Some (view value)) }
    ensures err { IfErr result (λ fault. (fault ≡ RulesFault.Memory) ⊎ ((fault ≡ RulesFault.NotJson) × (value_of_text text.now ≡ None))) }
{
    match Value::from_slice(alloc, text) {
        Ok(value) => Ok(value),
        Err(error) => {
            if error.is_memory() {
                return Err(RulesFault::Memory);
            }
            Err(RulesFault::NotJson)
        }
    }
}

/// The rules that a text says.
pub fn rules_of_text(alloc: Global, text: &[u8]) -> Result<RoutingRules, RulesFault>
    ensures { IsUnlessMemory result (rules_of_text text.now) }
{
    let mut document = value_of_text(alloc, text)?;
    rules_of_value(alloc, &mut document)
}
