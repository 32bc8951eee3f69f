//! Writing the document of the rules as a text, without a value of `serde_json`.
ghost use Rattle.std.specs.Prelude.{◌≡◌, ◌++◌, [], codes, map, flat_map, fold, IfOk, OnOk, string_bytes};
ghost use Rattle.std.specs.List.{AllByRecursion, IsDistinct};
ghost use Rattle.std.specs.Map.{keys_of};
ghost use Rattle.mt_names.specs.Names.{same_text};
ghost use Rattle.mt_names.specs.Same.{same_key};
ghost use Rattle.mt_model.specs.Documents.{array, entries_of, put_by_text, quoted, rules_array};
ghost use Rattle.mt_rules.specs.Values.{IsNamed, IsWellSorted};
ghost use Rattle.mt_rules.specs.Written.{named_text, quoted_item, text_of_texts, texts_of, written_document, written_text};
ghost use Rattle.mt_names.specs.Keys.{target_text};

use crate::places::Places;
use crate::walk::in_order;
use arrayvec::ArrayString;
use mt_names::{RuleKey, RuleTarget};
use std::alloc::{AllocError, Global};

/// How many bytes the text of a rule is taken to have before it is known.
const LIKELY_LENGTH: usize = 112;

/// The longest text in bytes that a routing rule's key has.
const MAX_KEY_LENGTH: usize = 137;

/// An item of a list as it is written, with the key by which such items are sorted. It has a text of its own only where it isn't
/// written from other parts.
#[derive(Drop)]
pub struct WrittenItem {
    key: ArrayString<MAX_KEY_LENGTH>,
    /// Where a rule leads.
    target: Option<RuleTarget>,
    /// The text, of what is no rule.
    text: Option<String>,
}

impl WrittenItem {
    /// An item with a text of its own.
    pub fn of_text(key: ArrayString<MAX_KEY_LENGTH>, text: String) -> Self
        ensures { written_text result ≡ (key.bytes, string_bytes text) }
    {
        WrittenItem {
            key,
            target: None,
            text: Some(text),
        }
    }

    /// A text as an item, which is written in quotes. A text that JSON escapes is not written as JSON wants it.
    pub fn quoted(key: ArrayString<MAX_KEY_LENGTH>) -> Self
        ensures { written_text result ≡ quoted_item key.bytes }
    {
        WrittenItem {
            key,
            target: None,
            text: None,
        }
    }

    /// Appends its text.
    fn push_to(&self, text: &mut String) -> Result<(), AllocError>
        ensures { OnOk result (string_bytes text.new ≡ string_bytes text.old ++ (written_text self.now).1) }
    {
        match (&self.target, &self.text) {
            (Some(target), _) => push_rule(text, self.key.as_str(), target),
            (None, None) => push_quoted(text, self.key.as_str()),
            (None, Some(own)) => text.push_str(own.as_str()),
        }
    }
}

/// Appends a rule of a key with this text.
fn push_rule(text: &mut String, key: &str, target: &RuleTarget) -> Result<(), AllocError>
    ensures { OnOk result (string_bytes text.new ≡ string_bytes text.old ++ text_of_texts key.now (target_text target.now)) }
{
    text.push_str("{\"from_table\":\"")?;
    text.push_str(key)?;
    text.push_str("\",\"to_tables\":[\"")?;
    push_target(text, target)?;
    text.push_str("\"]}")?;
    Ok(())
}

/// Appends the text of where a rule leads.
fn push_target(text: &mut String, target: &RuleTarget) -> Result<(), AllocError>
    ensures { OnOk result (string_bytes text.new ≡ string_bytes text.old ++ target_text target.now) }
{
    text.push_str(target.keyspace.as_str())?;
    text.push_str(".")?;
    text.push_str(target.table.as_str())?;
    Ok(())
}

/// Appends a text in quotes. One that JSON escapes is not written as JSON wants it.
pub fn push_quoted(text: &mut String, own: &str) -> Result<(), AllocError>
    ensures { OnOk result (string_bytes text.new ≡ string_bytes text.old ++ quoted own.now) }
{
    text.push_str("\"")?;
    text.push_str(own)?;
    text.push_str("\"")?;
    Ok(())
}

/// Some items by reference, in their order.
fn lend_items(alloc: Global, items: &[WrittenItem]) -> Result<Vec<&WrittenItem>, AllocError>
    ensures { IfOk result (λ lent. map (λ item. item.now) lent.items ≡ items.now) }
{
    let mut lent = Vec::with_capacity(alloc, items.len())?;
    'items: for item in items {
        lent.push(item)?;
    }
    Ok(lent)
}

/// Some items by reference, whose keys differ, in the order of these. References are sorted, since they are moved about more
/// cheaply than what they refer to.
fn items_in_order(alloc: Global, items: &[WrittenItem]) -> Result<Vec<&WrittenItem>, AllocError>
    requires { IsDistinct same_text (map (λ x. x.0) (map written_text items.now)) }
    ensures { IfOk result (λ lent. map (λ item. written_text item.now) lent.items ≡ fold put_by_text [] (map written_text items.now)) }
{
    let mut lent = lend_items(alloc, items)?;
    lent.sort_unstable_by(|item, other| item.key.as_str().cmp(other.key.as_str()));
    Ok(lent)
}

/// Appends the list of some items, whose keys differ, in the order of these.
pub fn push_sorted(
    alloc: Global,
    text: &mut String,
    items: &[WrittenItem],
) -> Result<(), AllocError>
    requires { IsDistinct same_text (map (λ x. x.0) (map written_text items.now)) }
    ensures { OnOk result (string_bytes text.new ≡ string_bytes text.old ++ array (map (λ x. x.1) (fold put_by_text [] (map written_text items.now)))) }
{
    let lent = items_in_order(alloc, items)?;
    push_list(text, &lent)
}

/// Appends the list of these items, in their order.
fn push_list(text: &mut String, items: &[&WrittenItem]) -> Result<(), AllocError>
    ensures { OnOk result (string_bytes text.new ≡ string_bytes text.old ++ array (map (λ x. x.1) (map (λ item. written_text item.now) items.now))) }
{
    text.push_str("[")?;
    let mut before = "";
    'items: for &item in items {
        text.push_str(before)?;
        item.push_to(text)?;
        before = ",";
    }
    text.push_str("]")?;
    Ok(())
}

/// A rule as it is written.
fn written_rule(key: &RuleKey, target: &RuleTarget) -> WrittenItem
    ensures text { written_text result ≡ named_text (key.now, target.now) }
    ensures named { IsNamed (key.now, target.now) }
{
    target.keyspace.as_str();
    target.table.as_str();
    WrittenItem {
        key: key.text(),
        target: Some(target.copied()),
        text: None,
    }
}

/// The rules as they are written, in the order of their keys.
pub fn written_rules(alloc: Global, places: &Places) -> Result<Vec<WrittenItem>, AllocError>
    ensures texts { IfOk result (λ rules. map written_text rules.items ≡ texts_of places.now) }
    ensures named { OnOk result (AllByRecursion IsNamed (flat_map entries_of places.now)) }
    ensures distinct { IsDistinct same_key (keys_of places.now) }
{
    let list = in_order(alloc, places)?;
    let mut rules = Vec::with_capacity(alloc, list.len())?;
    for place in &list {
        if let Some(target) = place.rule {
            let key = place.name.key(place.tablet_type);
            rules.push(written_rule(&key, target))?;
        }
    }
    Ok(rules)
}

/// The document of these rules, whose keys' texts differ, in the order of these.
pub fn document_of(alloc: Global, rules: &[WrittenItem]) -> Result<String, AllocError>
    requires { IsDistinct same_text (map (λ x. x.0) (map written_text rules.now)) }
    ensures { IfOk result (λ text. string_bytes text ≡ written_document (fold put_by_text [] (map written_text rules.now))) }
{
    let room = rules.len().saturating_mul(LIKELY_LENGTH);
    let mut text = String::with_capacity(alloc, room)?;
    text.push_str("{\"rules\":")?;
    push_sorted(alloc, &mut text, rules)?;
    text.push_str("}")?;
    Ok(text)
}

/// Appends the list of the rules, in the order of their keys' texts.
pub fn push_rules(alloc: Global, text: &mut String, places: &Places) -> Result<(), AllocError>
    ensures text { OnOk result (string_bytes text.new ≡ string_bytes text.old ++ rules_array places.now) }
    ensures sorted { OnOk result (IsWellSorted places.now) }
{
    let rules = written_rules(alloc, places)?;
    push_sorted(alloc, text, &rules)
}
