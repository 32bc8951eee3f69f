//! Writing the keyspaces of a dump as a text, without a value of `serde_json`.
ghost use Rattle.std.specs.Prelude.{◌≡◌, ◌++◌, [], flat_map, map, option_copied, IfOk, OnOk, string_bytes};
ghost use Rattle.std.specs.List.{AllByRecursion, IsDistinct};
ghost use Rattle.std.specs.Map.{keys_of};
ghost use Rattle.mt_names.specs.Keys.{qualifier_text};
ghost use Rattle.mt_names.specs.Names.{IsKeyspaceName, IsTableName, same_text};
ghost use Rattle.mt_model.specs.Documents.{array, denied_sorted, denied_texts, keyspace_text, keyspaces_in_order, marked, quoted, sorted_texts};
ghost use Rattle.mt_names.specs.Shards.{range_text};
ghost use Rattle.mt_rules.specs.Written.{quoted_item, written_text};
ghost use Rattle.mt_keyspace.specs.Keyspaces.{AreKeyspaces};
ghost use Rattle.mt_keyspace.specs.Values.{IsDenialText, IsNamedKeyspace, IsReadRange};
ghost use Rattle.mt_keyspace.specs.Written.{items_behind, keyspace_item};

use crate::keyspace::Keyspace;
use arrayvec::ArrayString;
use indexmap::IndexMap;
use mt_model::key_of_name;
use mt_names::{KeyRange, KeyspaceName, TableName};
use mt_rules::{WrittenItem, push_quoted, push_sorted};
use std::alloc::{AllocError, Global};

/// How many bytes the text of a keyspace is taken to have before it is known.
const LIKELY_KEYSPACE: usize = 4096;

/// The name of a table, alone or behind that of its keyspace, as an item of a list of texts.
fn written_name(keyspace: Option<&KeyspaceName>, table: &TableName) -> WrittenItem
    ensures text { written_text result ≡ quoted_item (qualifier_text (option_copied keyspace.entry) ++ table.now) }
    ensures named { IsTableName table.now }
{
    WrittenItem::quoted(key_of_name(keyspace, table, None).text())
}

/// Adds the names that are marked, each alone or behind that of the keyspace, in the order of their places.
pub fn add_names(
    items: &mut Vec<WrittenItem>,
    keyspace: Option<&KeyspaceName>,
    places: &IndexMap<TableName, bool>,
) -> Result<(), AllocError>
    ensures texts { OnOk result (map written_text items.new.items ≡ map written_text items.old.items ++ items_behind (qualifier_text (option_copied keyspace.entry)) places.now.entries) }
    ensures named { OnOk result (AllByRecursion IsTableName (marked places.now.entries)) }
{
    'places: for (table, is_marked) in places.iter() {
        if *is_marked {
            items.push(written_name(keyspace, table))?;
        }
    }
    Ok(())
}

/// Appends the list of the tables that are there, in the order of their names.
pub fn push_tables(
    alloc: Global,
    text: &mut String,
    places: &IndexMap<TableName, bool>,
) -> Result<(), AllocError>
    requires { IsDistinct same_text (keys_of places.now.entries) }
    ensures text { OnOk result (string_bytes text.new ≡ string_bytes text.old ++ array (map quoted (sorted_texts (marked places.now.entries)))) }
    ensures named { OnOk result (AllByRecursion IsTableName (sorted_texts (marked places.now.entries))) }
{
    let mut items = Vec::with_capacity(alloc, places.len())?;
    add_names(&mut items, None, places)?;
    push_sorted(alloc, text, &items)
}

/// Appends the text of a key range in quotes.
fn push_range(text: &mut String, range: &KeyRange) -> Result<(), AllocError>
    ensures text { OnOk result (string_bytes text.new ≡ string_bytes text.old ++ quoted (range_text range.now)) }
    ensures read { IsReadRange range.now }
{
    push_quoted(text, range.text().as_str())
}

/// Appends the list of the texts of key ranges, in their order.
pub fn push_ranges(text: &mut String, ranges: &[KeyRange]) -> Result<(), AllocError>
    ensures text { OnOk result (string_bytes text.new ≡ string_bytes text.old ++ array (map quoted (map range_text ranges.now))) }
    ensures read { OnOk result (AllByRecursion IsReadRange ranges.now) }
{
    text.push_str("[")?;
    let mut before = "";
    'shards: for range in ranges {
        text.push_str(before)?;
        push_range(text, range)?;
        before = ",";
    }
    text.push_str("]")?;
    Ok(())
}

/// A keyspace as it is written, under its name.
fn written_keyspace(
    alloc: Global,
    name: &KeyspaceName,
    keyspace: &Keyspace,
) -> Result<WrittenItem, AllocError>
    ensures text { IfOk result (λ item. written_text item ≡ keyspace_item (name.now, keyspace.now)) }
    ensures named { OnOk result (IsNamedKeyspace (name.now, keyspace.now)) }
{
    keyspace.facts();
    let mut text = String::with_capacity(alloc, LIKELY_KEYSPACE)?;
    text.push_str("{\"name\":\"")?;
    text.push_str(name.as_str())?;
    text.push_str("\",\"shards\":")?;
    keyspace.push_shards(&mut text)?;
    text.push_str(",\"tables\":")?;
    keyspace.push_tables(alloc, &mut text)?;
    text.push_str("}")?;
    let mut key = ArrayString::new();
    key.push_str(name.as_str());
    Ok(WrittenItem::of_text(key, text))
}

/// The keyspaces as they are written, in the order of their places.
fn written_keyspaces(
    alloc: Global,
    keyspaces: &IndexMap<KeyspaceName, Keyspace>,
) -> Result<Vec<WrittenItem>, AllocError>
    ensures texts { IfOk result (λ items. map written_text items.items ≡ map keyspace_item keyspaces.now.entries) }
    ensures named { OnOk result (AllByRecursion IsNamedKeyspace keyspaces.now.entries) }
{
    let mut items = Vec::with_capacity(alloc, keyspaces.len())?;
    'keyspaces: for (name, keyspace) in keyspaces.iter() {
        let item = written_keyspace(alloc, name, keyspace)?;
        items.push(item)?;
    }
    Ok(items)
}

/// Appends the list of the keyspaces, in the order of their names.
pub fn push_keyspaces(
    alloc: Global,
    text: &mut String,
    keyspaces: &IndexMap<KeyspaceName, Keyspace>,
) -> Result<(), AllocError>
    requires { IsDistinct same_text (keys_of keyspaces.now.entries) }
    ensures text { OnOk result (string_bytes text.new ≡ string_bytes text.old
        ++ array (map keyspace_text (keyspaces_in_order (record { rules = []; keyspaces = keyspaces.now.entries })))) }
    ensures named { OnOk result (AllByRecursion IsNamedKeyspace keyspaces.now.entries) }
{
    let items = written_keyspaces(alloc, keyspaces)?;
    push_sorted(alloc, text, &items)
}

/// Adds the texts of a keyspace's denials, in the order of their places.
fn add_denials(
    items: &mut Vec<WrittenItem>,
    name: &KeyspaceName,
    keyspace: &Keyspace,
) -> Result<(), AllocError>
    ensures texts { OnOk result (map written_text items.new.items ≡ map written_text items.old.items ++ map quoted_item (denied_texts (name.now, keyspace.now))) }
    ensures named { OnOk result (AllByRecursion IsDenialText (denied_texts (name.now, keyspace.now))) }
    ensures keyspace { OnOk result (IsKeyspaceName name.now) }
{
    name.as_str();
    keyspace.add_denied(items, name)
}

/// The texts of all denials, in the order of their places.
fn written_denials(
    alloc: Global,
    keyspaces: &IndexMap<KeyspaceName, Keyspace>,
) -> Result<Vec<WrittenItem>, AllocError>
    ensures texts { IfOk result (λ items. map written_text items.items ≡ map quoted_item (flat_map denied_texts keyspaces.now.entries)) }
    ensures named { OnOk result (AllByRecursion IsDenialText (flat_map denied_texts keyspaces.now.entries)) }
    ensures keyspaces { OnOk result (AllByRecursion (λ k. IsKeyspaceName k.0) keyspaces.now.entries) }
{
    let mut items = Vec::new(alloc);
    'keyspaces: for (name, keyspace) in keyspaces.iter() {
        add_denials(&mut items, name, keyspace)?;
    }
    Ok(items)
}

/// Appends the list of the texts of all denials, in their order.
pub fn push_denials(
    alloc: Global,
    text: &mut String,
    keyspaces: &IndexMap<KeyspaceName, Keyspace>,
) -> Result<(), AllocError>
    requires { AreKeyspaces keyspaces.now.entries }
    ensures text { OnOk result (string_bytes text.new ≡ string_bytes text.old
        ++ array (map quoted (denied_sorted (record { rules = []; keyspaces = keyspaces.now.entries })))) }
    ensures named { OnOk result (AllByRecursion IsDenialText (flat_map denied_texts keyspaces.now.entries)) }
{
    let items = written_denials(alloc, keyspaces)?;
    push_sorted(alloc, text, &items)
}
