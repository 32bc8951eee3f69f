//! Walks over places: key after key in the order of these, or all of them as a list.
ghost use Rattle.std.specs.Prelude.{◌≡◌, ◌≤◌, ◌++◌, length, map, option_copied, IfOk, OnOk, is_some};
ghost use Rattle.std.specs.Cmp.Lexicographic.{slice_cmp};
ghost use Rattle.std.specs.List.{IsDistinct};
ghost use Rattle.std.specs.Map.{keys_of};
ghost use Rattle.std.specs.Ordering.{is_lt, nat_cmp};
ghost use Rattle.mt_names.specs.Same.{same_key};
ghost use Rattle.mt_model.specs.Limits.{most_rules};
ghost use Rattle.mt_model.specs.Order.{key_before, key_code, keyspace_code};
ghost use Rattle.mt_model.specs.Part.{rule_routes};
ghost use Rattle.mt_rules.specs.Places.{entry_at, first_after, four_entries, is_after, key_of, listed, place_at, rules_in};
ghost use Rattle.mt_rules.specs.Walk.{is_nearer, key_of_parts, listed_entry, nearest};

use crate::name::{NamePlaces, RuleName};
use crate::places::Places;
use indexmap::IndexMap;
use mt_names::{KeyspaceName, RuleKey, RuleTarget, TableName, TabletType, type_number};
use std::alloc::{AllocError, Global};
use std::cmp::Ordering;

/// A place as it is listed: the name and the type of its key, and the rule that it has, if it has one.
#[derive(Clone, Copy)]
pub struct Listed<'a> {
    /// The name that the key is for.
    pub name: &'a RuleName,
    /// The type that it is for; else it is for all.
    pub tablet_type: Option<TabletType>,
    /// What the place has.
    pub rule: &'a Option<RuleTarget>,
}

/// All places in the order of their keys. Each is looked at once, and then they are sorted.
pub(crate) fn in_order(alloc: Global, places: &Places) -> Result<Vec<Listed<'_>>, AllocError>
    ensures entries { IfOk result (λ list. map listed_entry list.items ≡ places.now) }
    ensures distinct { IsDistinct same_key (keys_of places.now) }
{
    let len = places.len();
    let mut list = by_name(alloc, len, places.names())?;
    list.sort_unstable_by(|place, other| compare_places(place, other));
    Ok(list)
}

/// All places, name by name.
fn by_name(
    alloc: Global,
    len: usize,
    names: &IndexMap<RuleName, NamePlaces>,
) -> Result<Vec<Listed<'_>>, AllocError>
    ensures { IfOk result (λ list. map listed_entry list.items ≡ listed names.now.entries) }
{
    let mut list = Vec::with_capacity(alloc, len)?;
    for (name, places) in names.iter() {
        push_name(&mut list, name, places)?;
    }
    Ok(list)
}

/// Adds the places of a name.
fn push_name<'a>(
    list: &mut Vec<Listed<'a>>,
    name: &'a RuleName,
    places: &'a NamePlaces,
) -> Result<(), AllocError>
    ensures { OnOk result (map listed_entry list.new.items ≡ map listed_entry list.old.items ++ four_entries (name.now, places.now)) }
{
    push_place(list, name, None, places)?;
    push_place(list, name, Some(TabletType::Primary), places)?;
    push_place(list, name, Some(TabletType::Replica), places)?;
    push_place(list, name, Some(TabletType::Rdonly), places)
}

/// Adds the place of a name's key for a type or for all, if there is one.
fn push_place<'a>(
    list: &mut Vec<Listed<'a>>,
    name: &'a RuleName,
    tablet_type: Option<TabletType>,
    places: &'a NamePlaces,
) -> Result<(), AllocError>
    ensures { OnOk result (map listed_entry list.new.items ≡ map listed_entry list.old.items ++ entry_at (key_of name.now tablet_type) (place_at places.now tablet_type)) }
{
    if let Some(rule) = places.at(tablet_type) {
        list.push(Listed {
            name,
            tablet_type,
            rule,
        })?;
    }
    Ok(())
}

/// How many of the places have a rule. It looks at each once.
pub(crate) fn rule_count(names: &IndexMap<RuleName, NamePlaces>) -> usize
    requires { length (rules_in names.now.entries) ≤ most_rules }
    ensures value { result ≡ length (rule_routes (rules_in names.now.entries)) }
    ensures within { result ≤ most_rules }
{
    let _distinct = names.len();
    let mut count = 0;
    for (_, places) in names.iter() {
        count += places.rule_count();
    }
    count
}

/// The first key after another that has a place, or the first of all. It looks at each place once.
pub(crate) fn after(
    names: &IndexMap<RuleName, NamePlaces>,
    last: Option<&RuleKey>,
) -> Option<RuleKey>
    ensures { result ≡ first_after (option_copied last.entry) (rules_in names.now.entries) }
{
    let _distinct = names.len();
    let mut next = None;
    for (name, places) in names.iter() {
        look_at_name(&mut next, last, name, places);
    }
    next
}

/// What is found of the first key after another, with the places of one name more.
fn look_at_name(
    next: &mut Option<RuleKey>,
    last: Option<&RuleKey>,
    name: &RuleName,
    places: &NamePlaces,
)
    ensures { next.new ≡ nearest (option_copied last.entry) next.old (four_entries (name.now, places.now)) }
{
    look_at(next, last, name, None, places);
    look_at(next, last, name, Some(TabletType::Primary), places);
    look_at(next, last, name, Some(TabletType::Replica), places);
    look_at(next, last, name, Some(TabletType::Rdonly), places);
}

/// The same with the place of one key more, if there is one.
fn look_at(
    next: &mut Option<RuleKey>,
    last: Option<&RuleKey>,
    name: &RuleName,
    tablet_type: Option<TabletType>,
    places: &NamePlaces,
)
    ensures { next.new ≡ nearest (option_copied last.entry) next.old (entry_at (key_of name.now tablet_type) (place_at places.now tablet_type)) }
{
    if places.at(tablet_type).is_none() {
        return;
    }
    let key = name.key(tablet_type);
    if is_after(last, &key) && is_nearer(&key, next) {
        *next = Some(key);
    }
}

/// Whether a key comes after another, if there is one.
fn is_after(last: Option<&RuleKey>, key: &RuleKey) -> bool
    ensures { result ≡ is_after (option_copied last.entry) key.now }
{
    match last {
        Some(last) => comes_before(last, key),
        None => true,
    }
}

/// Whether a key comes before the one that was found, if one was.
fn is_nearer(key: &RuleKey, next: &Option<RuleKey>) -> bool
    ensures { result ≡ is_nearer key.now next.now }
{
    match next {
        Some(next) => comes_before(key, next),
        None => true,
    }
}

/// Whether a key comes before another.
fn comes_before(key: &RuleKey, other: &RuleKey) -> bool
    ensures { result ≡ key_before key.now other.now }
{
    compare(
        (key.tablet_type, key.keyspace.as_ref(), &key.table),
        (other.tablet_type, other.keyspace.as_ref(), &other.table),
    )
    .is_lt()
}

/// How the keys of two places stand to one another.
fn compare_places(place: &Listed<'_>, other: &Listed<'_>) -> Ordering
    ensures { result ≡ slice_cmp nat_cmp (key_code (listed_entry place.now).0) (key_code (listed_entry other.now).0) }
{
    compare(
        (
            place.tablet_type,
            place.name.keyspace.as_ref(),
            &place.name.table,
        ),
        (
            other.tablet_type,
            other.name.keyspace.as_ref(),
            &other.name.table,
        ),
    )
}

/// The parts of a key, in the order in which they count.
type Parts<'a> = (Option<TabletType>, Option<&'a KeyspaceName>, &'a TableName);

/// How two keys stand to one another: by their types, then by their keyspaces, then by their tables.
fn compare(key: Parts<'_>, other: Parts<'_>) -> Ordering
    ensures { result ≡ slice_cmp nat_cmp (key_code (key_of_parts key.entry)) (key_code (key_of_parts other.entry)) }
{
    let types = type_number(key.0).cmp(&type_number(other.0));
    let keyspaces = compare_keyspaces(key.1, other.1);
    let tables = key.2.as_str().cmp(other.2.as_str());
    types.then(keyspaces).then(tables)
}

/// How two keyspaces stand to one another: none before any, then by their lengths, then by their bytes.
fn compare_keyspaces(keyspace: Option<&KeyspaceName>, other: Option<&KeyspaceName>) -> Ordering
    ensures { result ≡ slice_cmp nat_cmp (keyspace_code (option_copied keyspace.entry)) (keyspace_code (option_copied other.entry)) }
{
    match (keyspace, other) {
        (None, None) => Ordering::Equal,
        (None, Some(_)) => Ordering::Less,
        (Some(_), None) => Ordering::Greater,
        (Some(keyspace), Some(other)) => {
            let keyspace = keyspace.as_str();
            let other = other.as_str();
            keyspace.len().cmp(&other.len()).then(keyspace.cmp(other))
        }
    }
}
