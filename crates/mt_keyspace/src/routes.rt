//! The routes of a keyspace: the tables that are there, listed, counted, and found by their index. To count them or to find one
//! takes no memory; it looks at each place, or at each before it.
ghost use Rattle.std.specs.Prelude.{◌≡◌, ◌≤◌, ◌++◌, OnOk, length, [], slice_get};
ghost use Rattle.mt_model.specs.Documents.{marked};
ghost use Rattle.mt_model.specs.Limits.{most_tables_in_keyspace};
ghost use Rattle.mt_model.specs.Part.{table_routes};

use indexmap::IndexMap;
use mt_model::Entry;
use mt_names::{KeyspaceName, TableName};
use std::alloc::AllocError;

/// Adds the entries of the tables of a keyspace that are there to a list, in the order of their places.
pub(crate) fn push_routes(
    name: &KeyspaceName,
    places: &IndexMap<TableName, bool>,
    list: &mut Vec<Entry>,
) -> Result<(), AllocError>
    ensures { OnOk result (list.new.items ≡ list.old.items ++ table_routes (name.now, record { cuts = []; tables = places.now.entries; denied = [] })) }
{
    for (table, is_there) in places.iter() {
        if *is_there {
            list.push(Entry::Present(name.copied(), table.copied(), true))?;
        }
    }
    Ok(())
}

/// How many tables of a keyspace are there.
pub(crate) fn table_count(places: &IndexMap<TableName, bool>) -> usize
    requires { length places.now.entries ≤ most_tables_in_keyspace }
    ensures value { result ≡ length (marked places.now.entries) }
    ensures within { result ≤ most_tables_in_keyspace }
{
    let mut count = 0;
    for (_, is_there) in places.iter() {
        if *is_there {
            count += 1;
        }
    }
    count
}

/// The entry of a table of a keyspace that is there, by its index among those.
pub(crate) fn table_entry(
    name: &KeyspaceName,
    places: &IndexMap<TableName, bool>,
    index: usize,
) -> Option<Entry>
    ensures { result ≡ slice_get (table_routes (name.now, record { cuts = []; tables = places.now.entries; denied = [] })) index }
{
    let mut before = index;
    for (table, is_there) in places.iter() {
        if *is_there {
            if before == 0 {
                return Some(Entry::Present(name.copied(), table.copied(), true));
            }
            before -= 1;
        }
    }
    None
}
