//! Lists of tables.
ghost use Rattle.std.specs.Prelude.{◌≡◌, ◌≤◌, length};
ghost use Rattle.mt_names.specs.Tables.{most_tables};

use arrayvec::ArrayVec;
use mt_names::{MAX_TABLES, TableName};
use std::marker::Model;

/// Tables that are lent, 16 at most, as a workflow has them.
#[derive(Debug, Drop)]
pub struct Tables<'a> {
    tables: &'a [TableName],
}

impl<'a> Model for Tables<'a> {
    ghost use Rattle.std.specs.Prelude.{◌≤◌, List, ℕ, length};
    ghost use Rattle.mt_names.specs.Tables.{most_tables};

    ghost Value = { List (List ℕ) };

    ghost view = { λ lent. lent.tables.now };

    ghost invariant = { λ lent. length lent.tables.now ≤ most_tables };
}

impl<'a> Tables<'a> {
    /// These tables.
    pub fn new(tables: &'a [TableName]) -> Self
        requires { length tables.now ≤ most_tables }
        ensures { result ≡ tables.now }
    {
        Tables { tables }
    }

    /// The tables, in their order.
    pub fn as_slice(&self) -> &[TableName]
        ensures tables { result.now ≡ self.now }
        ensures few { length self.now ≤ most_tables }
    {
        self.tables
    }
}

/// A copy of the tables, as a list of its own. It takes no memory.
pub(crate) fn copied_tables(tables: &[TableName]) -> ArrayVec<TableName, MAX_TABLES>
    requires { length tables.now ≤ most_tables }
    ensures { result.items ≡ tables.now }
{
    let mut list = ArrayVec::new_in(());
    for table in tables {
        list.push(table.copied());
    }
    list
}
