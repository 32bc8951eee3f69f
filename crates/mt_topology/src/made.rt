//! What was made of a part, so that it can be taken back.
use mt_names::{KeyspaceName, TableName, TabletType};

/// Places that were made together, by the names that the part lends.
#[derive(Clone, Copy)]
pub(crate) enum Made<'a> {
    /// Those of a name's four rule keys.
    Name(Option<&'a KeyspaceName>, &'a TableName),
    /// That of one of them.
    Rule(Option<&'a KeyspaceName>, &'a TableName, Option<TabletType>),
    /// That of a table's denial at a keyspace.
    Denied(&'a KeyspaceName, &'a TableName),
    /// That of a table's presence in a keyspace.
    Present(&'a KeyspaceName, &'a TableName),
}
