//! The names of keyspaces, tables and workflows.
ghost use Rattle.std.specs.Prelude.{◌≡◌, ◌↔◌, Some, IsOk};
ghost use Rattle.mt_names.specs.Names.{IsKeyspaceName, IsTableName, IsWorkflowName, read_keyspace, read_table, read_workflow};

use crate::NameFault;
use crate::text::{Alphabet, Text};
use std::default::MadeWith;
use std::fmt;
use std::marker::Model;

/// How the workflow that runs back is named after its own; no other name ends so.
const REVERSE_SUFFIX: &str = "_reverse";

/// The name of a keyspace, a database that may lie on several shards: 1 to 64 ASCII letters, digits, `_` and
/// `-`, of which the first is no `-`.
#[derive(Debug, Drop, Eq, Hash, Ord, PartialEq, PartialOrd)]
pub struct KeyspaceName {
    text: Text,
}

impl Model for KeyspaceName {
    ghost use Rattle.std.specs.Prelude.{List, ℕ};
    ghost use Rattle.mt_names.specs.Names.{IsKeyspaceName};

    ghost Value = { List ℕ };

    ghost view = { λ name. name.text };

    ghost invariant = { λ name. IsKeyspaceName name.text };

    ghost inverse = { λ bytes. record { text = bytes } };
}

impl KeyspaceName {
    /// Reads a name. The first of these that holds is answered: `N1 Empty`, `N2 TooLong` past 64 bytes,
    /// `N3 BadByte` with the place of the first byte that may not stand there.
    pub fn parse(text: &str) -> Result<Self, NameFault>
        ensures value { result ≡ read_keyspace text.now }
        ensures grammar { IsOk result ↔ IsKeyspaceName text.now }
    {
        let text = Text::parse(text, Alphabet::Plain)?;
        Ok(KeyspaceName { text })
    }

    /// The name as a text.
    pub fn as_str(&self) -> &str
        ensures value { result.now ≡ self.now }
        ensures name { IsKeyspaceName self.now }
    {
        self.text.as_str()
    }

    /// A copy. It takes no memory.
    pub fn copied(&self) -> Self
        ensures { result ≡ self.now }
    {
        KeyspaceName {
            text: self.text.copied(),
        }
    }
}

/// The blank that an `ArrayVec` of names keeps in its unused places.
impl MadeWith<()> for KeyspaceName {
    fn made_with(_alloc: ()) -> Self {
        KeyspaceName {
            text: Text::blank(),
        }
    }
}

impl fmt::Display for KeyspaceName {
    ghost output = { λ name. Some name };

    fn fmt<W: fmt::Write>(&self, f: &mut fmt::Formatter<W>) -> fmt::Result {
        f.pad(self.as_str())
    }
}

/// The name of a table: as that of a keyspace, and `$` may stand in it too.
#[derive(Debug, Drop, Eq, Hash, Ord, PartialEq, PartialOrd)]
pub struct TableName {
    text: Text,
}

impl Model for TableName {
    ghost use Rattle.std.specs.Prelude.{List, ℕ};
    ghost use Rattle.mt_names.specs.Names.{IsTableName};

    ghost Value = { List ℕ };

    ghost view = { λ name. name.text };

    ghost invariant = { λ name. IsTableName name.text };

    ghost inverse = { λ bytes. record { text = bytes } };
}

impl TableName {
    /// Reads a name. The first of these that holds is answered: `N1 Empty`, `N2 TooLong` past 64 bytes,
    /// `N3 BadByte` with the place of the first byte that may not stand there.
    pub fn parse(text: &str) -> Result<Self, NameFault>
        ensures value { result ≡ read_table text.now }
        ensures grammar { IsOk result ↔ IsTableName text.now }
    {
        let text = Text::parse(text, Alphabet::WithDollar)?;
        Ok(TableName { text })
    }

    /// The name as a text.
    pub fn as_str(&self) -> &str
        ensures value { result.now ≡ self.now }
        ensures name { IsTableName self.now }
    {
        self.text.as_str()
    }

    /// A copy. It takes no memory.
    pub fn copied(&self) -> Self
        ensures { result ≡ self.now }
    {
        TableName {
            text: self.text.copied(),
        }
    }
}

/// The blank that an `ArrayVec` of names keeps in its unused places.
impl MadeWith<()> for TableName {
    fn made_with(_alloc: ()) -> Self {
        TableName {
            text: Text::blank(),
        }
    }
}

impl fmt::Display for TableName {
    ghost output = { λ name. Some name };

    fn fmt<W: fmt::Write>(&self, f: &mut fmt::Formatter<W>) -> fmt::Result {
        f.pad(self.as_str())
    }
}

/// The name of a workflow, as Vitess names a run of MoveTables: as that of a keyspace, and it does not end in
/// `_reverse`, which names the workflow that runs back.
#[derive(Debug, Drop, Eq, Hash, Ord, PartialEq, PartialOrd)]
pub struct WorkflowName {
    text: Text,
}

impl Model for WorkflowName {
    ghost use Rattle.std.specs.Prelude.{List, ℕ};
    ghost use Rattle.mt_names.specs.Names.{IsWorkflowName};

    ghost Value = { List ℕ };

    ghost view = { λ name. name.text };

    ghost invariant = { λ name. IsWorkflowName name.text };

    ghost inverse = { λ bytes. record { text = bytes } };
}

impl WorkflowName {
    /// Reads a name. The first of these that holds is answered: `N1 Empty`, `N2 TooLong` past 64 bytes,
    /// `N3 BadByte` with the place of the first byte that may not stand there, `N5 ReservedSuffix`.
    pub fn parse(text: &str) -> Result<Self, NameFault>
        ensures value { result ≡ read_workflow text.now }
        ensures grammar { IsOk result ↔ IsWorkflowName text.now }
    {
        let text = Text::parse(text, Alphabet::Plain)?;
        if text.as_str().ends_with(REVERSE_SUFFIX) {
            return Err(NameFault::ReservedSuffix);
        }
        Ok(WorkflowName { text })
    }

    /// The name as a text.
    pub fn as_str(&self) -> &str
        ensures value { result.now ≡ self.now }
        ensures name { IsWorkflowName self.now }
    {
        self.text.as_str()
    }

    /// A copy. It takes no memory.
    pub fn copied(&self) -> Self
        ensures { result ≡ self.now }
    {
        WorkflowName {
            text: self.text.copied(),
        }
    }
}

impl fmt::Display for WorkflowName {
    ghost output = { λ name. Some name };

    fn fmt<W: fmt::Write>(&self, f: &mut fmt::Formatter<W>) -> fmt::Result {
        f.pad(self.as_str())
    }
}
