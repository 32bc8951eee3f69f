//! Names that have a keyspace.
ghost use Rattle.std.specs.Prelude.{◌≡◌, None, Some, find, if◌then◌else◌, option_copied};
ghost use Rattle.mt_names.specs.Keys.{read_key};
ghost use Rattle.mt_plain.specs.Script.{is_qualified};
ghost use Rattle.mt_script.specs.Lines.{is_mark, table_read};

use mt_names::{NameFault, RuleKey, RuleTarget, TabletType};
use std::marker::Model;

/// The name of a table with its keyspace, as it is written: a dot stands before its first `@`. It may have a type.
#[derive(Debug, Drop)]
pub struct QualifiedName<'a> {
    text: &'a str,
}

impl<'a> Model for QualifiedName<'a> {
    ghost use Rattle.std.specs.Prelude.{◌≡◌, List, ℕ, true};
    ghost use Rattle.mt_plain.specs.Script.{is_qualified};

    ghost Value = { List ℕ };

    ghost view = { λ name. name.text.now };

    ghost invariant = { λ name. is_qualified name.text.now ≡ true };
}

impl<'a> QualifiedName<'a> {
    /// The name, if it has a keyspace.
    pub fn of(text: &'a str) -> Option<QualifiedName<'a>>
        ensures { result ≡ if is_qualified text.now then Some text.now else None }
    {
        if is_qualified(text) {
            Some(QualifiedName { text })
        } else {
            None
        }
    }

    /// Reads the name: the table in its keyspace, and the type that it is for, which is the primary where none is given. The first
    /// fault from left to right is answered, as `RuleKey::parse` does.
    pub fn parse(&self) -> Result<(RuleTarget, TabletType), NameFault>
        ensures { result ≡ table_read (read_key self.now) }
    {
        let RuleKey {
            keyspace,
            table,
            tablet_type,
        } = RuleKey::parse(self.text)?;
        let tablet_type = tablet_type.unwrap_or(TabletType::Primary);
        match keyspace {
            Some(keyspace) => Ok((RuleTarget { keyspace, table }, tablet_type)),
            None => unreachable!(),
        }
    }
}

/// The first byte of a name that is a dot or an at sign.
fn first_mark(name: &str) -> Option<&u8>
    ensures { option_copied result ≡ find is_mark name.now }
{
    name.as_bytes()
        .iter()
        .find(|&&byte| byte == b'.' || byte == b'@')
}

/// Whether a name has a keyspace: a dot before its first at sign.
fn is_qualified(name: &str) -> bool
    ensures { result ≡ is_qualified name.now }
{
    match first_mark(name) {
        Some(mark) => *mark == b'.',
        None => false,
    }
}
