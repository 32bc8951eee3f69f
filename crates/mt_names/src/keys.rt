//! Routing rules' keys and targets.
ghost use Rattle.std.specs.Prelude.{◌≡◌, ℕ, ◌+◌, ◌-◌, ◌^◌, ◌<◌, ◌↔◌, Some, Ok, IsOk, List, length, option_copied};
ghost use Rattle.std.specs.Option.{ForSome};

use crate::{KeyspaceName, NameFault, TableName, TabletType};
use arrayvec::ArrayString;
use std::fmt;
use std::hash::{Hash, Hasher};

/// The longest key in bytes: two names of 64, the dot, the `@` and a type of 7.
const MAX_KEY_LENGTH: usize = 137;

/// What a routing rule applies to, its from-table: a table by its name alone or in a keyspace, for all tablet
/// types or for one.
#[derive(Debug, Drop, Eq, Ord, PartialEq, PartialOrd)]
pub struct RuleKey {
    /// The keyspace, where the name is qualified.
    pub keyspace: Option<KeyspaceName>,
    /// The table.
    pub table: TableName,
    /// The one type that the rule is for; else it is for all.
    pub tablet_type: Option<TabletType>,
}

/// Where a routing rule leads, its to-table: a table in a keyspace.
#[derive(Debug, Drop, Eq, Hash, Ord, PartialEq, PartialOrd)]
pub struct RuleTarget {
    /// The keyspace.
    pub keyspace: KeyspaceName,
    /// The table.
    pub table: TableName,
}

ghost use Rattle.mt_names.specs.Keys.{IsRuleKey, IsRuleTarget, IsKeyText, IsTargetText, key_text, target_text, read_key, read_target, read_key_type, read_plain_key, read_target_parts, before, after, fault_behind};
ghost use Rattle.mt_names.specs.Names.{read_table};
ghost use Rattle.mt_names.specs.Hashes.{key_input, type_number};
ghost use Rattle.std.specs.Cmp.Rules.{hashing};
ghost use Rattle.std.proofs.Common.{rules};

/// The text before the first mark, and what stands after it, where there is one.
pub fn cut(text: &str, mark: char) -> (&str, Option<&str>)
    requires { mark < 128 }
    ensures front { result.0.now ≡ before mark text.now }
    ensures rest { option_copied result.1 ≡ after mark text.now }
{
    match text.split_once(mark) {
        Some((front, rest)) => (front, Some(rest)),
        None => (text, None),
    }
}

/// Reads a table's name behind `front` bytes of the whole text, by which a fault's place is told.
pub fn table_behind(front: usize, text: &str) -> Result<TableName, NameFault>
    requires { front + length text.now < 2 ^ 64 }
    ensures { result ≡ fault_behind front (read_table text.now) }
{
    match TableName::parse(text) {
        Err(NameFault::BadByte(place)) => Err(NameFault::BadByte(front + place)),
        read => read,
    }
}

/// Reads a target of a keyspace and of a table that stands behind it and a dot.
fn target_of(keyspace: &str, table: &str) -> Result<RuleTarget, NameFault>
    requires { length keyspace.now + length table.now < 2 ^ 64 - 1 }
    ensures { result ≡ read_target_parts keyspace.now table.now }
{
    let front = keyspace.len() + 1;
    let keyspace = KeyspaceName::parse(keyspace)?;
    let table = table_behind(front, table)?;
    Ok(RuleTarget { keyspace, table })
}

/// Reads a key for all types: a table alone, or a keyspace and a table.
fn plain_key(name: &str, table: Option<&str>) -> Result<RuleKey, NameFault>
    requires { ForSome table (λ t. length name.now + length t.now < 2 ^ 64 - 1) }
    ensures { result ≡ read_plain_key name.now (option_copied table.entry) }
{
    match table {
        None => Ok(RuleKey {
            keyspace: None,
            table: TableName::parse(name)?,
            tablet_type: None,
        }),
        Some(table) => {
            let target = target_of(name, table)?;
            Ok(RuleKey {
                keyspace: Some(target.keyspace),
                table: target.table,
                tablet_type: None,
            })
        }
    }
}

/// The key for the one type that the word names, where there is a word.
fn key_of_type(key: RuleKey, word: Option<&str>) -> Result<RuleKey, NameFault>
    ensures { result ≡ read_key_type key (option_copied word.entry) }
{
    match word {
        None => Ok(key),
        Some(word) => Ok(RuleKey {
            tablet_type: Some(TabletType::parse(word)?),
            ..key
        }),
    }
}

impl RuleKey {
    /// Reads a key: `table` or `keyspace.table`, each plain or followed by `@primary`, `@replica` or `@rdonly`.
    /// The text is cut at its first `@`, and what stands before it at its first dot. The first fault from left to
    /// right is answered: those of the keyspace's name, of the table's name, and `N6 BadType`.
    pub fn parse(text: &str) -> Result<Self, NameFault>
        ensures value { result ≡ read_key text.now }
        ensures grammar { IsOk result ↔ IsKeyText text.now }
    {
        let (name, type_word) = cut(text, '@');
        let (front, rest) = cut(name, '.');
        let key = plain_key(front, rest)?;
        key_of_type(key, type_word)
    }

    /// The key as a text, by which it is read back.
    pub fn text(&self) -> ArrayString<MAX_KEY_LENGTH>
        ensures bytes { result.bytes ≡ key_text self.now }
        ensures key { IsRuleKey self.now }
        ensures read_back { read_key (key_text self.now) ≡ Ok self.now }
    {
        let mut text = ArrayString::new();
        if let Some(keyspace) = &self.keyspace {
            text.push_str(keyspace.as_str());
            text.push('.');
        }
        text.push_str(self.table.as_str());
        if let Some(tablet_type) = self.tablet_type {
            text.push('@');
            text.push_str(tablet_type.as_str());
        }
        text
    }
    /// A copy. It takes no memory.
    pub fn copied(&self) -> Self
        ensures { result ≡ self.now }
    {
        RuleKey {
            keyspace: self.keyspace.as_ref().map(KeyspaceName::copied),
            table: self.table.copied(),
            tablet_type: self.tablet_type,
        }
    }
}

/// A key feeds a hasher one number for its type, and its names without the marks that a text's own hash sets behind them.
impl Hash for RuleKey {
    ghost hash_input = { key_input };

    ghost respects_eq = { Prim.search (hashing, rules) };

    fn hash<H: Hasher>(&self, state: &mut H) {
        state.write_u8(type_number(self.tablet_type));
        state.write(self.table.as_str().as_bytes());
        if let Some(keyspace) = &self.keyspace {
            state.write(keyspace.as_str().as_bytes());
        }
    }
}

/// The number of the type that a key is for, by which keys are hashed and ordered: 0 where it is for all.
pub fn type_number(tablet_type: Option<TabletType>) -> u8
    ensures { result ≡ type_number tablet_type }
{
    match tablet_type {
        None => 0,
        Some(TabletType::Primary) => 1,
        Some(TabletType::Replica) => 2,
        Some(TabletType::Rdonly) => 3,
    }
}

impl RuleTarget {
    /// Reads a target: `keyspace.table`, cut at its first dot. `N1 Empty` of an empty text, then `N8 NoKeyspace`
    /// where there is no dot, then the first fault of the keyspace's name and of the table's.
    pub fn parse(text: &str) -> Result<Self, NameFault>
        ensures value { result ≡ read_target text.now }
        ensures grammar { IsOk result ↔ IsTargetText text.now }
    {
        if text.is_empty() {
            return Err(NameFault::Empty);
        }
        let (keyspace, rest) = cut(text, '.');
        match rest {
            None => Err(NameFault::NoKeyspace),
            Some(table) => target_of(keyspace, table),
        }
    }

    /// The target as a text, by which it is read back.
    pub fn text(&self) -> ArrayString<MAX_KEY_LENGTH>
        ensures bytes { result.bytes ≡ target_text self.now }
        ensures target { IsRuleTarget self.now }
        ensures read_back { read_target (target_text self.now) ≡ Ok self.now }
    {
        let mut text = ArrayString::new();
        text.push_str(self.keyspace.as_str());
        text.push('.');
        text.push_str(self.table.as_str());
        text
    }

    /// A copy of the target. It takes no memory.
    pub fn copied(&self) -> Self
        ensures { result ≡ self.now }
    {
        RuleTarget {
            keyspace: self.keyspace.copied(),
            table: self.table.copied(),
        }
    }
}

impl fmt::Display for RuleKey {
    ghost output = { λ key. Some (key_text key) };

    fn fmt<W: fmt::Write>(&self, f: &mut fmt::Formatter<W>) -> fmt::Result {
        f.pad(self.text().as_str())
    }
}

impl fmt::Display for RuleTarget {
    ghost output = { λ target. Some (target_text target) };

    fn fmt<W: fmt::Write>(&self, f: &mut fmt::Formatter<W>) -> fmt::Result {
        f.pad(self.text().as_str())
    }
}

/// A key has one spelling: a text that is read as a key is the text of that key.
pub fn key_has_one_spelling()
    ensures { (text : List ℕ) (key : RuleKey) → read_key text ≡ Ok key → key_text key ≡ text }
{}

/// A target has one spelling: a text that is read as a target is the text of that target.
pub fn target_has_one_spelling()
    ensures { (text : List ℕ) (target : RuleTarget) → read_target text ≡ Ok target → target_text target ≡ text }
{}
