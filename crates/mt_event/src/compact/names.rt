//! The names of keyspaces and of tables, as they are kept.
ghost use Rattle.std.specs.Prelude.{◌≡◌, ◌≤◌, ◌↔◌, true, IfOk, length};
ghost use Rattle.std.specs.Str.{IsAscii};

use mt_model::SharedValue;
use mt_names::{KeyspaceName, TableName, Value};
use std::alloc::{AllocError, Global};
use std::marker::Model;

/// The name of a keyspace. One of at most 22 bytes stands in place, a longer one in memory that all who keep it share.
#[derive(Drop)]
pub struct CompactKeyspace {
    bytes: SharedValue,
}

impl Model for CompactKeyspace {
    ghost use Rattle.std.specs.Prelude.{List, ℕ};
    ghost use Rattle.mt_names.specs.Names.{IsKeyspaceName};

    ghost Value = { List ℕ };

    ghost view = { λ kept. kept.bytes.items };

    ghost invariant = { λ kept. IsKeyspaceName kept.bytes.items };
}

/// The name of a table. One of at most 22 bytes stands in place, a longer one in memory that all who keep it share.
#[derive(Drop)]
pub struct CompactTable {
    bytes: SharedValue,
}

impl Model for CompactTable {
    ghost use Rattle.std.specs.Prelude.{List, ℕ};
    ghost use Rattle.mt_names.specs.Names.{IsTableName};

    ghost Value = { List ℕ };

    ghost view = { λ kept. kept.bytes.items };

    ghost invariant = { λ kept. IsTableName kept.bytes.items };
}

/// The bytes of a text, as many as a value may have. They are refused only when out of memory.
fn kept_bytes(alloc: Global, text: &str) -> Result<SharedValue, AllocError>
    requires { length text.now ≤ 64 }
    ensures { IfOk result (λ bytes. bytes.items ≡ text.now) }
{
    let mut value = Value::new();
    let _fits = value.try_extend_from_slice(text.as_bytes());
    SharedValue::new(alloc, value)
}

/// Whether two values have the same bytes.
pub(crate) fn are_same(one: &SharedValue, other: &SharedValue) -> bool
    ensures { (result ≡ true) ↔ (one.now.items ≡ other.now.items) }
{
    one.as_slice() == other.as_slice()
}

/// ASCII bytes as a text.
fn text_of(bytes: &[u8]) -> &str
    requires { IsAscii bytes.now }
    ensures { result.now ≡ bytes.now }
{
    match str::from_utf8(bytes) {
        Ok(text) => text,
        Err(_) => unreachable!(),
    }
}

impl CompactKeyspace {
    /// A name, to be kept. It is refused only when out of memory.
    pub fn new(alloc: Global, name: &KeyspaceName) -> Result<Self, AllocError>
        ensures { IfOk result (λ kept. kept ≡ name.now) }
    {
        let bytes = kept_bytes(alloc, name.as_str())?;
        Ok(CompactKeyspace { bytes })
    }

    /// The name, for one more who keeps it. It takes no memory.
    pub fn again(&self) -> Result<Self, AllocError>
        ensures { IfOk result (λ kept. kept ≡ self.now) }
    {
        Ok(CompactKeyspace {
            bytes: self.bytes.try_clone()?,
        })
    }

    /// Whether another one is the same name. It takes no memory.
    pub fn is_same(&self, other: &Self) -> bool
        ensures { (result ≡ true) ↔ (self.now ≡ other.now) }
    {
        are_same(&self.bytes, &other.bytes)
    }

    /// The name. It takes no memory.
    pub fn name(&self) -> KeyspaceName
        ensures { result ≡ self.now }
    {
        match KeyspaceName::parse(text_of(self.bytes.as_slice())) {
            Ok(name) => name,
            Err(_) => unreachable!(),
        }
    }
}

impl CompactTable {
    /// A name, to be kept. It is refused only when out of memory.
    pub fn new(alloc: Global, name: &TableName) -> Result<Self, AllocError>
        ensures { IfOk result (λ kept. kept ≡ name.now) }
    {
        let bytes = kept_bytes(alloc, name.as_str())?;
        Ok(CompactTable { bytes })
    }

    /// The name, for one more who keeps it. It takes no memory.
    pub fn again(&self) -> Result<Self, AllocError>
        ensures { IfOk result (λ kept. kept ≡ self.now) }
    {
        Ok(CompactTable {
            bytes: self.bytes.try_clone()?,
        })
    }

    /// Whether another one is the same name. It takes no memory.
    pub fn is_same(&self, other: &Self) -> bool
        ensures { (result ≡ true) ↔ (self.now ≡ other.now) }
    {
        are_same(&self.bytes, &other.bytes)
    }

    /// The name. It takes no memory.
    pub fn name(&self) -> TableName
        ensures { result ≡ self.now }
    {
        match TableName::parse(text_of(self.bytes.as_slice())) {
            Ok(name) => name,
            Err(_) => unreachable!(),
        }
    }
}
