//! Operations on rows, and what a log keeps of them.
ghost use Rattle.std.specs.Prelude.{◌≡◌};
ghost use Rattle.mt_model.specs.Rows.{op_key};

use crate::{SharedName, SharedValue};
use mt_names::{Value, copied_value};

/// A client's write to one row of a table.
#[derive(Debug, Drop, Eq, PartialEq)]
pub enum Op {
    /// Makes a row that isn't there.
    Insert(u64, Value),
    /// Sets the value of a row that is there.
    Update(u64, Value),
    /// Adds bytes at the end of the value of a row that is there.
    Append(u64, Value),
    /// Takes away a row that is there.
    Delete(u64),
}

impl Op {
    /// The key of the row.
    pub fn key(&self) -> u64
        ensures { result ≡ op_key self.now }
    {
        match self {
            Op::Insert(key, _) | Op::Update(key, _) | Op::Append(key, _) | Op::Delete(key) => *key,
        }
    }

    /// A copy. It takes no memory.
    pub fn copied(&self) -> Self
        ensures { result ≡ self.now }
    {
        match self {
            Op::Insert(key, value) => Op::Insert(*key, copied_value(value)),
            Op::Update(key, value) => Op::Update(*key, copied_value(value)),
            Op::Append(key, value) => Op::Append(*key, copied_value(value)),
            Op::Delete(key) => Op::Delete(*key),
        }
    }
}

/// An entry of a primary's log: the row before a change, and after it. Its values it shares with the row and with other
/// entries, its name with the table.
#[derive(Drop)]
pub struct RowChange {
    /// The table.
    pub table: SharedName,
    /// The key of the row.
    pub key: u64,
    /// The row before, if there was one.
    pub before: Option<SharedValue>,
    /// The row after, if there is one.
    pub after: Option<SharedValue>,
}
