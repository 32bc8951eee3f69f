//! What is done to a row, as it is kept.
ghost use Rattle.std.specs.Prelude.{◌≡◌, ◌↔◌, true, IfOk};

use crate::compact::names::are_same;
use mt_model::{Op, SharedValue};
use mt_names::{Value, copied_value};
use std::alloc::{AllocError, Global};
use std::marker::Model;

/// What is done to a row.
#[derive(Drop)]
enum Done {
    Insert(u64, SharedValue),
    Update(u64, SharedValue),
    Append(u64, SharedValue),
    Delete(u64),
}

/// What is done to a row. A value of at most 22 bytes stands in place, a longer one in memory that all who keep it share.
#[derive(Drop)]
pub struct CompactOp {
    done: Done,
}

impl Model for CompactOp {
    ghost use Rattle.mt_model.specs.declared.rows.Op.{Op};
    ghost use Rattle.mt_event.specs.CompactOps.{op_from};

    ghost Value = { Op };

    ghost view = { λ kept. op_from kept.done };
}

/// A value, to be kept. It is refused only when out of memory.
fn kept_value(alloc: Global, value: &Value) -> Result<SharedValue, AllocError>
    ensures { IfOk result (λ kept. kept ≡ value.now) }
{
    SharedValue::new(alloc, copied_value(value))
}

impl CompactOp {
    /// What is done to a row, to be kept. It is refused only when out of memory.
    pub fn new(alloc: Global, op: &Op) -> Result<Self, AllocError>
        ensures { IfOk result (λ kept. kept ≡ op.now) }
    {
        let done = match op {
            Op::Insert(key, value) => Done::Insert(*key, kept_value(alloc, value)?),
            Op::Update(key, value) => Done::Update(*key, kept_value(alloc, value)?),
            Op::Append(key, value) => Done::Append(*key, kept_value(alloc, value)?),
            Op::Delete(key) => Done::Delete(*key),
        };
        Ok(CompactOp { done })
    }

    /// What is done, for one more who keeps it. It takes no memory.
    pub fn again(&self) -> Result<Self, AllocError>
        ensures { IfOk result (λ kept. kept ≡ self.now) }
    {
        let done = match &self.done {
            Done::Insert(key, value) => Done::Insert(*key, value.try_clone()?),
            Done::Update(key, value) => Done::Update(*key, value.try_clone()?),
            Done::Append(key, value) => Done::Append(*key, value.try_clone()?),
            Done::Delete(key) => Done::Delete(*key),
        };
        Ok(CompactOp { done })
    }

    /// Whether another one is the same. It takes no memory.
    pub fn is_same(&self, other: &Self) -> bool
        ensures { (result ≡ true) ↔ (self.now ≡ other.now) }
    {
        match (&self.done, &other.done) {
            (Done::Insert(key, value), Done::Insert(its_key, its_value))
            | (Done::Update(key, value), Done::Update(its_key, its_value))
            | (Done::Append(key, value), Done::Append(its_key, its_value)) => {
                key == its_key && are_same(value, its_value)
            }
            _ => self.op() == other.op(),
        }
    }

    /// A copy. It takes no memory.
    pub fn op(&self) -> Op
        ensures { result ≡ self.now }
    {
        match &self.done {
            Done::Insert(key, value) => Op::Insert(*key, value.value()),
            Done::Update(key, value) => Op::Update(*key, value.value()),
            Done::Append(key, value) => Op::Append(*key, value.value()),
            Done::Delete(key) => Op::Delete(*key),
        }
    }
}
