//! Operations on a row, as they stand in a line.
ghost use Rattle.std.specs.Prelude.{◌≡◌};
ghost use Rattle.mt_plain.specs.Script.{read_value};
ghost use Rattle.mt_script.specs.Lines.{op_from};

use mt_model::Op;
use mt_names::{MAX_VALUE_LENGTH, Value};
use std::marker::Model;

/// A value as it stands in a line, of at most 64 bytes. It is much smaller than the value, which is made where it is kept.
#[derive(Debug, Drop)]
pub struct ValueText<'a> {
    text: &'a str,
}

impl<'a> Model for ValueText<'a> {
    ghost use Rattle.std.specs.Prelude.{◌≤◌, length};
    ghost use Rattle.mt_model.specs.Limits.{longest_value};
    ghost use Rattle.mt_model.specs.Rows.{RowValue};

    ghost Value = { RowValue };

    ghost view = { λ value. record { items = value.text.now } };

    ghost invariant = { λ value. length value.text.now ≤ longest_value };
}

impl<'a> ValueText<'a> {
    /// The word as a value, if it isn't too long.
    pub(crate) fn of(text: &'a str) -> Option<ValueText<'a>>
        ensures { result ≡ read_value text.now }
    {
        if text.len() > MAX_VALUE_LENGTH {
            return None;
        }
        Some(ValueText { text })
    }
}

/// A verb behind whose name stand a number and a value.
#[derive(Clone, Copy, Debug)]
pub enum ValueVerb {
    /// `insert`.
    Insert,
    /// `update`.
    Update,
    /// `append`.
    Append,
}

/// An operation on a row, as it stands in a line.
#[derive(Debug, Drop)]
pub enum OpText<'a> {
    /// `insert NAME N V`, or `update`, `append`.
    Change(ValueVerb, u64, ValueText<'a>),
    /// `delete NAME N`.
    Delete(u64),
}

impl OpText<'_> {
    /// The operation.
    #[inline(always)]
    pub fn op(&self) -> Op
        ensures { result ≡ op_from self.now }
    {
        match self {
            OpText::Change(verb, key, word) => {
                let mut value = Value::new();
                let _fits = value.try_extend_from_slice(word.text.as_bytes());
                match verb {
                    ValueVerb::Insert => Op::Insert(*key, value),
                    ValueVerb::Update => Op::Update(*key, value),
                    ValueVerb::Append => Op::Append(*key, value),
                }
            }
            OpText::Delete(key) => Op::Delete(*key),
        }
    }
}
