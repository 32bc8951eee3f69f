//! A value that is short enough to stand in place.
ghost use Rattle.std.specs.Prelude.{◌≡◌, ◌≤◌, IfSome, IsSome, length};

use mt_names::Value;
use std::marker::Model;

/// The longest value that stands in place, in bytes: beside its length, and beside what tells it from one that is
/// shared, it takes three words.
pub const MAX_SHORT_LENGTH: usize = 22;

/// A value of at most 22 bytes, in place.
#[derive(Drop)]
pub struct ShortValue {
    length: u8,
    bytes: [u8; MAX_SHORT_LENGTH],
}

impl Model for ShortValue {
    ghost use Rattle.std.specs.Prelude.{List, ℕ, take, ◌≤◌};

    ghost Value = { List ℕ };

    ghost view = { λ value. take value.length value.bytes };

    ghost invariant = { λ value. value.length ≤ 22 };
}

impl ShortValue {
    /// The value of these bytes, if they are few enough.
    pub fn of(value: &[u8]) -> Option<Self>
        ensures value { IfSome result (λ short. short ≡ value.now) }
        ensures few { length value.now ≤ 22 → IsSome result }
    {
        if value.len() > MAX_SHORT_LENGTH {
            return None;
        }
        let mut bytes = [0; MAX_SHORT_LENGTH];
        bytes[..value.len()].copy_from_slice(value);
        Some(ShortValue {
            length: value.len() as u8,
            bytes,
        })
    }

    /// A copy.
    pub fn copied(&self) -> Self
        ensures { result ≡ self.now }
    {
        ShortValue {
            length: self.length,
            bytes: self.bytes,
        }
    }

    /// A copy of it as any value is kept.
    pub fn value(&self) -> Value
        ensures { result.items ≡ self.now }
    {
        let mut value = Value::new();
        let _fits = value.try_extend_from_slice(self.as_slice());
        value
    }

    /// Its bytes.
    pub fn as_slice(&self) -> &[u8]
        ensures value { result.now ≡ self.now }
        ensures short { length result.now ≤ 22 }
    {
        &self.bytes[..usize::from(self.length)]
    }
}
