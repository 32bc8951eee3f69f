//! A row's value that several hold.
ghost use Rattle.std.specs.Prelude.{◌≡◌, ◌≤◌, IfOk, IsOk, length};

use crate::short::ShortValue;
use mt_names::{Value, copied_value};
use std::alloc::{AllocError, Global};
use std::marker::Model;
use std::sync::Arc;

/// Where the bytes of a value stand.
#[derive(Drop)]
enum Place {
    /// In place.
    Here(ShortValue),
    /// In memory of their own, which all who hold the value share.
    Shared(Arc<Value>),
}

/// The value of a row, which rows and entries of a log share: contracts see it as its bytes. A short one stands in
/// place, a longer one in memory of its own, for which its holders are counted.
#[derive(Drop)]
pub struct SharedValue {
    place: Place,
}

impl Model for SharedValue {
    ghost use Rattle.std.specs.Prelude.{ℕ};
    ghost use Rattle.arrayvec.specs.ArrayVec.{ArrayVec};
    ghost use Rattle.mt_model.specs.Values.{bytes_at};

    ghost Value = { ArrayVec ℕ };

    ghost view = { λ value. bytes_at value.place };
}

impl SharedValue {
    /// The value, to be shared. It is refused if there is no memory for it; one of at most 22 bytes takes none.
    pub fn new(alloc: Global, value: Value) -> Result<Self, AllocError>
        ensures value { IfOk result (λ shared. shared ≡ value) }
        ensures short { length value.items ≤ 22 → IsOk result }
    {
        let place = match ShortValue::of(&value) {
            Some(short) => Place::Here(short),
            None => Place::Shared(Arc::new(alloc, value)?),
        };
        Ok(SharedValue { place })
    }

    /// The value, for one holder more. It takes no memory, and is refused if its holders can't be counted any
    /// further.
    pub fn try_clone(&self) -> Result<Self, AllocError>
        ensures value { IfOk result (λ shared. shared ≡ self.now) }
    {
        let place = match &self.place {
            Place::Here(short) => Place::Here(short.copied()),
            Place::Shared(value) => Place::Shared(Arc::try_clone(value)?),
        };
        Ok(SharedValue { place })
    }

    /// Its bytes.
    pub fn as_slice(&self) -> &[u8]
        ensures { result.now ≡ self.now.items }
    {
        match &self.place {
            Place::Here(short) => short.as_slice(),
            Place::Shared(value) => value.as_slice(),
        }
    }

    /// A copy of it that nobody shares. It takes no memory.
    pub fn value(&self) -> Value
        ensures { result ≡ self.now }
    {
        match &self.place {
            Place::Here(short) => short.value(),
            Place::Shared(value) => copied_value(value),
        }
    }
}
