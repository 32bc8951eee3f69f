//! What a row holds, and where a log stands.
ghost use Rattle.std.specs.Prelude.{◌≡◌};

use arrayvec::ArrayVec;

/// The longest value of a row, in bytes.
pub const MAX_VALUE_LENGTH: usize = 64;

/// The value of a row: at most 64 bytes.
pub type Value = ArrayVec<u8, MAX_VALUE_LENGTH>;

/// A position in a log: how many entries stand before it.
pub type Position = u64;

/// A copy of a value. It takes no memory.
pub fn copied_value(value: &Value) -> Value
    ensures { result ≡ value.now }
{
    let mut copy = Value::new();
    let _fits = copy.try_extend_from_slice(value);
    copy
}
