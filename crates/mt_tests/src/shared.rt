//! Names and values that several hold: a value of at most 22 bytes takes no memory, and a longer one is refused where
//! there is none.

use mt_model::{SharedName, SharedValue};
use mt_names::{NameFault, TableName, Value};
use std::alloc::{AllocError, Global};

/// The longest value, of which each value here is the beginning.
const LONGEST: &[u8] = b"abcdefghijklmnopqrstuvwxyz0123456789ABCDEFGHIJKLMNOPQRSTUVWXYZ-_";

/// The longest value that stands in place.
const IN_PLACE: &[u8] = b"abcdefghijklmnopqrstuv";

/// The shortest value that takes memory of its own.
const BESIDE: &[u8] = b"abcdefghijklmnopqrstuvw";

/// A value of these bytes, at most 64.
fn value(bytes: &[u8]) -> Value {
    let mut value = Value::new();
    let _fits = value.try_extend_from_slice(bytes);
    value
}

/// Whether a value is given back as these bytes.
fn is_value(shared: &SharedValue, bytes: &[u8]) -> bool {
    shared.as_slice() == bytes && shared.value() == value(bytes)
}

/// Whether a value is given back as it was by each of three who hold it, and by two of them once the first is gone.
fn is_shared(first: SharedValue, bytes: &[u8]) -> Result<bool, AllocError> {
    let second = first.try_clone()?;
    let third = second.try_clone()?;
    let is_held = is_value(&first, bytes) && is_value(&second, bytes) && is_value(&third, bytes);
    drop(first);
    Ok(is_held && is_value(&second, bytes) && is_value(&third, bytes))
}

/// Whether a value is shared at once, or at a second try if it takes memory.
fn value_is_shared(alloc: Global, bytes: &[u8]) -> bool {
    let shared = match SharedValue::new(alloc, value(bytes)) {
        Err(_) if bytes.len() > 22 => SharedValue::new(alloc, value(bytes)),
        answer => answer,
    };
    match shared {
        Ok(shared) => is_shared(shared, bytes).unwrap_or(false),
        Err(_) => false,
    }
}

/// Whether values of these lengths are shared.
fn all_values_are_shared(alloc: Global, values: &[&[u8]]) -> bool {
    for bytes in values {
        if !value_is_shared(alloc, bytes) {
            return false;
        }
    }
    true
}

/// Whether a name is given back as it was, also once the first who held it is gone.
fn is_name(first: SharedName, name: &TableName) -> Result<bool, AllocError> {
    let second = first.try_clone()?;
    let is_held = first == second && first.name() == name && second.name() == name;
    drop(first);
    Ok(is_held && second.name() == name)
}

/// Whether a name is shared at once, or at a second try.
fn name_is_shared(alloc: Global, name: &str) -> Result<bool, NameFault> {
    let name = TableName::parse(name)?;
    let shared = match SharedName::new(alloc, name.copied()) {
        Err(_) => SharedName::new(alloc, name.copied()),
        answer => answer,
    };
    Ok(match shared {
        Ok(shared) => is_name(shared, &name).unwrap_or(false),
        Err(_) => false,
    })
}

#[test]
fn want_of_memory_is_no_other_answer(rt: HostRuntime) {
    assert!(rt; all_values_are_shared(rt.alloc(), &[b"", b"a", IN_PLACE, BESIDE, LONGEST]));
    assert!(rt; name_is_shared(rt.alloc(), "corder").unwrap_or(false));
}

/// Whether there is memory for a name.
fn has_memory(alloc: Global) -> Result<bool, NameFault> {
    Ok(SharedName::new(alloc, TableName::parse("corder")?).is_ok())
}

/// Passes as well where, from some allocation on, each fails: a long value is then refused if a name before it was.
#[test]
fn no_memory_is_asked_for(rt: HostRuntime) -> Result<(), NameFault> {
    let is_left = has_memory(rt.alloc())?;
    assert!(rt; value_is_shared(rt.alloc(), b"") && value_is_shared(rt.alloc(), IN_PLACE));
    assert!(rt; is_left || SharedValue::new(rt.alloc(), value(BESIDE)).is_err());
    assert!(rt; is_left || SharedValue::new(rt.alloc(), value(LONGEST)).is_err());
    Ok(())
}
