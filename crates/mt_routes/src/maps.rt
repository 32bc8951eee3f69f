//! Copies of maps, of what stands there.
ghost use Rattle.std.specs.Prelude.{◌≡◌, ◌++◌, ◌∷◌, [], IfOk, None, OnErr, OnOk, filter};
ghost use Rattle.std.specs.Map.{lookup};
ghost use Rattle.indexmap.specs.IndexMap.{insert_entry};

use indexmap::IndexMap;
use std::alloc::{AllocError, Global};
use std::hash::Hash;

/// A key that can be copied without memory.
pub(crate) trait Copied: Drop {
    /// A copy.
    fn copied(&self) -> Self
        ensures { result ≡ self.now };
}

/// What may stand at a key.
pub(crate) trait Stands: Drop {
    ghost use Rattle.std.specs.Prelude.{Bool};

    ghost stands: { Self → Bool };

    /// Whether it is anything.
    fn is_any(&self) -> bool
        ensures { result ≡ stands self.now };

    /// A copy. It is refused only when out of memory.
    fn again(&self) -> Result<Self, AllocError>
        ensures { IfOk result (λ value. value ≡ self.now) };
}

/// A map of the keys at which anything stands. It is refused only when out of memory.
pub(crate) fn standing<K: Eq + Hash + Copied, V: Stands>(
    alloc: Global,
    map: &IndexMap<K, V>,
) -> Result<IndexMap<K, V>, AllocError>
    ensures { IfOk result (λ other. other.entries ≡ filter (λ e. V.stands e.1) map.now.entries) }
{
    let mut other = IndexMap::with_capacity(alloc, map.len())?;
    for (key, value) in map.iter() {
        if value.is_any() {
            add(&mut other, key.copied(), value.again()?)?;
        }
    }
    Ok(other)
}

/// Adds a key that isn't there.
fn add<K: Eq + Hash + Drop, V: Drop>(
    map: &mut IndexMap<K, V>,
    key: K,
    value: V,
) -> Result<(), AllocError>
    requires { lookup (K.eq key) map.old.entries ≡ None }
    ensures { OnOk result (map.new.entries ≡ map.old.entries ++ (key, value) ∷ []) }
{
    match map.insert(key, value) {
        Ok(_) => Ok(()),
        Err(_) => Err(AllocError),
    }
}

/// Sets what stands at a key. It is refused only when out of memory, and then changes nothing.
pub(crate) fn set<K: Eq + Hash + Drop, V: Drop>(
    map: &mut IndexMap<K, V>,
    key: K,
    value: V,
) -> Result<(), AllocError>
    ensures written { OnOk result (map.new.entries ≡ insert_entry K.eq map.old.entries key value) }
    ensures refused { OnErr result (map.new.entries ≡ map.old.entries) }
{
    match map.insert(key, value) {
        Ok(_) => Ok(()),
        Err(_) => Err(AllocError),
    }
}
