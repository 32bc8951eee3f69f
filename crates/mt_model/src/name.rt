//! A table's name that several hold.
ghost use Rattle.std.specs.Prelude.{◌≡◌, IfOk, nat_eq};
ghost use Rattle.std.specs.Cmp.{partial_equiv_from_equiv};
ghost use Rattle.std.specs.Cmp.Lexicographic.{bytes_decides, nat_list_eq_equiv, pointwise};
ghost use Rattle.std.specs.Hash as fed;
ghost use Rattle.std.proofs.Common.{ap};

use indexmap::Equivalent;
use mt_names::TableName;
use std::alloc::{AllocError, Global};
use std::hash::{Hash, Hasher};
use std::marker::Model;
use std::sync::Arc;

/// The name of a table, which the table and the entries of a log share: contracts see it as its bytes. It stands in
/// memory of its own, for which its holders are counted.
#[derive(Drop)]
pub struct SharedName {
    name: Arc<TableName>,
}

impl Model for SharedName {
    ghost use Rattle.std.specs.Prelude.{List, ℕ};

    ghost Value = { List ℕ };

    ghost view = { λ shared. shared.name.value };
}

impl SharedName {
    /// The name, to be shared. It is refused if there is no memory for it.
    pub fn new(alloc: Global, name: TableName) -> Result<Self, AllocError>
        ensures { IfOk result (λ shared. shared ≡ name) }
    {
        let name = Arc::new(alloc, name)?;
        Ok(SharedName { name })
    }

    /// The name, for one holder more. It takes no memory, and is refused if its holders can't be counted any
    /// further.
    pub fn try_clone(&self) -> Result<Self, AllocError>
        ensures { IfOk result (λ shared. shared ≡ self.now) }
    {
        let name = Arc::try_clone(&self.name)?;
        Ok(SharedName { name })
    }

    /// The name.
    pub fn name(&self) -> &TableName
        ensures { result.now ≡ self.now }
    {
        &self.name
    }
}

impl PartialEq for SharedName {
    ghost eq = { pointwise nat_eq };

    ghost laws = { partial_equiv_from_equiv nat_list_eq_equiv };

    fn eq(&self, other: &Self) -> bool {
        self.name() == other.name()
    }
}

impl Eq for SharedName {
    ghost laws = { nat_list_eq_equiv };
}

impl Hash for SharedName {
    ghost hash_input = { fed.str };

    ghost respects_eq = { λ x y h. ap fed.str ((bytes_decides x y).0 h) };

    fn hash<H: Hasher>(&self, state: &mut H) {
        self.name().hash(state);
    }
}

/// A shared name is looked up by one that isn't.
impl Equivalent<SharedName> for &TableName {
    ghost equivalent = { λ q k. pointwise nat_eq q.now k };

    ghost respects_hash = { λ q k h. ap fed.str ((bytes_decides q.now k).0 h) };

    ghost respects_eq = { λ q x y. nat_list_eq_equiv.congr q.now x y };

    fn equivalent(&self, key: &SharedName) -> bool {
        *self == key.name()
    }
}
