//! The keyspaces that have a table.
ghost use Rattle.std.specs.Prelude.{◌≡◌, ◌≤◌, [], IfOk, true, false};
ghost use Rattle.std.specs.List.{list_any};
ghost use Rattle.mt_names.specs.Names.{same_text};
ghost use Rattle.mt_routes.specs.Places.{with_holder};

use crate::maps::Stands;
use mt_names::KeyspaceName;
use std::alloc::{AllocError, Global};
use std::marker::Model;

/// The keyspaces that have a table, each once.
#[derive(Drop)]
pub(crate) struct Holders {
    list: Vec<KeyspaceName>,
}

impl Model for Holders {
    ghost use Rattle.std.specs.Prelude.{List, ℕ};

    ghost Value = { List (List ℕ) };

    ghost view = { λ holders. holders.list.items };
}

impl Holders {
    /// None.
    pub(crate) fn new(alloc: Global) -> Holders
        ensures { result ≡ [] }
    {
        Holders {
            list: Vec::new(alloc),
        }
    }

    /// The keyspaces.
    pub(crate) fn as_slice(&self) -> &[KeyspaceName]
        ensures { result.now ≡ self.now }
    {
        self.list.as_slice()
    }

    /// Whether a keyspace is among them.
    pub(crate) fn contains(&self, keyspace: &KeyspaceName) -> bool
        ensures { result ≡ list_any (same_text keyspace.now) self.now }
    {
        self.list.contains(keyspace)
    }

    /// These, with a keyspace among them or without it. It is refused only when out of memory.
    pub(crate) fn with(
        &self,
        keyspace: &KeyspaceName,
        is_there: bool,
    ) -> Result<Holders, AllocError>
        ensures { IfOk result (λ holders. holders ≡ with_holder self.now keyspace.now is_there) }
    {
        if is_there {
            self.with_one(keyspace)
        } else {
            self.without(keyspace)
        }
    }

    /// These, with a keyspace more unless it is among them.
    fn with_one(&self, keyspace: &KeyspaceName) -> Result<Holders, AllocError>
        ensures { IfOk result (λ holders. holders ≡ with_holder self.now keyspace.now true) }
    {
        let mut list = self.copied(1)?;
        if !self.contains(keyspace) {
            list.push(keyspace.copied())?;
        }
        Ok(Holders { list })
    }

    /// These without a keyspace.
    fn without(&self, keyspace: &KeyspaceName) -> Result<Holders, AllocError>
        ensures { IfOk result (λ holders. holders ≡ with_holder self.now keyspace.now false) }
    {
        let mut list = Vec::with_capacity(*self.list.allocator(), self.list.len())?;
        for other in self.list.as_slice() {
            if *keyspace != *other {
                list.push(other.copied())?;
            }
        }
        Ok(Holders { list })
    }

    /// The list, with room for one more or none.
    fn copied(&self, more: usize) -> Result<Vec<KeyspaceName>, AllocError>
        requires { more ≤ 1 }
        ensures { IfOk result (λ list. list.items ≡ self.now) }
    {
        let mut list = Vec::with_capacity(*self.list.allocator(), self.list.len() + more)?;
        for keyspace in &self.list {
            list.push(keyspace.copied())?;
        }
        Ok(list)
    }
}

impl Stands for Holders {
    ghost use Rattle.mt_routes.specs.Places.{are_any};

    ghost stands = { are_any };

    fn is_any(&self) -> bool {
        !self.list.is_empty()
    }

    fn again(&self) -> Result<Self, AllocError> {
        Ok(Holders {
            list: self.copied(0)?,
        })
    }
}
