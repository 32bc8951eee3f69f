//! The bytes of a name, by which one that is kept is looked up without reading them.
ghost use Rattle.std.specs.Prelude.{nat_eq};
ghost use Rattle.std.specs.Cmp.{on_equiv, partial_equiv_from_equiv};
ghost use Rattle.std.specs.Cmp.Lexicographic.{pointwise, nat_list_eq_equiv, bytes_decides};
ghost use Rattle.std.specs.Hash as fed;
ghost use Rattle.std.proofs.Common.{ap};

use indexmap::Equivalent;
use mt_names::TableName;
use std::hash::{Hash, Hasher};

/// Bytes that may be a name's. They are hashed as the name is.
#[derive(Clone, Copy)]
pub(crate) struct NameText<'a> {
    /// The bytes.
    pub bytes: &'a [u8],
}

impl<'a> PartialEq for NameText<'a> {
    ghost eq = { λ x y. pointwise nat_eq x.bytes.now y.bytes.now };

    ghost laws = { partial_equiv_from_equiv (on_equiv (λ x. x.bytes.now) nat_list_eq_equiv) };

    fn eq(&self, other: &Self) -> bool {
        self.bytes == other.bytes
    }
}

impl<'a> Eq for NameText<'a> {
    ghost laws = { on_equiv (λ x. x.bytes.now) nat_list_eq_equiv };
}

impl<'a> Hash for NameText<'a> {
    ghost hash_input = { λ x. fed.str x.bytes.now };

    ghost respects_eq = { λ x y h. ap fed.str ((bytes_decides x.bytes.now y.bytes.now).0 h) };

    fn hash<H: Hasher>(&self, state: &mut H) {
        state.write(self.bytes);
        state.write_u8(255);
    }
}

impl<'a> Equivalent<TableName> for NameText<'a> {
    ghost equivalent = { λ q k. pointwise nat_eq q.bytes.now k };

    ghost respects_hash = { λ q k h. ap fed.str ((bytes_decides q.bytes.now k).0 h) };

    ghost respects_eq = { λ q x y. nat_list_eq_equiv.congr q.bytes.now x y };

    fn equivalent(&self, key: &TableName) -> bool {
        self.bytes == key.as_str().as_bytes()
    }
}
