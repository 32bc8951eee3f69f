//! What was said in a session, which only proofs read.
ghost use Rattle.std.specs.Prelude.{◌≡◌, ℕ, List, [], ◌∷◌, ◌++◌};
ghost use base.Fml.{ftrue};

use std::marker::Model;

/// The lines of a session so far, and all that they wrote. It has no bytes, and its methods do nothing at run time.
#[derive(Drop)]
pub struct Said {
    pub(crate) ghost lines: { List (List ℕ) },
    pub(crate) ghost out: { List ℕ },
}

impl Model for Said {
    ghost also_owns = { λ _. ftrue };
}

/// A line, and the text that it wrote.
#[derive(Clone, Copy, Drop)]
pub(crate) struct Told<'a> {
    pub(crate) line: &'a [u8],
    pub(crate) text: &'a [u8],
}

impl Said {
    /// Nothing yet.
    pub(crate) fn new() -> Said
        ensures { (result.lines ≡ []) × (result.out ≡ []) }
    {
        Said {}
    }

    /// One line more.
    pub(crate) fn then(&self, _told: &Told<'_>) -> Said
        ensures { (result.lines ≡ self.now.lines ++ _told.now.line.now ∷ []) × (result.out ≡ self.now.out ++ _told.now.text.now) }
    {
        Said {}
    }
}
