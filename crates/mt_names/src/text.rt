//! The text of a name: at most 64 bytes, kept in the value itself.
ghost use Rattle.std.specs.Prelude.{◌≡◌, ◌↔◌, [], ◌∷◌, Some, IsOk, IfOk, nat_eq, not, position};
ghost use Rattle.std.specs.Ordering.{nat_cmp};
ghost use Rattle.std.specs.Cmp.{partial_equiv_from_equiv, nat_cmp_total};
ghost use Rattle.std.specs.Cmp.Lexicographic.{pointwise, slice_cmp, nat_list_eq_equiv, nat_list_cmp_total, texts_po, texts_ties};
ghost use Rattle.std.specs.Cmp.Rules.{hashing};
ghost use Rattle.std.specs.Hash as fed;
ghost use Rattle.std.proofs.Common.{rules, refl};
ghost use Rattle.mt_names.specs.declared.text.Alphabet.TheVariants.{WithDollar};
ghost use Rattle.mt_names.specs.Names.{IsName, allows, bad_place, read_name, underscore};

use crate::NameFault;
use arrayvec::ArrayString;
use std::cmp::Ordering;
use std::fmt;
use std::hash::{Hash, Hasher};
use std::marker::Model;

/// The longest name, in bytes.
pub const MAX_NAME_LENGTH: usize = 64;

/// The bytes that a name may be made of.
#[derive(Clone, Copy)]
pub enum Alphabet {
    /// ASCII letters, digits, `_` and `-`.
    Plain,
    /// These and `$`.
    WithDollar,
}

// Each byte of a name, `$` among them, stands at its own place, and a dot at every other place.
static NAME_BYTES: [u8; 256] = *b"\
    ................................\
    ....$........-..0123456789......\
    .ABCDEFGHIJKLMNOPQRSTUVWXYZ...._\
    .abcdefghijklmnopqrstuvwxyz.....\
    ................................\
    ................................\
    ................................\
    ................................";

/// Whether a byte is an ASCII letter or digit, `_`, `-` or `$`.
#[inline(always)]
fn is_name_byte(byte: u8) -> bool
    ensures { result ≡ allows WithDollar byte }
{
    NAME_BYTES[byte as usize] != b'.'
}

impl Alphabet {
    #[inline(always)]
    fn allows(self, byte: u8) -> bool
        ensures { result ≡ allows self byte }
    {
        match self {
            Alphabet::Plain => is_name_byte(byte) && byte != b'$',
            Alphabet::WithDollar => is_name_byte(byte),
        }
    }
}

/// The place of the first byte that the alphabet lacks.
fn first_refused(bytes: &[u8], alphabet: Alphabet) -> Option<usize>
    ensures { result ≡ position (λ byte. not (allows alphabet byte)) bytes.now }
{
    bytes.iter().position(|&byte| !alphabet.allows(byte))
}

/// The place of the first byte that may not stand there, which for a `-` is the front.
fn first_bad_place(bytes: &[u8], alphabet: Alphabet) -> Option<usize>
    ensures { result ≡ bad_place alphabet bytes.now }
{
    if bytes.starts_with(b"-") {
        return Some(0);
    }
    first_refused(bytes, alphabet)
}

/// The text of a name, which contracts see as its bytes.
#[derive(Drop)]
pub struct Text {
    chars: ArrayString<MAX_NAME_LENGTH>,
}

impl Model for Text {
    ghost use Rattle.std.specs.Prelude.{List, ℕ};

    ghost Value = { List ℕ };

    ghost view = { λ text. text.chars.bytes };
}

impl Text {
    /// A copy of the text where it is a name over the alphabet.
    pub fn parse(text: &str, alphabet: Alphabet) -> Result<Text, NameFault>
        ensures value { result ≡ read_name alphabet text.now }
        ensures grammar { IsOk result ↔ IsName alphabet text.now }
        ensures name { IfOk result (IsName alphabet) }
    {
        if text.is_empty() {
            return Err(NameFault::Empty);
        }
        let Ok(chars) = ArrayString::from(text) else {
            return Err(NameFault::TooLong);
        };
        match first_bad_place(text.as_bytes(), alphabet) {
            Some(place) => Err(NameFault::BadByte(place)),
            None => Ok(Text { chars }),
        }
    }

    /// The text `_`, which is a name over each alphabet. The unused places of an `ArrayVec` of names hold it.
    pub fn blank() -> Text
        ensures { result ≡ underscore ∷ [] }
    {
        let mut chars = ArrayString::new();
        chars.push('_');
        Text { chars }
    }

    /// The text.
    pub fn as_str(&self) -> &str
        ensures { result.now ≡ self.now }
    {
        self.chars.as_str()
    }

    /// A copy. It takes no memory.
    pub fn copied(&self) -> Self
        ensures { result ≡ self.now }
    {
        Text { chars: self.chars }
    }
}

impl PartialEq for Text {
    ghost eq = { pointwise nat_eq };

    ghost laws = { partial_equiv_from_equiv nat_list_eq_equiv };

    fn eq(&self, other: &Self) -> bool {
        self.as_str() == other.as_str()
    }
}

impl Eq for Text {
    ghost laws = { nat_list_eq_equiv };
}

impl PartialOrd for Text {
    ghost partial_cmp = { λ s t. Some (slice_cmp nat_cmp s t) };

    ghost laws = { texts_po };

    fn partial_cmp(&self, other: &Self) -> Option<Ordering> {
        Some(self.cmp(other))
    }
}

impl Ord for Text {
    ghost cmp = { slice_cmp nat_cmp };

    ghost total = { nat_list_cmp_total };

    ghost matches_partial_cmp = { λ s t. refl };

    ghost matches_eq = { texts_ties };

    fn cmp(&self, other: &Self) -> Ordering {
        self.as_str().cmp(other.as_str())
    }
}

impl Hash for Text {
    ghost hash_input = { fed.str };

    ghost respects_eq = { Prim.search (hashing, rules) };

    fn hash<H: Hasher>(&self, state: &mut H) {
        self.as_str().hash(state);
    }
}

impl fmt::Debug for Text {
    fn fmt<W: fmt::Write>(&self, f: &mut fmt::Formatter<W>) -> fmt::Result {
        fmt::Debug::fmt(&self.as_str(), f)
    }
}
