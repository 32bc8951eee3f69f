//! Why a text is refused.
ghost use Rattle.std.specs.Prelude.{◌≡◌, Some};

use std::fmt;
use thiserror::Error;

/// Why a text is no name, key, target or list.
#[derive(Clone, Copy, Debug, Eq, Error, PartialEq)]
pub enum NameFault {
    /// An empty name or text.
    Empty,
    /// A name of more than 64 bytes.
    TooLong,
    /// A byte that may not stand at this place, which counts bytes of the whole text handed in, from 0.
    BadByte(usize),
    /// A table or a type that stands twice in a list.
    Repeated,
    /// A workflow's name that ends in `_reverse`.
    ReservedSuffix,
    /// A tablet type that is none of the three.
    BadType,
    /// More elements than a list may have.
    TooMany,
    /// A target without a keyspace.
    NoKeyspace,
    /// A text that is no key range, or a range whose start isn't below its end.
    BadRange,
    /// Key ranges that don't follow one another from the open start to the open end.
    NotCovering,
}

impl NameFault {
    ghost use Rattle.mt_names.specs.Faults.{fault_text};

    /// The refusal as it is printed: its number and its name, without the value that it carries.
    pub fn as_str(self) -> &'static str
        ensures { result.now ≡ fault_text self }
    {
        match self {
            NameFault::Empty => "N1 Empty",
            NameFault::TooLong => "N2 TooLong",
            NameFault::BadByte(_) => "N3 BadByte",
            NameFault::Repeated => "N4 Repeated",
            NameFault::ReservedSuffix => "N5 ReservedSuffix",
            NameFault::BadType => "N6 BadType",
            NameFault::TooMany => "N7 TooMany",
            NameFault::NoKeyspace => "N8 NoKeyspace",
            NameFault::BadRange => "N9 BadRange",
            NameFault::NotCovering => "N10 NotCovering",
        }
    }
}

impl fmt::Display for NameFault {
    ghost use Rattle.std.specs.Prelude.{Some};
    ghost use Rattle.mt_names.specs.Faults.{fault_text};

    ghost output = { λ fault. Some (fault_text fault) };

    fn fmt<W: fmt::Write>(&self, f: &mut fmt::Formatter<W>) -> fmt::Result {
        f.pad(self.as_str())
    }
}
