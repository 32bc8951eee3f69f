//! Why a denied list refuses a call.

use std::fmt;
use thiserror::Error;

/// Why a denied list refuses a call.
#[derive(Clone, Copy, Debug, Eq, Error, PartialEq)]
pub enum DeniedFault {
    /// No memory was left.
    Memory,
    /// There are as many places as there may be.
    Full,
}

impl DeniedFault {
    ghost use Rattle.std.specs.Prelude.{◌≡◌};
    ghost use Rattle.mt_denied.specs.Denied.{denied_fault_text};

    /// The refusal as it is printed: its number and its name.
    pub fn as_str(self) -> &'static str
        ensures { result.now ≡ denied_fault_text self }
    {
        match self {
            DeniedFault::Memory => "L0 Memory",
            DeniedFault::Full => "L1 Full",
        }
    }
}

impl fmt::Display for DeniedFault {
    ghost use Rattle.std.specs.Prelude.{Some};
    ghost use Rattle.mt_denied.specs.Denied.{denied_fault_text};

    ghost output = { λ fault. Some (denied_fault_text fault) };

    fn fmt<W: fmt::Write>(&self, f: &mut fmt::Formatter<W>) -> fmt::Result {
        f.pad(self.as_str())
    }
}
