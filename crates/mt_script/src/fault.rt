//! Why a run over bytes ends early.

use std::fmt;
use thiserror::Error;

/// Why a run over bytes ends early: that of a script before its last line is answered, or that of a document before its line
/// is written. The topology and the rows of a script are then gone, as after its last line.
#[derive(Clone, Copy, Debug, Eq, Error, PartialEq)]
pub enum ScriptFault {
    /// No memory was left to read the script or the document, and nothing was written; or none was left for a document that a
    /// line asks for, and what was written is the answers to the lines before it.
    Memory,
    /// A read failed, or the input didn't come in 2,097,152 reads. Nothing was written.
    Read,
    /// A write failed or took no byte. The beginning of the output was written, and not all of it.
    Write,
    /// The input has more than 1,048,576 bytes. Nothing was written.
    TooLong,
}

impl ScriptFault {
    ghost use Rattle.std.specs.Prelude.{◌≡◌};
    ghost use Rattle.mt_script.specs.Bytes.{script_fault_text};

    /// The name of the fault as it is printed.
    pub fn as_str(self) -> &'static str
        ensures { result.now ≡ script_fault_text self }
    {
        match self {
            ScriptFault::Memory => "Memory",
            ScriptFault::Read => "Read",
            ScriptFault::Write => "Write",
            ScriptFault::TooLong => "TooLong",
        }
    }
}

impl fmt::Display for ScriptFault {
    ghost use Rattle.std.specs.Prelude.{Some};
    ghost use Rattle.mt_script.specs.Bytes.{script_fault_text};

    ghost output = { λ fault. Some (script_fault_text fault) };

    fn fmt<W: fmt::Write>(&self, f: &mut fmt::Formatter<W>) -> fmt::Result {
        f.pad(self.as_str())
    }
}
