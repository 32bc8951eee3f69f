//! What a command line asks for, and why one is refused.

use crate::MAX_WATCHED;
use arrayvec::ArrayVec;
use mt_names::{KeyspaceName, NameFault};
use std::fmt;
use thiserror::Error;

/// The line that a command line is answered with where it doesn't parse.
pub const USAGE: &str =
    "usage: mt run [KEYSPACE].. | mt rules | mt topology | mt race [--clients N] [--writes N]";

/// What a command line asks for.
#[derive(Debug, Drop)]
pub enum Choice {
    /// To run the script of standard input, with a watcher for each of these keyspaces' primaries beside the one for the
    /// routers. A keyspace that stands twice has two watchers.
    Run(ArrayVec<KeyspaceName, MAX_WATCHED>),
    /// To write the canonical form of the rule document of standard input.
    Rules,
    /// To write the canonical form of the topology dump of standard input.
    Topology,
    /// To run clients while a controller switches and reverses.
    Race {
        /// How many clients: 1 to 4.
        clients: u16,
        /// How many writes each of them makes: 1 to 1,000.
        writes: u16,
    },
    /// To print this text.
    Help(String),
}

/// Why a command line is refused. It is printed as the line for standard error.
#[derive(Clone, Copy, Debug, Eq, Error, PartialEq)]
pub enum Wrong {
    /// The words don't parse.
    Usage,
    /// A word is no keyspace's name, or there are too many of them.
    Words(NameFault),
    /// No memory was left.
    Memory,
}

impl Wrong {
    ghost use Rattle.std.specs.Prelude.{◌≡◌};
    ghost use Rattle.mt_choice.specs.Texts.{wrong_text};

    /// The line for standard error, without its line feed.
    pub fn as_str(self) -> &'static str
        ensures { result.now ≡ wrong_text self }
    {
        match self {
            Wrong::Usage => USAGE,
            Wrong::Words(fault) => fault.as_str(),
            Wrong::Memory => "fault Memory",
        }
    }
}

impl fmt::Display for Wrong {
    ghost use Rattle.std.specs.Prelude.{Some};
    ghost use Rattle.mt_choice.specs.Texts.{wrong_text};

    ghost output = { λ wrong. Some (wrong_text wrong) };

    fn fmt<W: fmt::Write>(&self, f: &mut fmt::Formatter<W>) -> fmt::Result {
        f.pad(self.as_str())
    }
}
