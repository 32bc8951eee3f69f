//! Why watchers refuse a call.

use std::fmt;
use thiserror::Error;

/// What a watcher's callback refuses with: a number of its own choice.
#[derive(Clone, Copy, Debug, Eq, PartialEq)]
pub struct WatchFault(pub u8);

/// Why watchers refuse a call.
#[derive(Clone, Copy, Debug, Eq, Error, PartialEq)]
pub enum WatchersFault {
    /// No memory was left.
    Memory,
    /// No watcher has the scope.
    NoWatcher,
    /// The watcher of this number, counted from 0 in the order in which they were added, refused.
    Refused(usize),
    /// There are as many watchers as there may be.
    Full,
}

impl WatchersFault {
    ghost use Rattle.std.specs.Prelude.{◌≡◌};
    ghost use Rattle.mt_watch.specs.Faults.{watchers_fault_text};

    /// The refusal as it is printed: its number and its name.
    pub fn as_str(self) -> &'static str
        ensures { result.now ≡ watchers_fault_text self }
    {
        match self {
            WatchersFault::Memory => "H0 Memory",
            WatchersFault::NoWatcher => "H1 NoWatcher",
            WatchersFault::Refused(_) => "H2 Refused",
            WatchersFault::Full => "H3 Full",
        }
    }
}

impl fmt::Display for WatchersFault {
    ghost use Rattle.std.specs.Prelude.{Some};
    ghost use Rattle.mt_watch.specs.Faults.{watchers_fault_text};

    ghost output = { λ fault. Some (watchers_fault_text fault) };

    fn fmt<W: fmt::Write>(&self, f: &mut fmt::Formatter<W>) -> fmt::Result {
        f.pad(self.as_str())
    }
}
