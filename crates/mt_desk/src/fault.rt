//! Why a desk refuses a call.

use std::fmt;
use thiserror::Error;

/// Why a desk refuses a call. What is refused leaves the controller, the history, the list of publications and the
/// passes as they were.
#[derive(Clone, Copy, Debug, Eq, Error, PartialEq)]
pub enum DeskFault {
    /// No memory was left, or the owners of a publication can't be counted any further.
    Memory,
    /// The calls of this client in the history aren't those that its pass lists.
    HistoryDiffers(u16),
    /// There are as many routers as there may be.
    RoutersFull,
    /// No watcher has the scope of routes.
    NoWatcher,
    /// The watcher of this number, counted from 0 in the order in which they were added, refused.
    WatcherRefused(usize),
    /// That client has, or had, a pass.
    ClientTaken,
    /// A client to whom the desk gave a pass isn't among those whose passes are handed in.
    PassMissing,
}

impl DeskFault {
    ghost use Rattle.std.specs.Prelude.{◌≡◌};
    ghost use Rattle.mt_desk.specs.Faults.{desk_fault_text};

    /// The refusal as it is printed: its number and its name.
    pub fn as_str(self) -> &'static str
        ensures { result.now ≡ desk_fault_text self }
    {
        match self {
            DeskFault::Memory => "K0 Memory",
            DeskFault::HistoryDiffers(_) => "K1 HistoryDiffers",
            DeskFault::RoutersFull => "K3 RoutersFull",
            DeskFault::NoWatcher => "K4 NoWatcher",
            DeskFault::WatcherRefused(_) => "K5 WatcherRefused",
            DeskFault::ClientTaken => "K6 ClientTaken",
            DeskFault::PassMissing => "K7 PassMissing",
        }
    }
}

impl fmt::Display for DeskFault {
    ghost use Rattle.std.specs.Prelude.{Some};
    ghost use Rattle.mt_desk.specs.Faults.{desk_fault_text};

    ghost output = { λ fault. Some (desk_fault_text fault) };

    fn fmt<W: fmt::Write>(&self, f: &mut fmt::Formatter<W>) -> fmt::Result {
        f.pad(self.as_str())
    }
}
