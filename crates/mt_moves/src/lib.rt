//! What is done to a workflow, each as one call on what the controller keeps: it is created, a way is begun on it, its next step is
//! done, its last step is undone, and it is completed or cancelled.
#![tactic(auto)]

mod asking;
mod beginning;
mod cancelling;
mod completing;
mod creating;
mod parts;
mod places;
mod purging;
mod stepping;
mod target;
mod undoing;

pub use beginning::{begin_reverse, begin_switch};
pub use cancelling::cancel;
pub use completing::complete;
pub use creating::{Move, create, names_are_names};
pub(crate) use mt_primary::Primaries;
pub(crate) use mt_stands::{OpenWays, Workflows};
pub use purging::{purge, purge_log, purge_whole};
pub use stepping::step;
pub use undoing::undo;
