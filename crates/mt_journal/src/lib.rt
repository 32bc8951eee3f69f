//! The journal: an entry for each switch or reversal of writes that can no longer be given up. (Vitess: the journal that a
//! switch of writes leaves in the sidecar database, `resharding_journal`)
#![tactic(auto)]

mod entry;
mod fault;
mod journal;

pub use entry::JournalEntry;
pub use fault::JournalFault;
pub use journal::Journal;
