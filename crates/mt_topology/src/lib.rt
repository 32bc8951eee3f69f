//! The topology: its keyspaces with their tables and denials, its routing rules, and how a name is looked up in it.
#![tactic(auto)]

mod examples;
mod load;
mod made;
mod room;
mod routes;
mod rules;
mod topology;
mod versions;
mod write;

pub use examples::dumps_are_read;
pub use mt_model::{Entry, EntryKey, TopologyFault};
pub use topology::Topology;
pub use versions::versions_are_read_alike;
