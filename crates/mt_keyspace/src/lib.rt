//! The keyspaces of a topology: their shards, tables and denials, and how these are read from a dump and written to one.
#![tactic(auto)]

mod draft;
mod keyspace;
mod keyspaces;
mod load;
mod routes;
mod text;

pub use keyspace::Keyspace;
pub use keyspaces::Keyspaces;
pub use load::{Drafts, DumpVersion, drafts_in, is_too_large, settled};
