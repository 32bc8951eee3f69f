//! Tables that are marked or not; of the denied lists they are the tables that a keyspace's primary is to refuse.
#![tactic(auto)]

mod denied;
mod fault;

pub use denied::{DeniedTables, TableMarks};
pub use fault::DeniedFault;
