//! Workflows, as MoveTables of Vitess: what one keeps, what its part of the topology is to say, and when it isn't created.
#![tactic(auto)]

mod building;
mod creating;
mod fault;
mod lane;
mod laws;
mod part;
mod ruled;
mod way;
mod workflow;

pub use creating::may_create;
pub use fault::WorkflowFault;
pub use laws::{the_part_is_its_keys, what_is_kept_is_what_stood};
pub use way::{Slot, Way};
pub use workflow::Workflow;
