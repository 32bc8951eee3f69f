//! The twelve steps by which traffic is switched or switched back, and their undo.
#![tactic(auto)]

mod attempt;
mod entries;
mod fault;
mod laws;
mod log;
mod plan;
mod records;
mod refresh;
mod sides;
mod step;
mod streams;

pub use fault::StepFault;
pub use laws::{
    a_plan_is_that_of_its_way, a_record_stays_that_of_its_workflow,
    an_undo_gives_back_lists_and_streams, an_undo_gives_back_what_stood,
};
pub use log::{OpenWay, UndoLog};
pub use plan::{MAX_PLACES, Plan, PlannedStep};
pub use sides::{Sides, do_step, undo_last};
pub use step::Step;
pub use streams::{last_step, next_step};
