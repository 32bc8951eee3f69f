//! The desk: many threads at one controller, behind one lock, with the history of all that was asked.
#![tactic(auto)]

mod account;
mod answered;
mod book;
mod desk;
mod fault;
mod history;
mod listed;
mod locked;
mod name;
mod numbers;
mod pass;
mod reading;
mod room;
mod tell;

pub use account::Account;
pub use book::Book;
pub use desk::Desk;
pub use fault::DeskFault;
pub use history::{Call, Line};
pub use mt_event::{Answer, CompactAnswer, CompactEvent};
pub use mt_routes::{Front, Opened, Router, Told};
pub use name::DeskName;
pub use pass::Pass;
