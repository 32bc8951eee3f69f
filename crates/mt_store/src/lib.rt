//! What a primary keeps rows and log in: the rows of a table in pages, in the order of their keys, and a log of which the
//! first entries may be purged.
#![tactic(auto)]

mod log;
mod page;
mod pages;
mod segment;

pub use log::Log;
pub use pages::{Pages, Spot};
