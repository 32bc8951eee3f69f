//! A race: clients that write, a worker that advances a stream and a controller that switches the traffic and reverses it, at one desk
//! and at once; and whether every write that was acknowledged is found at the end.
#![tactic(auto)]

mod counting;
mod crew;
mod fault;
mod hearing;
mod moving;
mod racing;
mod threads;
mod watched;

pub use fault::RaceFault;
pub use racing::{Raced, race};
pub use watched::race_watched;
