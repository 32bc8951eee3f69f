//! Callers of a desk, proved: one gives a move up at a book, and one looks a name up by what it told. Beside them stand tests by
//! direct call: passes and what is gathered, routers and what they are told, clients and routers in threads, and those that pass
//! whichever allocation fails; and of workers at a desk, that they ask at once, what a collector keeps, each worker alone, and controllers
//! that take over from one another.
#![tactic(auto)]

mod giving_up;
mod routing;

pub use giving_up::{GivenUp, given_up_at_a_book};
pub use routing::route_told;

#[cfg(test)]
mod acts;
#[cfg(test)]
mod book_memory;
#[cfg(test)]
mod calls;
#[cfg(test)]
mod collecting;
#[cfg(test)]
mod cut_short;
#[cfg(test)]
mod meeting;
#[cfg(test)]
mod opened;
#[cfg(test)]
mod racing;
#[cfg(test)]
mod reading;
#[cfg(test)]
mod route_acts;
#[cfg(test)]
mod routes;
#[cfg(test)]
mod sharded;
#[cfg(test)]
mod speed;
#[cfg(test)]
mod texts;
#[cfg(test)]
mod threads;
#[cfg(test)]
mod together;
#[cfg(test)]
mod told_memory;
#[cfg(test)]
mod turns;
