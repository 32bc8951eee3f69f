//! Where a play is played.

use crate::asked::Asked;
use crate::told::Told;
use std::sync::Wait;

/// Where a play is played: a controller, by one of the ways to ask it.
pub trait Venue {
    /// What is told of what a line asks for.
    fn tell<R: Wait>(&mut self, rt: &R, asked: &Asked<'_>) -> Told;
}
