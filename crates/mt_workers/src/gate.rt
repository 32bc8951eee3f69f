//! Where a worker may be held.

use std::sync::Wait;

/// Where a worker is: at one of its calls of the desk. Its calls are numbered from 0.
#[derive(Clone, Copy, Debug, Eq, PartialEq)]
pub enum Place {
    /// It is about to ask.
    Before {
        /// The worker.
        worker: u16,
        /// Its line, or the number of its call.
        line: u64,
    },
    /// It was answered.
    After {
        /// The worker.
        worker: u16,
        /// Its line, or the number of its call.
        line: u64,
    },
}

/// What each worker comes through before it asks the desk, and after each answer: it may hold workers there, as a test does that
/// brings several of them to one point. A worker goes on once `at` returns.
pub trait Gate {
    /// A worker is at a place.
    fn at<R: Wait>(&self, rt: &R, place: Place);
}

/// A gate that holds nobody.
#[derive(Clone, Copy, Debug, Default, Eq, PartialEq)]
pub struct NoGate;

impl Gate for NoGate {
    fn at<R: Wait>(&self, _rt: &R, _place: Place) {}
}
