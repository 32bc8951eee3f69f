//! The controller as a C library: `libmt.a`, whose functions `embed/mt.h` declares. Each is an export over the crates below: a run of the script
//! language whose lines a program hands in one at a time, or a script as a whole.
#![tactic(auto)]

mod exports;
mod handle;
mod held;
mod loose;
mod names;
mod place;
mod said;
mod session;
mod status;
#[cfg(test)]
mod tests;
mod version;

pub use handle::Handle;
pub use status::Status;
pub use version::VERSION;
