//! Events and answers as a history keeps them: in few bytes, where their names and values are short.

mod answers;
mod events;
mod names;
mod ops;

pub use answers::{Answer, CompactAnswer, copied_answer};
pub use events::CompactEvent;
