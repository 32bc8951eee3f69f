//! What is asked of the controller, and what it answers; and the same in few bytes, as a history keeps it.
#![tactic(auto)]

mod ask;
mod compact;
mod driven;
mod event;
mod lanes;
mod laws;
mod reason;
mod refusal;
mod reply;
mod tables;

pub use ask::{Ask, Verb};
pub use compact::{Answer, CompactAnswer, CompactEvent, copied_answer};
pub use driven::Driven;
pub use event::Event;
pub use lanes::{ShownLane, ShownStream};
pub use laws::{events_and_answers_are_told_apart, events_and_answers_are_told_in_full};
pub use reason::Reason;
pub use refusal::Refusal;
pub use reply::{Reply, Shown, ShownOf, Told};
pub use tables::Tables;
