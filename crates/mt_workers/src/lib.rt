//! Workers: the loops of the threads that share one desk, each of which ends after a bounded number of calls and gives its pass back; what
//! they tell of their lines, and where they may be held.
#![tactic(auto)]

mod asking;
mod collector;
mod controlling;
mod course;
mod fault;
mod gate;
mod laws;
mod line;
mod message;
mod query;
mod stream;
mod turn;

pub use collector::Collector;
pub use controlling::controller;
pub use crossbeam_channel::{Receiver, Sender, unbounded};
pub use fault::{CollectFault, ControlFault};
pub use gate::{Gate, NoGate, Place};
pub use laws::a_controller_asks_for_its_workflow_alone;
pub use line::Line;
pub use message::Message;
pub use query::query_worker;
pub use stream::stream_worker;
