//! The history of a desk: who asked for what, and what was answered.
ghost use Rattle.std.specs.Prelude.{◌≡◌, ◌↔◌, true};
ghost use Rattle.mt_desk.specs.Histories.{call_of};

use mt_event::{CompactAnswer, CompactEvent};

/// A line of the history: which client asked for an event, and the answer.
#[derive(Drop)]
pub struct Line {
    /// The client.
    pub client: u16,
    /// The event.
    pub event: CompactEvent,
    /// The answer.
    pub answer: CompactAnswer,
}

/// A call that a client made: its event, and the answer.
#[derive(Drop)]
pub struct Call {
    /// The event.
    pub event: CompactEvent,
    /// The answer.
    pub answer: CompactAnswer,
}

/// Whether a line is of this call. It takes no memory.
pub(crate) fn is_of(line: &Line, call: &Call) -> bool
    ensures { (result ≡ true) ↔ (call_of line.now ≡ call.now) }
{
    line.event.is_same(&call.event) && line.answer.is_same(&call.answer)
}
