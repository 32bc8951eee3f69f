//! How a worker asks.
ghost use Rattle.std.specs.Prelude.{◌≡◌, ◌++◌, [], ◌∷◌, IfOk, OnErr};
ghost use Rattle.mt_desk.specs.Histories.{call};

use crate::{Gate, Place};
use mt_desk::{Answer, Desk, DeskFault, DeskName, Pass};
use mt_event::Event;
use mt_watch::Asks;
use std::sync::Wait;

/// Asks the desk as `Desk::ask` does, and comes through the gate before it and after it.
pub(crate) fn ask<R: Wait, G: Gate, D: DeskName, W: Asks + Drop>(
    rt: &R,
    gate: &G,
    desk: &Desk<D, W>,
    pass: &mut Pass<D>,
    worker: u16,
    line: u64,
    event: Event,
) -> Result<Answer, DeskFault>
    ensures client { pass.new.client ≡ pass.old.client }
    ensures adds { IfOk result (λ r. pass.new.calls.items ≡ pass.old.calls.items ++ call event r ∷ []) }
    ensures none { OnErr result (pass.new.calls.items ≡ pass.old.calls.items) }
{
    gate.at(rt, Place::Before { worker, line });
    let answer = desk.ask(rt, pass, event);
    gate.at(rt, Place::After { worker, line });
    answer
}
