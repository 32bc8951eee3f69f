//! What the clients of a race tell.

use crate::RaceFault;
use crossbeam_channel::Receiver;
use mt_workers::{CollectFault, Collector, Message};
use std::alloc::Global;
use std::sync::Wait;

/// A collector for so many clients, with so many lines each: `Memory`.
fn collector_of(alloc: Global, clients: u16, lines: u16) -> Result<Collector, RaceFault> {
    let Ok(lines) = Vec::from_elem(alloc, u64::from(lines), usize::from(clients)) else {
        return Err(RaceFault::Memory);
    };
    match Collector::new(alloc, &lines) {
        Ok(collector) => Ok(collector),
        Err(_) => Err(RaceFault::Memory),
    }
}

/// Receives what so many clients told of so many lines each, where nobody sends any more. Answers whether each line was told once, and no other:
/// `Memory`.
pub(crate) fn are_told<R: Wait>(
    rt: &R,
    alloc: Global,
    receiver: &Receiver<Message>,
    clients: u16,
    lines: u16,
) -> Result<bool, RaceFault> {
    let mut collector = collector_of(alloc, clients, lines)?;
    for _ in 0..u64::from(clients).saturating_mul(u64::from(lines)) {
        let Ok(message) = receiver.recv(rt) else {
            return Ok(false);
        };
        match collector.add(message) {
            Ok(()) => {}
            Err(CollectFault::Memory) => return Err(RaceFault::Memory),
            Err(_) => return Ok(false),
        }
    }
    Ok(collector.whole() && receiver.recv(rt).is_err())
}
