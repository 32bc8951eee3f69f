//! A gate at which four workers meet.

use mt_workers::{Gate, Place};
use std::sync::{Mutex, Wait};
use std::thread;

/// How many turns a worker waits at most. A turn takes the gate's lock once, and yields.
const TURNS: u32 = 1_000_000;

/// How many workers meet.
const WORKERS: u16 = 4;

/// What a worker waits for.
#[derive(Clone, Copy)]
enum Due {
    /// The first ask of each has arrived.
    AllCame,
    /// The first ask of each is answered.
    AllAnswered,
}

/// What the gate has seen.
#[derive(Drop)]
struct Seen {
    /// How many asks of each worker have arrived.
    asks: [u64; 4],
    /// How many first asks have arrived.
    came: u16,
    /// How many of them are answered.
    answered: u16,
    /// Whether a worker's turns ran out.
    is_late: bool,
}

impl Seen {
    /// Another ask of a worker comes. Answers how many came before.
    fn comes(&mut self, worker: u16) -> u64 {
        let Some(asks) = self.asks.get_mut(usize::from(worker)) else {
            return u64::MAX;
        };
        let before = *asks;
        *asks = before.saturating_add(1);
        if before == 0 {
            self.came = self.came.saturating_add(1);
        }
        before
    }

    /// The last ask of a worker is answered.
    fn is_answered(&mut self, worker: u16) {
        if self.asks.get(usize::from(worker)) == Some(&1) {
            self.answered = self.answered.saturating_add(1);
        }
    }

    /// Whether it is so.
    fn is_met(&self, due: Due) -> bool {
        match due {
            Due::AllCame => self.came == WORKERS,
            Due::AllAnswered => self.answered == WORKERS,
        }
    }
}

/// Holds the first ask of each of four workers until all have arrived, and its second until all first ones are answered.
#[derive(Drop)]
pub struct Meeting {
    seen: Mutex<Seen>,
}

impl Meeting {
    /// A gate that nobody came to.
    pub fn new() -> Self {
        Meeting {
            seen: Mutex::new(Seen {
                asks: [0; 4],
                came: 0,
                answered: 0,
                is_late: false,
            }),
        }
    }

    /// Waits until it is so, or the turns run out.
    fn wait<R: Wait>(&self, rt: &R, due: Due) {
        for _ in 0..TURNS {
            if self.seen.lock(rt).is_met(due) {
                return;
            }
            thread::yield_now();
        }
        self.seen.lock(rt).is_late = true;
    }

    /// Whether all four met, and none was late.
    pub fn is_over<R: Wait>(&self, rt: &R) -> bool {
        let seen = self.seen.lock(rt);
        seen.is_met(Due::AllCame) && seen.is_met(Due::AllAnswered) && !seen.is_late
    }
}

impl Gate for Meeting {
    fn at<R: Wait>(&self, rt: &R, place: Place) {
        match place {
            Place::Before { worker, .. } => {
                let before = self.seen.lock(rt).comes(worker);
                match before {
                    0 => self.wait(rt, Due::AllCame),
                    1 => self.wait(rt, Due::AllAnswered),
                    _ => {}
                }
            }
            Place::After { worker, .. } => self.seen.lock(rt).is_answered(worker),
        }
    }
}
