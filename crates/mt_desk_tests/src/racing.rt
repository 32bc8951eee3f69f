//! Races.

use crate::meeting::Meeting;
use mt_race::{RaceFault, Raced, race_watched};
use mt_workers::NoGate;

/// Whether what was written is found behind a race.
fn agrees(raced: Result<Raced, RaceFault>) -> bool {
    match raced {
        Ok(raced) => raced.agree && raced.acknowledged == raced.rows && raced.rows > 0,
        Err(_) => false,
    }
}

/// Workers that ran one after another, or in turns on one thread, would be late.
#[test]
fn four_workers_ask_at_once(rt: HostRuntime) {
    let meeting = Meeting::new();
    assert!(rt; agrees(race_watched(&rt, rt.alloc(), &meeting, 2, 2)) && meeting.is_over(&rt));
}

#[test]
fn what_is_acknowledged_is_found(rt: HostRuntime) {
    assert!(rt; agrees(race_watched(&rt, rt.alloc(), &NoGate, 4, 100)));
}
