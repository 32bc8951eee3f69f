//! Passes, what they are answered with, and what is gathered.

use crate::acts::{Act, Played};
use crate::opened::{Trial, Watch, tried};
use mt_desk::DeskFault;
use std::test::Fail;

/// One keyspace with one table.
static TABLE: [&str; 2] = ["keyspace commerce", "table commerce corder"];

/// Two clients at its rows.
static CALLS: [Act; 19] = [
    Act::Gets(1),
    Act::Gets(2),
    Act::GetsNone(1, DeskFault::ClientTaken),
    Act::Reserves(1, 2),
    Act::Asks(1, "at commerce.corder insert 1 a", "ok"),
    Act::Asks(1, "at commerce.corder get 1", "row a"),
    Act::Asks(2, "at commerce.corder get 1", "row a"),
    Act::GathersNone(1, DeskFault::PassMissing),
    Act::GathersNone(0, DeskFault::PassMissing),
    Act::Gathers(&[(1, 2), (2, 1)]),
    Act::GathersNone(0, DeskFault::PassMissing),
    Act::GetsNone(2, DeskFault::ClientTaken),
    Act::Gets(65535),
    Act::Asks(65535, "table commerce corder", "refused F30 Exists"),
    Act::Asks(65535, "keyspace customer", "ok"),
    Act::Asks(65535, "table customer corder", "ok"),
    Act::Asks(65535, "at customer.corder get 1", "none"),
    Act::Asks(65535, "at commerce.corder get 1", "row a"),
    Act::GathersNone(1, DeskFault::PassMissing),
];

/// At a desk that nobody asked.
static NOBODY: [Act; 4] = [
    Act::Gathers(&[]),
    Act::Gets(0),
    Act::Gathers(&[(0, 0)]),
    Act::GathersNone(0, DeskFault::PassMissing),
];

#[test]
fn each_call_is_gathered_once(rt: HostRuntime) -> Result<(), Fail> {
    for acts in [CALLS.as_slice(), NOBODY.as_slice()] {
        assert_eq!(rt;
            tried(&rt, rt.alloc(), Watch::Primaries, &TABLE, Trial::Acts(acts)),
            Played::AllSo
        );
    }
    Ok(())
}

/// How each refusal is printed.
static FAULTS: [(DeskFault, &str); 7] = [
    (DeskFault::Memory, "K0 Memory"),
    (DeskFault::HistoryDiffers(1), "K1 HistoryDiffers"),
    (DeskFault::RoutersFull, "K3 RoutersFull"),
    (DeskFault::NoWatcher, "K4 NoWatcher"),
    (DeskFault::WatcherRefused(2), "K5 WatcherRefused"),
    (DeskFault::ClientTaken, "K6 ClientTaken"),
    (DeskFault::PassMissing, "K7 PassMissing"),
];

#[test]
fn refusals_are_printed_by_number_and_name(rt: HostRuntime) {
    for (fault, text) in &FAULTS {
        assert_eq!(rt; fault.as_str(), *text);
    }
}
