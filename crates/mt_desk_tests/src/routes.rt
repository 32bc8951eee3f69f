//! Routers at a desk, and what they are told.

use crate::acts::{Act, Played};
use crate::opened::{Trial, Watch, tried};
use crate::route_acts::RouteAct;
use mt_desk::DeskFault;
use std::test::Fail;

/// One keyspace with one table.
static TABLE: [&str; 2] = ["keyspace commerce", "table commerce corder"];

/// A rule is edited. A router answers by it when that is told.
static RULED: [Act; 19] = [
    Act::Gets(1),
    Act::Routes(RouteAct::Opens),
    Act::Routes(RouteAct::Leads("corder", "commerce.corder", 0)),
    Act::Asks(1, "rule corder customer.corder", "ok"),
    Act::Routes(RouteAct::Leads("corder", "commerce.corder", 0)),
    Act::Routes(RouteAct::Tells(1)),
    Act::Routes(RouteAct::Learns),
    Act::Routes(RouteAct::Leads("corder", "customer.corder", 1)),
    Act::Asks(1, "rule corder -", "ok"),
    Act::Asks(1, "at commerce.corder insert 1 a", "ok"),
    Act::Routes(RouteAct::Leads("corder", "customer.corder", 1)),
    Act::Routes(RouteAct::Tells(3)),
    Act::Routes(RouteAct::Tells(3)),
    Act::Routes(RouteAct::Learns),
    Act::Routes(RouteAct::Leads("corder", "commerce.corder", 3)),
    Act::Routes(RouteAct::Opens),
    Act::Routes(RouteAct::Leads("corder", "commerce.corder", 3)),
    Act::Routes(RouteAct::Leads("customer.corder", "customer.corder", 3)),
    Act::Gathers(&[(1, 3)]),
];

/// Two clients, and a router that is told behind them.
static TOLD: [Act; 14] = [
    Act::Gets(1),
    Act::Gets(2),
    Act::GetsNone(1, DeskFault::ClientTaken),
    Act::Reserves(1, 2),
    Act::Asks(1, "at commerce.corder insert 1 a", "ok"),
    Act::Asks(1, "at commerce.corder get 1", "row a"),
    Act::Asks(2, "at commerce.corder get 1", "row a"),
    Act::Routes(RouteAct::Opens),
    Act::Routes(RouteAct::Tells(3)),
    Act::Routes(RouteAct::Learns),
    Act::Routes(RouteAct::Leads("corder", "commerce.corder", 3)),
    Act::GathersNone(1, DeskFault::PassMissing),
    Act::Gathers(&[(1, 2), (2, 1)]),
    Act::GathersNone(0, DeskFault::PassMissing),
];

/// There are eight routers at most.
static EIGHT: [Act; 9] = [
    Act::Routes(RouteAct::Opens),
    Act::Routes(RouteAct::Opens),
    Act::Routes(RouteAct::Opens),
    Act::Routes(RouteAct::Opens),
    Act::Routes(RouteAct::Opens),
    Act::Routes(RouteAct::Opens),
    Act::Routes(RouteAct::Opens),
    Act::Routes(RouteAct::Opens),
    Act::Routes(RouteAct::OpensNone(DeskFault::RoutersFull)),
];

/// Nobody watches routes.
static UNWATCHED: [Act; 5] = [
    Act::Routes(RouteAct::Opens),
    Act::Gets(1),
    Act::Asks(1, "rule corder customer.corder", "ok"),
    Act::Routes(RouteAct::TellsNone(DeskFault::NoWatcher)),
    Act::Routes(RouteAct::Leads("corder", "commerce.corder", 0)),
];

/// The third watcher refuses.
static REFUSED: [Act; 5] = [
    Act::Routes(RouteAct::Opens),
    Act::Gets(1),
    Act::Asks(1, "rule corder customer.corder", "ok"),
    Act::Routes(RouteAct::TellsNone(DeskFault::WatcherRefused(2))),
    Act::Routes(RouteAct::Leads("corder", "commerce.corder", 0)),
];

#[test]
fn routers_answer_by_what_is_told(rt: HostRuntime) -> Result<(), Fail> {
    for (watch, acts) in [
        (Watch::Routes, RULED.as_slice()),
        (Watch::Routes, TOLD.as_slice()),
        (Watch::Routes, EIGHT.as_slice()),
        (Watch::Primaries, UNWATCHED.as_slice()),
        (Watch::RoutesRefused, REFUSED.as_slice()),
    ] {
        assert_eq!(rt;
            tried(&rt, rt.alloc(), watch, &TABLE, Trial::Acts(acts)),
            Played::AllSo
        );
    }
    Ok(())
}
