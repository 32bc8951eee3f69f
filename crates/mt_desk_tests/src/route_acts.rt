//! What is asked of the routes at a desk.

use mt_desk::{Desk, DeskFault, DeskName};
use mt_names::{RuleKey, RuleTarget, TabletType};
use mt_routes::{Front, Router, Told};
use mt_watch::Asks;
use std::alloc::Global;
use std::sync::Wait;

/// What is asked of the routes at a desk.
#[derive(Clone, Copy)]
pub enum RouteAct {
    /// A router is there, which is asked from then on.
    Opens,
    /// No router is there, with this refusal.
    OpensNone(DeskFault),
    /// The routes are told, with this front.
    Tells(u64),
    /// They aren't, with this refusal.
    TellsNone(DeskFault),
    /// The router learns what was told last.
    Learns,
    /// A name leads to a target at the primary, with this front.
    Leads(&'static str, &'static str, u64),
}

/// Routers, and what was told last.
#[derive(Drop)]
pub struct Routing<D: DeskName> {
    routers: Vec<Router<D>>,
    told: Option<Told<D>>,
}

impl<D: DeskName> Routing<D> {
    /// No router, and nothing was told.
    pub fn new(alloc: Global) -> Self {
        Routing {
            routers: Vec::new(alloc),
            told: None,
        }
    }

    /// Whether there is a router, which learns what was told last.
    fn learns(&mut self) -> bool {
        let (Some(router), Some(told)) = (self.routers.last_mut(), &self.told) else {
            return false;
        };
        match told.again() {
            Ok(told) => {
                router.learn(told);
                true
            }
            Err(_) => false,
        }
    }
}

/// Whether a name leads to a target at the primary, with this front.
pub fn leads<D: DeskName>(router: &mut Router<D>, name: &str, target: &str, front: u64) -> bool {
    match (RuleKey::parse(name), RuleTarget::parse(target)) {
        (Ok(key), Ok(target)) => {
            router.route(&key, TabletType::Primary) == Ok((target, Front(front)))
        }
        _ => false,
    }
}

/// Whether an act is so.
pub fn is_routed<D: DeskName, W: Asks + Drop>(
    rt: &impl Wait,
    desk: &Desk<D, W>,
    routing: &mut Routing<D>,
    act: RouteAct,
) -> bool {
    match act {
        RouteAct::Opens => match desk.router(rt) {
            Ok(router) => routing.routers.push(router).is_ok(),
            Err(_) => false,
        },
        RouteAct::OpensNone(refusal) => desk.router(rt).err() == Some(refusal),
        RouteAct::Tells(front) => match desk.tell(rt) {
            Ok(told) => {
                let is_so = told.front() == Front(front);
                routing.told = Some(told);
                is_so
            }
            Err(_) => false,
        },
        RouteAct::TellsNone(refusal) => desk.tell(rt).err() == Some(refusal),
        RouteAct::Learns => routing.learns(),
        RouteAct::Leads(name, target, front) => match routing.routers.last_mut() {
            Some(router) => leads(router, name, target, front),
            None => false,
        },
    }
}
