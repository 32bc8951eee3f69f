//! Look-ups by routers and behind a lock, in some threads at once: `bench/routes.py` says how many, and measures how long they take.
ghost use Rattle.std.specs.Prelude.{◌≡◌};

use crate::scene::Scene;
use crate::sizes::{Many, many_keys, many_routes};
use mt_model::MAX_RULES;
use mt_names::{RuleKey, TabletType};
use mt_routes::{Naming, Opened, Places, Router, routes_of_a_topology_say_each_of_themselves};
use std::alloc::Global;
use std::env::VarError;
use std::marker::Brand;
use std::sync::{Mutex, Wait};
use std::test::Fail;
use std::thread::Threads;
use std::{env, thread};

/// As many rules as there may be.
const RULES: Many<'static> = Many {
    word: "t",
    rules: MAX_RULES,
    names: MAX_RULES,
};

/// How many of so many look-ups by a router led somewhere.
fn routed_by<J: Naming>(mut router: Router<J>, keys: &[RuleKey], many: u64) -> u64 {
    let mut led = 0u64;
    for number in 0..many {
        if let Some(key) = keys.get((number % MAX_RULES as u64) as usize) {
            led = led.saturating_add(router.route(key, TabletType::Primary).is_ok() as u64);
        }
    }
    led
}

/// How many of so many look-ups behind a lock led somewhere.
fn found_by<R: Wait>(rt: &R, places: &Mutex<Places>, keys: &[RuleKey], many: u64) -> u64 {
    let mut led = 0u64;
    for number in 0..many {
        if let Some(key) = keys.get((number % MAX_RULES as u64) as usize) {
            let answer = places.lock(rt).find(key, TabletType::Primary);
            led = led.saturating_add(answer.is_ok() as u64);
        }
    }
    led
}

/// So many routers of a list.
fn routers_of<J: Naming>(alloc: Global, scene: &Scene<J>, count: u64) -> Option<Vec<Router<J>>> {
    let mut routers = Vec::new(alloc);
    for _ in 0..count {
        routers.push(scene.router().ok()?).ok()?;
    }
    Some(routers)
}

/// Whether all look-ups by these routers lead somewhere, so many by each in a thread of its own.
fn are_led<J: Naming + Send + Sync, R: Threads + Wait + Sync>(
    rt: &R,
    routers: Vec<Router<J>>,
    names: &[RuleKey],
    many: u64,
) -> bool {
    match thread::map_vec(rt, routers, &|router| routed_by(router, names, many)) {
        Ok(led) => led.iter().all(|count| *count == many),
        Err(_) => false,
    }
}

/// Whether all look-ups by so many routers of a list lead somewhere.
fn are_routed_at<J: Naming + Send + Sync, R: Threads + Wait + Sync>(
    rt: &R,
    alloc: Global,
    scene: &Scene<J>,
    readers: u64,
    many: u64,
) -> bool {
    let Some(keys) = many_keys(alloc, RULES) else {
        return false;
    };
    match routers_of(alloc, scene, readers) {
        Some(routers) => are_led(rt, routers, keys.as_slice(), many),
        None => false,
    }
}

/// Whether all look-ups by routers lead somewhere, so many in each of so many threads.
fn are_routed<J: Naming + Send + Sync, R: Threads + Wait + Sync>(
    rt: &R,
    alloc: Global,
    opened: Opened,
    readers: u64,
    many: u64,
) -> bool
    requires { (opened.seen.book ≡ J.book) × (opened.blank.name ≡ J.shown) }
{
    let Some(first) = many_routes(alloc, RULES) else {
        return false;
    };
    let made: Option<Scene<J>> = Scene::open(alloc, opened, 0, &first);
    match made {
        Some(scene) => are_routed_at(rt, alloc, &scene, readers, many),
        None => false,
    }
}

/// The places of as many rules as there may be.
fn many_places(alloc: Global) -> Option<Places> {
    let topology = many_routes(alloc, RULES)?;
    topology.facts();
    routes_of_a_topology_say_each_of_themselves();
    let routes = topology.routes(alloc).ok()?;
    Places::of(alloc, &routes).ok()
}

/// Whether all look-ups behind a lock lead somewhere, so many in each of so many threads.
fn are_found_in<R: Threads + Wait + Sync>(
    rt: &R,
    alloc: Global,
    places: &Mutex<Places>,
    names: &[RuleKey],
    readers: u64,
    many: u64,
) -> bool {
    let count = readers as usize;
    match thread::map_indices(rt, alloc, count, &|_| found_by(rt, places, names, many)) {
        Ok(led) => led.iter().all(|count| *count == many),
        Err(_) => false,
    }
}

/// Whether all look-ups behind a lock lead somewhere, of as many rules as there may be.
fn are_found<R: Threads + Wait + Sync>(rt: &R, alloc: Global, readers: u64, many: u64) -> bool {
    let Some(keys) = many_keys(alloc, RULES) else {
        return false;
    };
    match many_places(alloc) {
        Some(places) => {
            let shared = Mutex::new(places);
            are_found_in(rt, alloc, &shared, keys.as_slice(), readers, many)
        }
        None => false,
    }
}

/// The number in a variable, or another one if it isn't set.
fn number(rt: &HostRuntime, name: &str, unset: u64) -> Result<u64, Fail> {
    match env::var(rt, name) {
        Ok(text) => Ok(text.as_str().parse::<u64>()?),
        Err(VarError::NotPresent) => Ok(unset),
        Err(_) => Err(Fail::from("no number")),
    }
}

#[test]
fn look_ups_by_routers(rt: HostRuntime) -> Result<(), Fail> {
    let (readers, many) = (
        number(&rt, "MT_READERS", 2)?,
        number(&rt, "MT_LOOK_UPS", 5000)?,
    );
    assert!(rt; are_routed::<Brand, _>(&rt, rt.alloc(), Opened::new(), readers, many));
    Ok(())
}

#[test]
fn look_ups_behind_a_lock(rt: HostRuntime) -> Result<(), Fail> {
    let (readers, many) = (
        number(&rt, "MT_READERS", 2)?,
        number(&rt, "MT_LOOK_UPS", 5000)?,
    );
    assert!(rt; are_found(&rt, rt.alloc(), readers, many));
    Ok(())
}
