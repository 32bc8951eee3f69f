//! Where an allocation fails, an opening and a publication are refused and can be made again, and what was published is shown until
//! then.
ghost use Rattle.std.specs.Prelude.{◌≡◌};

use crate::said::topology_of;
use crate::scene::Scene;
use crate::turns::{is_as_in_turn, turn_at};
use mt_routes::{Naming, Opened, Router};
use mt_topology::Topology;
use std::alloc::Global;
use std::marker::Brand;
use std::sync::Wait;
use std::test::Fail;

/// How many turns are published behind the first: each comes twice.
const MANY: u64 = 8;

/// A topology of the routes of a turn, made at once or at a second try.
fn topology_at(alloc: Global, front: u64) -> Option<Topology> {
    match topology_of(alloc, turn_at(front).said) {
        Some(topology) => Some(topology),
        None => topology_of(alloc, turn_at(front).said),
    }
}

/// Whether a turn is published, at once or at a second try behind a refusal, at which a router answers as in the turn that was
/// published last.
fn is_published<J: Naming, R: Wait>(
    rt: &R,
    alloc: Global,
    scene: &mut Scene<J>,
    router: &mut Router<J>,
    last: u64,
    front: u64,
) -> bool {
    match topology_at(alloc, front) {
        Some(topology) => {
            scene.publishes(rt, alloc, front, &topology)
                || is_as_in_turn(router, last) && scene.publishes(rt, alloc, front, &topology)
        }
        None => false,
    }
}

/// Whether each turn is published, and answered as it says.
fn are_all_published<J: Naming, R: Wait>(
    rt: &R,
    alloc: Global,
    scene: &mut Scene<J>,
    router: &mut Router<J>,
) -> bool {
    for last in 0..MANY {
        let front = last + 1;
        if !is_published(rt, alloc, scene, router, last, front) || !is_as_in_turn(router, front) {
            return false;
        }
    }
    true
}

/// Whether each is published at a new list and to a new router, where what is refused is asked for again. Where there is no memory for what
/// routers are shown there is no list.
fn are_published<J: Naming, R: Wait>(rt: &R, alloc: Global, opened: Opened) -> bool
    requires { (opened.seen.book ≡ J.book) × (opened.blank.name ≡ J.shown) }
{
    let Some(first) = topology_at(alloc, 0) else {
        return false;
    };
    let made: Option<Scene<J>> = Scene::open(alloc, opened, 0, &first);
    let Some(mut scene) = made else {
        return true;
    };
    match scene.router() {
        Ok(mut router) => are_all_published(rt, alloc, &mut scene, &mut router),
        Err(_) => false,
    }
}

#[test]
fn want_of_memory_is_no_other_answer(rt: HostRuntime) -> Result<(), Fail> {
    assert!(rt; are_published::<Brand, _>(&rt, rt.alloc(), Opened::new()));
    Ok(())
}

/// The front of what is published behind a try: that of this turn, or that of the last one where it is refused.
fn published_behind<J: Naming, R: Wait>(
    rt: &R,
    alloc: Global,
    scene: &mut Scene<J>,
    last: u64,
    front: u64,
) -> u64 {
    if scene.says(rt, alloc, front, turn_at(front).said) {
        front
    } else {
        last
    }
}

/// Whether a router answers as in the turn that is published, each time that one is tried.
fn are_answered<J: Naming, R: Wait>(
    rt: &R,
    alloc: Global,
    scene: &mut Scene<J>,
    router: &mut Router<J>,
) -> bool {
    let mut last = 0;
    for before in 0..MANY {
        last = published_behind(rt, alloc, scene, last, before + 1);
        if !is_as_in_turn(router, last) {
            return false;
        }
    }
    true
}

/// Whether it does so at a new list, if there was memory for the list.
fn are_answered_anew<J: Naming, R: Wait>(rt: &R, alloc: Global, opened: Opened) -> bool
    requires { (opened.seen.book ≡ J.book) × (opened.blank.name ≡ J.shown) }
{
    let made: Option<Scene<J>> = Scene::of(alloc, opened, 0, turn_at(0).said);
    let Some(mut scene) = made else {
        return true;
    };
    match scene.router() {
        Ok(mut router) => are_answered(rt, alloc, &mut scene, &mut router),
        Err(_) => true,
    }
}

#[test]
fn no_memory_is_asked_for(rt: HostRuntime) -> Result<(), Fail> {
    assert!(rt; are_answered_anew::<Brand, _>(&rt, rt.alloc(), Opened::new()));
    Ok(())
}
