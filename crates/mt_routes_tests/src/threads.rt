//! Routers in four threads while a fifth publishes.
ghost use Rattle.std.specs.Prelude.{◌≡◌};

use crate::acts::{leads, learns};
use crate::said::Said;
use crate::scene::Scene;
use mt_names::{RuleKey, RuleTarget, TabletType};
use mt_routes::{Front, Naming, Opened, Router};
use std::alloc::Global;
use std::marker::Brand;
use std::sync::Wait;
use std::test::Fail;
use std::thread::{Threads, join};

/// How many publications there are behind the first.
const MANY: u64 = 1000;

/// How many look-ups a router makes at most.
const MOST: u64 = 2_000_000_000;

/// Where the name with a rule leads by the publication with this front.
static TARGETS: [&str; 8] = [
    "a.t0", "b.t1", "c.t2", "d.t3", "e.t4", "f.t5", "g.t6", "h.t7",
];

/// The keyspaces that have the table in turn.
static KEYSPACES: [&str; 2] = ["a", "b"];

/// Where its name then leads.
static HOLDERS: [&str; 2] = ["a.u", "b.u"];

/// The target by this front.
fn target_at(front: u64) -> &'static str {
    TARGETS[(front % 8) as usize]
}

/// Where the table is by this front.
fn holder_at(front: u64) -> &'static str {
    HOLDERS[(front % 2) as usize]
}

/// What is published with this front: a rule with another target, and a table that goes from one keyspace to the other.
fn said_at(front: u64) -> [Said<'static>; 2] {
    [
        Said::Rule("x", target_at(front)),
        Said::Table(KEYSPACES[(front % 2) as usize], "u"),
    ]
}

/// Where a name leads, by which front, unless it leads nowhere or by an earlier publication than the latest one that was seen.
fn led<J: Naming>(
    router: &mut Router<J>,
    key: &RuleKey,
    latest: Front,
) -> Option<(RuleTarget, Front)> {
    match router.route(key, TabletType::Primary) {
        Ok((target, front)) if front >= latest => Some((target, front)),
        _ => None,
    }
}

/// Whether each answer is by one publication, and none by an earlier one than that before it, up to the last publication.
fn reads_on<J: Naming>(mut router: Router<J>) -> bool {
    let (Ok(rule), Ok(table)) = (RuleKey::parse("x"), RuleKey::parse("u")) else {
        return false;
    };
    let mut latest = Front(0);
    for _ in 0..MOST {
        let Some((target, front)) = led(&mut router, &rule, latest) else {
            return false;
        };
        let Some((holder, after)) = led(&mut router, &table, front) else {
            return false;
        };
        if target.text().as_str() != target_at(front.0)
            || holder.text().as_str() != holder_at(after.0)
        {
            return false;
        }
        latest = after;
        if latest == Front(MANY) {
            return true;
        }
    }
    false
}

/// Whether each publication is added and shown.
fn publishes_on<J: Naming, R: Wait>(rt: &R, alloc: Global, scene: &mut Scene<J>) -> bool {
    for front in 1..=MANY {
        if !scene.says(rt, alloc, front, &said_at(front)) {
            return false;
        }
    }
    true
}

/// Two routers of a list.
fn two_routers<J: Naming>(scene: &Scene<J>) -> Option<(Router<J>, Router<J>)> {
    let Ok(one) = scene.router() else {
        return None;
    };
    match scene.router() {
        Ok(two) => Some((one, two)),
        Err(_) => None,
    }
}

/// Whether two routers read on, each in a thread of its own.
fn both_read_on<J: Naming + Send + Sync, R: Threads + Wait + Sync>(
    rt: &R,
    routers: (Router<J>, Router<J>),
) -> bool {
    let (one, two) = routers;
    join(rt, move || reads_on(one), move || reads_on(two)) == (true, true)
}

/// Whether four threads read on by these routers while this one publishes.
fn go_on<J: Naming + Send + Sync, R: Threads + Wait + Sync>(
    rt: &R,
    alloc: Global,
    scene: &mut Scene<J>,
    two: (Router<J>, Router<J>),
    two_more: (Router<J>, Router<J>),
) -> bool {
    let (two_read, (two_more_read, is_published)) = join(
        rt,
        move || both_read_on(rt, two),
        move || {
            join(
                rt,
                move || both_read_on(rt, two_more),
                move || publishes_on(rt, alloc, scene),
            )
        },
    );
    two_read && two_more_read && is_published
}

/// Whether a router answers by the last publication when it learns it.
fn learns_the_last<J: Naming>(mut router: Router<J>, scene: &Scene<J>) -> bool {
    learns(scene, &mut router)
        && leads(&mut router, "x", TabletType::Replica, target_at(MANY), MANY)
        && leads(&mut router, "u", TabletType::Replica, holder_at(MANY), MANY)
}

/// Whether four threads read on while this one publishes.
fn four_go_on<J: Naming + Send + Sync, R: Threads + Wait + Sync>(
    rt: &R,
    alloc: Global,
    scene: &mut Scene<J>,
) -> bool {
    let Some(two) = two_routers(scene) else {
        return false;
    };
    match two_routers(scene) {
        Some(two_more) => go_on(rt, alloc, scene, two, two_more),
        None => false,
    }
}

/// Whether they do, and a router then answers by the last publication.
fn all_go_on_at<J: Naming + Send + Sync, R: Threads + Wait + Sync>(
    rt: &R,
    alloc: Global,
    scene: &mut Scene<J>,
) -> bool {
    match scene.router() {
        Ok(after) => four_go_on(rt, alloc, scene) && learns_the_last(after, scene),
        Err(_) => false,
    }
}

/// Whether they do so at a new list.
fn all_go_on<J: Naming + Send + Sync, R: Threads + Wait + Sync>(
    rt: &R,
    alloc: Global,
    opened: Opened,
) -> bool
    requires { (opened.seen.book ≡ J.book) × (opened.blank.name ≡ J.shown) }
{
    let made: Option<Scene<J>> = Scene::of(alloc, opened, 0, &said_at(0));
    match made {
        Some(mut scene) => all_go_on_at(rt, alloc, &mut scene),
        None => false,
    }
}

#[test]
fn four_read_while_a_fifth_publishes(rt: HostRuntime) -> Result<(), Fail> {
    assert!(rt; all_go_on::<Brand, _>(&rt, rt.alloc(), Opened::new()));
    Ok(())
}
