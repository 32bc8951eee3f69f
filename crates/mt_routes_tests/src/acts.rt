//! Tables of acts: publications with their routes, and what routers answer.
ghost use Rattle.std.specs.Prelude.{◌≡◌};

use crate::said::Said;
use crate::scene::Scene;
use mt_model::TopologyFault;
use mt_names::{RuleKey, RuleTarget, TabletType};
use mt_routes::{Front, MAX_ROUTERS, Naming, Opened, Router};
use std::alloc::Global;
use std::marker::Brand;
use std::sync::Wait;
use std::test::Fail;

/// An act, and what it is to be answered.
#[derive(Clone, Copy)]
enum Act<'a> {
    /// A publication with this front is added and shown.
    Publishes(u64, &'a [Said<'a>]),
    /// None is added with this front.
    Refuses(u64, &'a [Said<'a>]),
    /// So many publications are known.
    Counts(u64),
    /// The router learns what is known.
    Learns,
    /// A name leads to a target, by the publication with this front.
    Leads(&'a str, TabletType, &'a str, u64),
    /// A name leads nowhere, by the publication with this front.
    Fails(&'a str, TabletType, TopologyFault, u64),
}

const PRIMARY: TabletType = TabletType::Primary;

const REPLICA: TabletType = TabletType::Replica;

const RDONLY: TabletType = TabletType::Rdonly;

const NO_TABLE: TopologyFault = TopologyFault::NoTable;

const AMBIGUOUS: TopologyFault = TopologyFault::Ambiguous;

/// Whether a name leads to a target.
pub fn leads<J: Naming>(
    router: &mut Router<J>,
    name: &str,
    tablet_type: TabletType,
    target: &str,
    front: u64,
) -> bool {
    match (RuleKey::parse(name), RuleTarget::parse(target)) {
        (Ok(key), Ok(target)) => router.route(&key, tablet_type) == Ok((target, Front(front))),
        _ => false,
    }
}

/// Whether a name leads nowhere, for this fault.
pub fn fails<J: Naming>(
    router: &mut Router<J>,
    name: &str,
    tablet_type: TabletType,
    fault: TopologyFault,
    front: u64,
) -> bool {
    match RuleKey::parse(name) {
        Ok(key) => router.route(&key, tablet_type) == Err((fault, Front(front))),
        Err(_) => false,
    }
}

/// Whether a router learns what is known.
pub fn learns<J: Naming>(scene: &Scene<J>, router: &mut Router<J>) -> bool {
    match scene.told().again() {
        Ok(told) => {
            router.learn(told);
            true
        }
        Err(_) => false,
    }
}

/// Whether an act is answered so.
fn is_so<J: Naming, R: Wait>(
    rt: &R,
    alloc: Global,
    scene: &mut Scene<J>,
    router: &mut Router<J>,
    act: Act<'_>,
) -> bool {
    match act {
        Act::Publishes(front, said) => scene.says(rt, alloc, front, said),
        Act::Refuses(front, said) => !scene.says(rt, alloc, front, said),
        Act::Counts(many) => scene.told().len() == many,
        Act::Learns => learns(scene, router),
        Act::Leads(name, tablet_type, target, front) => {
            leads(router, name, tablet_type, target, front)
        }
        Act::Fails(name, tablet_type, fault, front) => {
            fails(router, name, tablet_type, fault, front)
        }
    }
}

/// The index of the first act that isn't answered so at a scene, or how many there are.
fn played<J: Naming, R: Wait>(
    rt: &R,
    alloc: Global,
    scene: &mut Scene<J>,
    router: &mut Router<J>,
    acts: &[Act<'_>],
) -> usize {
    for (index, act) in acts.iter().enumerate() {
        if !is_so(rt, alloc, scene, router, *act) {
            return index;
        }
    }
    acts.len()
}

/// The index of the first act that isn't answered so by a new router, if there is a place for it.
fn plays_at<J: Naming, R: Wait>(
    rt: &R,
    alloc: Global,
    scene: &mut Scene<J>,
    acts: &[Act<'_>],
) -> Option<usize> {
    match scene.router() {
        Ok(mut router) => Some(played(rt, alloc, scene, &mut router, acts)),
        Err(_) => None,
    }
}

/// The index of the first act that isn't answered so at a new list, if there is memory for it.
fn plays<J: Naming, R: Wait>(
    rt: &R,
    alloc: Global,
    opened: Opened,
    acts: &[Act<'_>],
) -> Option<usize>
    requires { (opened.seen.book ≡ J.book) × (opened.blank.name ≡ J.shown) }
{
    let said = [Said::Rule("x", "a.t"), Said::Table("a", "u")];
    let made: Option<Scene<J>> = Scene::of(alloc, opened, 0, &said);
    match made {
        Some(mut scene) => plays_at(rt, alloc, &mut scene, acts),
        None => None,
    }
}

/// The routes of one publication, with what each name leads to. Of two of its names a rule or a table went.
static LOOK_UPS: [Act<'static>; 24] = [
    Act::Leads("x", PRIMARY, "a.t", 0),
    Act::Leads("u", PRIMARY, "a.u", 0),
    Act::Fails("y", PRIMARY, NO_TABLE, 0),
    Act::Leads("c.z", REPLICA, "c.z", 0),
    Act::Publishes(
        3,
        &[
            Said::Rule("w", "b.w"),
            Said::Table("d", "w"),
            Said::Table("a", "v"),
        ],
    ),
    Act::Leads("w", PRIMARY, "b.w", 3),
    Act::Leads("v", PRIMARY, "a.v", 3),
    Act::Fails("x", PRIMARY, NO_TABLE, 3),
    Act::Publishes(
        7,
        &[
            Said::Rule("x", "b.t"),
            Said::Rule("x@rdonly", "c.t"),
            Said::Rule("y@replica", "a.y"),
            Said::Rule("a.q", "b.q"),
            Said::Table("a", "u"),
            Said::Table("b", "s"),
            Said::Table("a", "s"),
            Said::Table("d", "w"),
        ],
    ),
    Act::Leads("x", PRIMARY, "b.t", 7),
    Act::Leads("x", REPLICA, "b.t", 7),
    Act::Leads("x", RDONLY, "c.t", 7),
    Act::Leads("y", REPLICA, "a.y", 7),
    Act::Fails("y", PRIMARY, NO_TABLE, 7),
    Act::Leads("a.q", RDONLY, "b.q", 7),
    Act::Leads("b.q", PRIMARY, "b.q", 7),
    Act::Leads("w", PRIMARY, "d.w", 7),
    Act::Leads("u", REPLICA, "a.u", 7),
    Act::Fails("s", PRIMARY, AMBIGUOUS, 7),
    Act::Fails("v", PRIMARY, NO_TABLE, 7),
    Act::Publishes(7, &[Said::Table("b", "s")]),
    Act::Leads("s", RDONLY, "b.s", 7),
    Act::Fails("x", PRIMARY, NO_TABLE, 7),
    Act::Fails("u", PRIMARY, NO_TABLE, 7),
];

/// What was published is shown to a router that wasn't told of it, and one that was told answers by it too. What is refused isn't shown.
static TOLD: [Act<'static>; 17] = [
    Act::Learns,
    Act::Leads("x", PRIMARY, "a.t", 0),
    Act::Publishes(1, &[Said::Rule("x", "b.t")]),
    Act::Leads("x", PRIMARY, "b.t", 1),
    Act::Learns,
    Act::Leads("x", PRIMARY, "b.t", 1),
    Act::Refuses(0, &[]),
    Act::Refuses(0, &[Said::Rule("x", "e.t")]),
    Act::Leads("x", PRIMARY, "b.t", 1),
    Act::Publishes(2, &[Said::Rule("x", "c.t")]),
    Act::Leads("x", PRIMARY, "c.t", 2),
    Act::Publishes(9, &[]),
    Act::Fails("x", PRIMARY, NO_TABLE, 9),
    Act::Publishes(9, &[Said::Rule("x", "d.t")]),
    Act::Learns,
    Act::Leads("x", PRIMARY, "d.t", 9),
    Act::Counts(5),
];

/// A table of two keyspaces leads nowhere. Where it goes from one of them, whichever, it leads to the other, and nowhere again where it
/// comes back. A rule leads all the same.
static HOLDERS: [Act<'static>; 19] = [
    Act::Publishes(1, &[Said::Table("a", "s"), Said::Table("b", "s")]),
    Act::Fails("s", PRIMARY, AMBIGUOUS, 1),
    Act::Leads("a.s", PRIMARY, "a.s", 1),
    Act::Publishes(2, &[Said::Table("b", "s")]),
    Act::Leads("s", PRIMARY, "b.s", 2),
    Act::Leads("s", REPLICA, "b.s", 2),
    Act::Publishes(3, &[Said::Table("b", "s"), Said::Table("a", "s")]),
    Act::Fails("s", RDONLY, AMBIGUOUS, 3),
    Act::Publishes(4, &[Said::Table("a", "s"), Said::Table("b", "r")]),
    Act::Leads("s", PRIMARY, "a.s", 4),
    Act::Leads("r", PRIMARY, "b.r", 4),
    Act::Publishes(
        5,
        &[
            Said::Rule("s@replica", "b.s"),
            Said::Table("c", "s"),
            Said::Table("b", "s"),
            Said::Table("a", "s"),
        ],
    ),
    Act::Fails("s", PRIMARY, AMBIGUOUS, 5),
    Act::Leads("s", REPLICA, "b.s", 5),
    Act::Publishes(6, &[Said::Table("c", "s")]),
    Act::Leads("s", REPLICA, "c.s", 6),
    Act::Fails("r", PRIMARY, NO_TABLE, 6),
    Act::Publishes(7, &[]),
    Act::Fails("s", PRIMARY, NO_TABLE, 7),
];

/// A publication that says what the last one said leads as before, with its own front, and is one more. In what order routes are
/// said is nothing to it.
static UNCHANGED: [Act<'static>; 13] = [
    Act::Counts(1),
    Act::Publishes(4, &[Said::Rule("x", "a.t"), Said::Table("a", "u")]),
    Act::Leads("x", PRIMARY, "a.t", 4),
    Act::Leads("u", PRIMARY, "a.u", 4),
    Act::Fails("y", PRIMARY, NO_TABLE, 4),
    Act::Counts(2),
    Act::Publishes(5, &[Said::Table("a", "u"), Said::Rule("x", "a.t")]),
    Act::Leads("x", PRIMARY, "a.t", 5),
    Act::Leads("u", PRIMARY, "a.u", 5),
    Act::Publishes(5, &[Said::Table("a", "u"), Said::Rule("x", "a.t")]),
    Act::Leads("x", REPLICA, "a.t", 5),
    Act::Leads("u", REPLICA, "a.u", 5),
    Act::Counts(4),
];

#[test]
fn routers_answer_by_what_is_published(rt: HostRuntime) -> Result<(), Fail> {
    let tables = [
        LOOK_UPS.as_slice(),
        TOLD.as_slice(),
        HOLDERS.as_slice(),
        UNCHANGED.as_slice(),
    ];
    for acts in tables.iter() {
        let played = plays::<Brand, _>(&rt, rt.alloc(), Opened::new(), *acts);
        assert_eq!(rt; played, Some(acts.len()));
    }
    Ok(())
}

/// Whether there is a place for one more router, which is added to the others.
fn has_a_place<J: Naming>(scene: &Scene<J>, routers: &mut Vec<Router<J>>) -> bool {
    match scene.router() {
        Ok(router) => routers.push(router).is_ok(),
        Err(_) => false,
    }
}

/// Whether there are eight places for routers, and one is free again behind a router that is dropped.
fn are_eight<J: Naming>(scene: &Scene<J>, routers: &mut Vec<Router<J>>) -> bool {
    for _ in 0..MAX_ROUTERS {
        if !has_a_place(scene, routers) {
            return false;
        }
    }
    let is_full = scene.router().is_err();
    routers.pop();
    is_full && has_a_place(scene, routers)
}

/// Whether the newest router answers by what was published.
fn is_newest_so<J: Naming>(routers: &mut Vec<Router<J>>) -> bool {
    match routers.last_mut() {
        Some(last) => leads(last, "x", PRIMARY, "a.t", 5),
        None => false,
    }
}

/// Whether there are eight places for routers, one is free again behind a router that is dropped, and routers answer as before once
/// nobody shows anything any more.
fn has_eight_places<J: Naming>(alloc: Global, opened: Opened) -> bool
    requires { (opened.seen.book ≡ J.book) × (opened.blank.name ≡ J.shown) }
{
    let made: Option<Scene<J>> = Scene::of(alloc, opened, 5, &[Said::Rule("x", "a.t")]);
    let Some(scene) = made else {
        return false;
    };
    let mut routers = Vec::new(alloc);
    let are_so = are_eight(&scene, &mut routers) && is_newest_so(&mut routers);
    drop(scene);
    are_so && is_newest_so(&mut routers)
}

#[test]
fn there_are_eight_places(rt: HostRuntime) -> Result<(), Fail> {
    assert!(rt; has_eight_places::<Brand>(rt.alloc(), Opened::new()));
    Ok(())
}
