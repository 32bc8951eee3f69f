//! Publications in turn, each of which takes away most of what the one before it said, so that keys stand, go and come back.
ghost use Rattle.std.specs.Prelude.{◌≡◌};

use crate::acts::{fails, leads};
use crate::said::Said;
use crate::scene::Scene;
use mt_model::TopologyFault;
use mt_names::TabletType;
use mt_routes::{Naming, Opened, Router};
use std::alloc::Global;
use std::marker::Brand;
use std::sync::Wait;
use std::test::Fail;

/// What a publication says, and what names then lead to.
#[derive(Clone, Copy)]
pub struct Turn<'a> {
    /// What it says.
    pub said: &'a [Said<'a>],
    /// Names with the targets that they lead to.
    pub leads: &'a [(&'a str, &'a str)],
    /// Names that lead nowhere, and why.
    pub fails: &'a [(&'a str, TopologyFault)],
}

const NO_TABLE: TopologyFault = TopologyFault::NoTable;

const AMBIGUOUS: TopologyFault = TopologyFault::Ambiguous;

/// Few routes, many others, two keyspaces with the same tables, and none.
static TURNS: [Turn<'static>; 4] = [
    Turn {
        said: &[
            Said::Rule("x", "a.t"),
            Said::Table("a", "u"),
            Said::Table("b", "s"),
        ],
        leads: &[("x", "a.t"), ("u", "a.u"), ("s", "b.s")],
        fails: &[("y", NO_TABLE), ("v", NO_TABLE), ("k", NO_TABLE)],
    },
    Turn {
        said: &[
            Said::Rule("x", "b.t"),
            Said::Rule("y", "a.y"),
            Said::Rule("z", "a.z"),
            Said::Rule("u", "c.u"),
            Said::Rule("k", "c.k"),
            Said::Table("a", "s"),
            Said::Table("a", "v"),
            Said::Table("b", "w"),
            Said::Table("b", "m"),
            Said::Table("c", "n"),
            Said::Table("c", "o"),
        ],
        leads: &[
            ("x", "b.t"),
            ("y", "a.y"),
            ("z", "a.z"),
            ("u", "c.u"),
            ("k", "c.k"),
            ("s", "a.s"),
            ("v", "a.v"),
            ("w", "b.w"),
            ("m", "b.m"),
            ("n", "c.n"),
            ("o", "c.o"),
        ],
        fails: &[("t", NO_TABLE)],
    },
    Turn {
        said: &[
            Said::Rule("y", "b.t"),
            Said::Table("a", "u"),
            Said::Table("a", "s"),
            Said::Table("b", "s"),
            Said::Table("d", "k"),
            Said::Table("b", "v"),
        ],
        leads: &[("y", "b.t"), ("u", "a.u"), ("k", "d.k"), ("v", "b.v")],
        fails: &[("x", NO_TABLE), ("s", AMBIGUOUS), ("n", NO_TABLE)],
    },
    Turn {
        said: &[],
        leads: &[("a.s", "a.s")],
        fails: &[
            ("x", NO_TABLE),
            ("y", NO_TABLE),
            ("u", NO_TABLE),
            ("s", NO_TABLE),
            ("k", NO_TABLE),
        ],
    },
];

/// The turn by this front.
pub fn turn_at(front: u64) -> Turn<'static> {
    TURNS[(front % 4) as usize]
}

/// Whether each of these names leads to its target.
fn all_lead<J: Naming>(router: &mut Router<J>, names: &[(&str, &str)], front: u64) -> bool {
    for (name, target) in names.iter() {
        if !leads(router, *name, TabletType::Replica, *target, front) {
            return false;
        }
    }
    true
}

/// Whether each of these names leads nowhere, for its fault.
fn all_fail<J: Naming>(
    router: &mut Router<J>,
    names: &[(&str, TopologyFault)],
    front: u64,
) -> bool {
    for (name, fault) in names.iter() {
        if !fails(router, *name, TabletType::Primary, *fault, front) {
            return false;
        }
    }
    true
}

/// Whether a router answers as in the turn by this front.
pub fn is_as_in_turn<J: Naming>(router: &mut Router<J>, front: u64) -> bool {
    let turn = turn_at(front);
    all_lead(router, turn.leads, front) && all_fail(router, turn.fails, front)
}

/// How many of so many turns are published one after the other, and answered as they say, up to the first that isn't.
fn played<J: Naming, R: Wait>(
    rt: &R,
    alloc: Global,
    scene: &mut Scene<J>,
    router: &mut Router<J>,
    many: u64,
) -> u64 {
    for last in 0..many {
        let front = last + 1;
        if !scene.says(rt, alloc, front, turn_at(front).said) || !is_as_in_turn(router, front) {
            return last;
        }
    }
    many
}

/// How many of them are, to a new router.
fn plays_at<J: Naming, R: Wait>(
    rt: &R,
    alloc: Global,
    scene: &mut Scene<J>,
    many: u64,
) -> Option<u64> {
    match scene.router() {
        Ok(mut router) => Some(played(rt, alloc, scene, &mut router, many)),
        Err(_) => None,
    }
}

/// How many of them are, at a new list.
fn plays<J: Naming, R: Wait>(rt: &R, alloc: Global, opened: Opened, many: u64) -> Option<u64>
    requires { (opened.seen.book ≡ J.book) × (opened.blank.name ≡ J.shown) }
{
    let made: Option<Scene<J>> = Scene::of(alloc, opened, 0, turn_at(0).said);
    match made {
        Some(mut scene) => plays_at(rt, alloc, &mut scene, many),
        None => None,
    }
}

#[test]
fn what_comes_back_leads_again(rt: HostRuntime) -> Result<(), Fail> {
    let played = plays::<Brand, _>(&rt, rt.alloc(), Opened::new(), 40);
    assert_eq!(rt; played, Some(40));
    Ok(())
}
