//! Lists of acts with two workflows from the same source: one to a target of some shards, one to a target of one.

use crate::acts::{Act, is_done};
use crate::scene::{Moved, Scene};
use mt_names::KeyspaceName;
use mt_watch::{Asks, Scope, Watchers, telling_watcher};
use std::alloc::Global;

/// With which of the two workflows something is done: the one that moves `t`, or the one that moves `u`.
#[derive(Clone, Copy, PartialEq)]
pub enum Of {
    T,
    U,
}

/// How a list of acts went.
#[derive(Clone, Copy, Debug, Eq, PartialEq)]
pub enum Played {
    /// Each act was done so.
    AllSo,
    /// The act of this index was the first that wasn't.
    Wrong(usize),
    /// The workflows or their sides weren't made.
    NotMade,
}

/// The two workflows.
#[derive(Drop)]
struct Both {
    t: Moved,
    u: Moved,
}

/// A workflow of some tables to a target, created in a scene.
fn created(
    alloc: Global,
    scene: &mut Scene,
    name: &str,
    target: &str,
    listed: &str,
) -> Option<Moved> {
    let moved = Moved::new(alloc, scene, name, target, listed)?;
    scene.create(&moved);
    Some(moved)
}

/// Both workflows, created in a scene.
fn both_of(alloc: Global, scene: &mut Scene, target: &str) -> Option<Both> {
    let t = created(alloc, scene, "m", target, "t")?;
    let Some(u) = created(alloc, scene, "n", "one", "u") else {
        drop(t);
        return None;
    };
    Some(Both { t, u })
}

/// Whether something is done so with one of the two.
fn is_so<W: Asks>(
    alloc: Global,
    scene: &mut Scene,
    both: &mut Both,
    watchers: &W,
    (of, act): (Of, Act),
) -> bool {
    match of {
        Of::T => is_done(alloc, scene, &mut both.t, watchers, act),
        Of::U => is_done(alloc, scene, &mut both.u, watchers, act),
    }
}

/// How acts go, which are done in their order up to the first that isn't done so.
fn play_all<W: Asks>(
    alloc: Global,
    scene: &mut Scene,
    both: &mut Both,
    watchers: &W,
    acts: &[(Of, Act)],
) -> Played {
    for (index, act) in acts.iter().enumerate() {
        if !is_so(alloc, scene, both, watchers, *act) {
            return Played::Wrong(index);
        }
    }
    Played::AllSo
}

/// How acts go in a scene in which both workflows are created before.
fn play_in(
    alloc: Global,
    scene: &mut Scene,
    watchers: &Watchers,
    target: &str,
    acts: &[(Of, Act)],
) -> Played {
    let Some(mut both) = both_of(alloc, scene, target) else {
        return Played::NotMade;
    };
    let played = play_all(alloc, scene, &mut both, watchers, acts);
    drop(both);
    played
}

/// How acts go in a scene of their own, in which both workflows are created before.
fn play(alloc: Global, watchers: &Watchers, target: &str, acts: &[(Of, Act)]) -> Played {
    let Some(mut scene) = Scene::new(alloc, [target, "one"]) else {
        return Played::NotMade;
    };
    let played = play_in(alloc, &mut scene, watchers, target, acts);
    drop(scene);
    played
}

/// How acts go in such a scene with a watcher for the primaries of each keyspace that is named.
fn play_watched(alloc: Global, keyspaces: &[&str], target: &str, acts: &[(Of, Act)]) -> Played {
    let mut watchers = Watchers::new(alloc);
    for keyspace in keyspaces {
        let Ok(name) = KeyspaceName::parse(keyspace) else {
            return Played::NotMade;
        };
        let Ok(watcher) = telling_watcher!(alloc, Scope::Primary(name)) else {
            return Played::NotMade;
        };
        if watchers.add(watcher).is_err() {
            return Played::NotMade;
        }
    }
    play(alloc, &watchers, target, acts)
}

/// How acts go with watchers for the targets' primaries, and with one for the source's if there is to be one; at once, or at a second try if
/// there was no memory for the watchers or the sides.
pub fn play_to(alloc: Global, is_watched: bool, target: &str, acts: &[(Of, Act)]) -> Played {
    let all = ["a", target, "one"];
    let keyspaces = if is_watched { &all[..] } else { &all[1..] };
    match play_watched(alloc, keyspaces, target, acts) {
        Played::NotMade => play_watched(alloc, keyspaces, target, acts),
        answer => answer,
    }
}
