//! Whom a race has watch the topology.
ghost use Rattle.std.specs.Prelude.{◌≡◌, ◌≤◌, true, IfOk};
ghost use Rattle.mt_race.specs.Agreements.{RacedAt, race_scopes};

use crate::moving::{source, target};
use crate::{RaceFault, Raced, race};
use mt_watch::{Scope, Watchers, telling_watcher};
use mt_workers::Gate;
use std::alloc::Global;
use std::sync::Wait;
use std::thread::Threads;

/// The scopes of the watchers of a race: the routers', and those of the primaries of both keyspaces.
fn race_scopes() -> [Scope; 3]
    ensures { result ≡ race_scopes }
{
    [
        Scope::Routes,
        Scope::Primary(source()),
        Scope::Primary(target()),
    ]
}

/// Has clients race as `race` does, with a watcher for the routers and one for the primary of each of both keyspaces, as those of
/// `mt run commerce customer`. Each tells itself what of a change concerns its scope, and refuses only if no memory is left.
pub fn race_watched<R: Threads + Wait + Sync, G: Gate + Sync>(
    rt: &R,
    alloc: Global,
    gate: &G,
    clients: u16,
    writes: u16,
) -> Result<Raced, RaceFault>
    requires clients { (1 ≤ clients) × (clients ≤ 4) }
    requires writes { (1 ≤ writes) × (writes ≤ 1000) }
    ensures agree { IfOk result (λ raced. raced.agree ≡ true → raced.acknowledged ≡ raced.rows) }
    ensures raced { IfOk result (λ raced. raced.agree ≡ true → RacedAt race_scopes clients writes raced) }
{
    let mut watchers = Watchers::new(alloc);
    let scopes = race_scopes();
    for scope in &scopes {
        let Ok(watcher) = telling_watcher!(alloc, scope.copied()) else {
            return Err(RaceFault::Memory);
        };
        if watchers.add(watcher).is_err() {
            return Err(RaceFault::Memory);
        }
    }
    race(rt, alloc, gate, clients, writes, watchers)
}
