//! What routers are told: the routes of the topology, as the watchers of routes tell them.
ghost use Rattle.std.specs.Prelude.{◌≡◌, List, IfErr, IfOk, OnOk};
ghost use Rattle.mt_model.specs.declared.entries.Entry.{Entry};
ghost use Rattle.mt_model.specs.Topology.{routes_of};
ghost use Rattle.mt_model.specs.declared.entries.Scope.TheVariants.{Routes};
ghost use Rattle.mt_routes.specs.Publications.{last_routes, publication};
ghost use Rattle.mt_watch.specs.Asking.{IsTold};
ghost use Rattle.mt_desk.specs.Fronts.{AsksNone, Changes};

use crate::DeskFault;
use mt_model::{Entry, Scope};
use mt_names::{KeyspaceName, RuleKey, TableName};
use mt_routes::{
    Front, Naming, Next, Places, Standing, Told, routes_of_a_topology_say_each_of_themselves,
    routes_say_what_their_topology_says,
};
use mt_topology::Topology;
use mt_watch::{Asks, Change, Notice, WatchersFault};
use std::alloc::{AllocError, Global};

/// A topology, asked which keys have a rule and which keyspaces have a table.
#[derive(Drop)]
struct Served<'a> {
    topology: &'a Topology,
}

impl<'a> Standing for Served<'a> {
    ghost use Rattle.std.specs.Prelude.{is_some};
    ghost use Rattle.mt_model.specs.Topology.{is_present, rule_at};

    ghost rules = { λ served key. is_some (rule_at served.topology.now.rules key) };

    ghost tables = { λ served keyspace table. is_present served.topology.now.keyspaces keyspace table };

    fn has_rule(&self, key: &RuleKey) -> bool {
        self.topology.rules().get(key).is_some()
    }

    fn has_table(&self, keyspace: &KeyspaceName, table: &TableName) -> bool {
        self.topology.is_present(keyspace, table)
    }
}

/// What the routes of a topology say otherwise than the last publication.
fn differences<J: Naming>(
    alloc: Global,
    told: &Told<J>,
    topology: &Topology,
    routes: &[Entry],
) -> Result<Vec<Entry>, AllocError>
    requires { routes.now ≡ routes_of topology.now }
    ensures { IfOk result (λ entries. Changes (last_routes told.now) topology.now entries.items) }
{
    topology.facts();
    routes_of_a_topology_say_each_of_themselves();
    routes_say_what_their_topology_says();
    told.differences(alloc, &Served { topology }, routes)
}

/// A change of some entries.
fn change_of(alloc: Global, entries: &[Entry]) -> Result<Change, WatchersFault>
    ensures { IfOk result (λ change. change ≡ entries.now) }
{
    let mut change = Change::with_room(alloc, entries.len())?;
    for entry in entries {
        change.push(entry.copied())?;
    }
    Ok(change)
}

/// Asks each watcher of routes, in the order in which they were added, with a change of what a topology's routes say otherwise than the
/// last publication. Answers the routes, and what the last one's notice says, which is this change: `K4 NoWatcher`, `K0 Memory`,
/// `K5 WatcherRefused` with the number of the first that refuses. All memory but that of the callbacks is taken before one is asked.
fn noticed<J: Naming, W: Asks>(
    alloc: Global,
    topology: &Topology,
    watchers: &W,
    told: &Told<J>,
) -> Result<(Vec<Entry>, Notice), DeskFault>
    ensures routes { IfOk result (λ r. r.0.items ≡ routes_of topology.now) }
    ensures changes { IfOk result (λ r. Changes (last_routes told.now) topology.now r.1) }
    ensures told { IfOk result (λ r. IsTold (W.scopes watchers.now) (W.may_answer watchers.now) Routes r.1 r.1) }
    ensures caused { IfErr result (λ fault. AsksNone (W.scopes watchers.now) (W.may_answer watchers.now) (Changes (last_routes told.now) topology.now) fault) }
{
    if !watchers.has(&Scope::Routes) {
        return Err(DeskFault::NoWatcher);
    }
    let Ok(list) = topology.routes(alloc) else {
        return Err(DeskFault::Memory);
    };
    let Ok(entries) = differences(alloc, told, topology, &list) else {
        return Err(DeskFault::Memory);
    };
    let Ok(change) = change_of(alloc, &entries) else {
        return Err(DeskFault::Memory);
    };
    match watchers.ask(&Scope::Routes, &change) {
        Ok(notice) => Ok((list, notice)),
        Err(WatchersFault::NoWatcher) => Err(DeskFault::NoWatcher),
        Err(WatchersFault::Refused(index)) => Err(DeskFault::WatcherRefused(index)),
        Err(_) => Err(DeskFault::Memory),
    }
}

/// The first publication, of a topology's routes. It is refused only when out of memory.
pub(crate) fn first_of(alloc: Global, topology: &Topology) -> Result<Next, AllocError>
    ensures { IfOk result (λ next. next ≡ publication 0 (routes_of topology.now)) }
{
    topology.facts();
    routes_of_a_topology_say_each_of_themselves();
    let entries = topology.routes(alloc)?;
    let places = Places::of(alloc, &entries)?;
    Next::new(alloc, Front(0), entries, places)
}

/// The publication of a topology's routes that is to follow those that are known, as the watchers of routes tell it: what the last one's
/// notice says is written to a copy of the last publication's routes. It is refused as `noticed` tells, and by `K0 Memory` behind it.
pub(crate) fn next_of<J: Naming, W: Asks>(
    alloc: Global,
    front: Front,
    topology: &Topology,
    watchers: &W,
    told: &Told<J>,
) -> Result<Next, DeskFault>
    ensures next { IfOk result (λ next. next ≡ publication front.0 (routes_of topology.now)) }
    ensures asks { OnOk result ((change : List Entry) × Changes (last_routes told.now) topology.now change
        × IsTold (W.scopes watchers.now) (W.may_answer watchers.now) Routes change change) }
    ensures caused { IfErr result (λ fault. AsksNone (W.scopes watchers.now) (W.may_answer watchers.now) (Changes (last_routes told.now) topology.now) fault) }
{
    topology.facts();
    routes_of_a_topology_say_each_of_themselves();
    let (entries, notice) = noticed(alloc, topology, watchers, told)?;
    let Ok(places) = told.written(alloc, notice.as_slice()) else {
        return Err(DeskFault::Memory);
    };
    match Next::new(alloc, front, entries, places) {
        Ok(next) => Ok(next),
        Err(_) => Err(DeskFault::Memory),
    }
}
