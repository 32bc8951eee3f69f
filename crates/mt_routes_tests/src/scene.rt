//! A list of publications with what shows them, which is told of routes by topologies.
ghost use Rattle.std.specs.Prelude.{◌≡◌, IfOk};
ghost use Rattle.mt_model.specs.Topology.{routes_of};
ghost use Rattle.mt_routes.specs.Publications.{publication};

use crate::said::{Said, topology_of};
use mt_names::{KeyspaceName, RuleKey, TableName};
use mt_routes::{
    Front, Head, Naming, Next, Opened, Places, Publisher, Router, RoutersFull, Standing, Told,
    routes_of_a_topology_say_each_of_themselves, routes_say_what_their_topology_says,
};
use mt_topology::Topology;
use std::alloc::{AllocError, Global};
use std::sync::Wait;

/// How many publications there are to be at most.
const LIMIT: u64 = 1 << 62;

/// A topology, asked which keys have a rule and which keyspaces have a table.
#[derive(Drop)]
struct Served<'a> {
    topology: &'a Topology,
}

impl<'a> Standing for Served<'a> {
    ghost use Rattle.std.specs.Prelude.{is_some};
    ghost use Rattle.mt_model.specs.Topology.{is_present, rule_at};

    ghost rules = { λ served key. is_some (rule_at served.topology.now.rules key) };

    ghost tables = { λ served keyspace table. is_present served.topology.now.keyspaces keyspace table };

    fn has_rule(&self, key: &RuleKey) -> bool {
        self.topology.rules().get(key).is_some()
    }

    fn has_table(&self, keyspace: &KeyspaceName, table: &TableName) -> bool {
        self.topology.is_present(keyspace, table)
    }
}

/// A first publication of a topology's routes, if there is memory for it.
fn first_of(alloc: Global, front: u64, topology: &Topology) -> Result<Next, AllocError>
    ensures { IfOk result (λ next. next ≡ publication front (routes_of topology.now)) }
{
    topology.facts();
    routes_of_a_topology_say_each_of_themselves();
    let entries = topology.routes(alloc)?;
    let places = Places::of(alloc, &entries)?;
    Next::new(alloc, Front(front), entries, places)
}

/// The publication of a topology's routes that follows what is known, if there is memory for it: what is said otherwise is written to a copy
/// of the last publication's routes.
fn next_of<J: Naming>(
    alloc: Global,
    front: u64,
    told: &Told<J>,
    topology: &Topology,
) -> Result<Next, AllocError>
    ensures { IfOk result (λ next. next ≡ publication front (routes_of topology.now)) }
{
    topology.facts();
    routes_of_a_topology_say_each_of_themselves();
    routes_say_what_their_topology_says();
    let entries = topology.routes(alloc)?;
    let differences = told.differences(alloc, &Served { topology }, &entries)?;
    let places = told.written(alloc, &differences)?;
    Next::new(alloc, Front(front), entries, places)
}

/// A first publication, made at once or at a second try.
fn first_at_last(alloc: Global, front: u64, topology: &Topology) -> Option<Next> {
    match first_of(alloc, front, topology) {
        Ok(next) => Some(next),
        Err(_) => first_of(alloc, front, topology).ok(),
    }
}

/// A list of publications, what is known of it, and what routers are shown.
#[derive(Drop)]
pub struct Scene<J: Naming> {
    head: Head<J>,
    told: Told<J>,
    publisher: Publisher<J>,
}

impl<J: Naming> Scene<J> {
    /// A list with one publication, of the routes of a topology, which is shown. What runs out of memory is made a second time, but for
    /// what is shown.
    pub fn open(alloc: Global, opened: Opened, front: u64, topology: &Topology) -> Option<Scene<J>>
        requires { (opened.seen.book ≡ J.book) × (opened.blank.name ≡ J.shown) }
    {
        let first = first_at_last(alloc, front, topology)?;
        let (head, publisher, told) = opened.named::<J>(first)?.shown(alloc).ok()?;
        Some(Scene {
            head,
            told,
            publisher,
        })
    }

    /// A list with one publication of these routes, which is shown.
    pub fn of(alloc: Global, opened: Opened, front: u64, said: &[Said<'_>]) -> Option<Scene<J>>
        requires { (opened.seen.book ≡ J.book) × (opened.blank.name ≡ J.shown) }
    {
        let topology = topology_of(alloc, said)?;
        Scene::open(alloc, opened, front, &topology)
    }

    /// What is known of the list.
    pub fn told(&self) -> &Told<J> {
        &self.told
    }

    /// A router that knows what is known here.
    pub fn router(&self) -> Result<Router<J>, RoutersFull> {
        match self.told.again() {
            Ok(told) => self.publisher.router(told),
            Err(_) => Err(RoutersFull),
        }
    }

    /// Whether a publication of a topology's routes is added and shown. It isn't where its front is below the last one, and where memory is
    /// short; then what was published before is still shown.
    pub fn publishes<R: Wait>(
        &mut self,
        rt: &R,
        alloc: Global,
        front: u64,
        topology: &Topology,
    ) -> bool {
        let Scene {
            head,
            told,
            publisher,
        } = self;
        if told.len() >= LIMIT || told.front() > Front(front) {
            return false;
        }
        let Ok(next) = next_of(alloc, front, told, topology) else {
            return false;
        };
        match told.add(head, next) {
            Some(added) => {
                *told = publisher.show(rt, added).0;
                true
            }
            None => false,
        }
    }

    /// Whether a publication of these routes is added and shown.
    pub fn says<R: Wait>(&mut self, rt: &R, alloc: Global, front: u64, said: &[Said<'_>]) -> bool {
        match topology_of(alloc, said) {
            Some(topology) => self.publishes(rt, alloc, front, &topology),
            None => false,
        }
    }
}
