//! What is known of a list of publications.
ghost use Rattle.std.specs.Prelude.{◌≡◌, ◌↔◌, ◌<◌, ◌≤◌, ◌^◌, ◌++◌, ◌∷◌, ◌⊎◌, [], Contains, IfOk, IfSome, List, ℕ, is_some, length};
ghost use Rattle.std.specs.Arc.{arc_value};
ghost use mathlib.Core.List.{IsPrefix};
ghost use Rattle.mt_model.specs.declared.entries.Entry.{Entry};
ghost use Rattle.mt_names.specs.declared.keys.RuleKey.{RuleKey};
ghost use Rattle.mt_routes.specs.Differences.{AreDifferences};
ghost use Rattle.mt_routes.specs.LookUp.{Routes, is_listed, target_in};
ghost use Rattle.mt_routes.specs.Places.{Agrees, AreRoutes, Shows};
ghost use Rattle.mt_routes.specs.Publications.{Rises, last_front, last_routes};
ghost use Rattle.mt_routes.specs.Turns.{AreInTurn};

use crate::{Added, Front, Head, Law, Naming, Next, Places, Publication, Standing};
use logbook::Seen;
use mt_model::{Entry, TopologyFault};
use mt_names::{RuleKey, RuleTarget, TabletType};
use std::alloc::{AllocError, Global};
use std::marker::{Model, PhantomData};
use std::sync::Arc;

/// The knowledge that the list of publications of a name has come so far, with the routes of its last publication. Contracts see it
/// as the list. The routes are shared by all who know that publication, and nobody changes them. (Vitess: the serving VSchema that a
/// router holds)
#[derive(Drop)]
pub struct Told<J: Naming> {
    count: u64,
    front: Front,
    seen: Seen<Publication, u64, Law>,
    routes: Arc<Places>,
    of: PhantomData<J>,
}

impl<J: Naming> Model for Told<J> {
    ghost use Rattle.std.specs.Prelude.{◌≡◌, List, length};
    ghost use Rattle.std.specs.Arc.{arc_value};
    ghost use Rattle.mt_routes.specs.declared.publication.Publication.{Publication};
    ghost use Rattle.mt_routes.specs.Places.{Shows};
    ghost use Rattle.mt_routes.specs.Publications.{Rises, last_front};

    ghost Value = { List Publication };

    ghost view = { λ t. t.seen.log };

    ghost invariant = { λ t. (t.count ≡ length t.seen.log) × (t.front.0 ≡ last_front t.seen.log) × (t.seen.book ≡ J.book) × Rises t.seen.log
        × Shows t.seen.log (arc_value t.routes) };
}

impl<J: Naming> Told<J> {
    /// What is known of a list of so many publications, the last of which has this front and these routes.
    pub(crate) fn new(
        count: u64,
        front: Front,
        seen: Seen<Publication, u64, Law>,
        routes: Arc<Places>,
    ) -> Told<J>
        requires book { seen.book ≡ J.book }
        requires count { count ≡ length seen.log }
        requires front { front.0 ≡ last_front seen.log }
        requires rises { Rises seen.log }
        requires shows { Shows seen.log (arc_value routes) }
        ensures { result ≡ seen.log }
    {
        Told {
            count,
            front,
            seen,
            routes,
            of: PhantomData,
        }
    }

    /// How many publications there are, one at least. Their fronts never fall.
    pub fn len(&self) -> u64
        ensures length { result ≡ length self.now }
        ensures rises { Rises self.now }
    {
        self.count
    }

    /// The front of the last publication.
    pub fn front(&self) -> Front
        ensures { result.0 ≡ last_front self.now }
    {
        self.front
    }

    /// A copy, by which the routes have an owner more. It takes no memory, and is refused only where their owners can't be counted any
    /// further.
    pub fn again(&self) -> Result<Told<J>, AllocError>
        ensures { IfOk result (λ told. told ≡ self.now) }
    {
        let routes = Arc::try_clone(&self.routes)?;
        Ok(self.by(routes))
    }

    /// A copy that owns these routes, which the last publication has.
    pub(crate) fn by(&self, routes: Arc<Places>) -> Told<J>
        requires { Shows self.now (arc_value routes) }
        ensures { result ≡ self.now }
    {
        Told {
            count: self.count,
            front: self.front,
            seen: self.seen.again(),
            routes,
            of: PhantomData,
        }
    }

    /// Takes in what was told of the list: of the two the longer one is kept, which the other begins. It takes no memory.
    pub fn learn(&mut self, told: Told<J>)
        ensures same { (self.new ≡ self.old) ⊎ (self.new ≡ told) }
        ensures grows { IsPrefix self.old self.new }
        ensures told { IsPrefix told self.new }
        ensures fronts { last_front self.old ≤ last_front self.new }
    {
        let mut both = self.seen.again();
        both.learn(&told.seen);
        if self.count < told.count {
            *self = told;
        }
    }

    /// Where a name leads for a type by the last publication, with its front; or why it leads nowhere, with its front: `T2 NoTable`, where
    /// no keyspace has the table, and `T3 Ambiguous`, where several have it and the name says none. It takes no memory, and a hash or
    /// two however many routes there are. (Vitess: a router looks a table up in its copy of the serving VSchema)
    pub fn find(
        &self,
        key: &RuleKey,
        tablet_type: TabletType,
    ) -> Result<(RuleTarget, Front), (TopologyFault, Front)>
        ensures { Routes self.now key.now tablet_type result }
    {
        self.routes.facts();
        match self.routes.find(key, tablet_type) {
            Ok(target) => Ok((target, self.front)),
            Err(why) => Err((why, self.front)),
        }
    }

    /// What some routes say otherwise than the last publication: each entry as the routes say it, first those that take a rule or a table
    /// away, and each part in the order of what its entries are about. Who has the routes is asked for what the publication has. It is
    /// refused only when out of memory.
    pub fn differences<S: Standing>(
        &self,
        alloc: Global,
        standing: &S,
        routes: &[Entry],
    ) -> Result<Vec<Entry>, AllocError>
        requires routes { AreRoutes routes.now }
        requires rules { (key : RuleKey) → S.rules standing.now key ≡ is_some (target_in routes.now key) }
        requires tables { (keyspace table : List ℕ) → S.tables standing.now keyspace table ≡ is_listed routes.now keyspace table }
        ensures entries { IfOk result (λ list. AreDifferences (last_routes self.now) routes.now list.items) }
        ensures order { IfOk result (λ list. AreInTurn list.items) }
    {
        self.routes.differences(alloc, standing, routes)
    }

    /// The routes of the last publication, with some entries written. If they are all that other routes say otherwise, it is these. It is
    /// refused only when out of memory.
    pub fn written(&self, alloc: Global, entries: &[Entry]) -> Result<Places, AllocError>
        ensures { IfOk result (λ places. (routes : List Entry) → AreDifferences (last_routes self.now) routes entries.now → Agrees places routes) }
    {
        self.routes.facts();
        let mut places = self.routes.standing(alloc)?;
        places.write_all(entries)?;
        Ok(places)
    }

    /// Adds a publication to all that is known. There is none where the list is longer than that. It takes no memory and waits for nobody.
    /// What was added is to be shown, and who shows it knows the longer list.
    pub fn add(&self, head: &Head<J>, next: Next) -> Option<Added<J>>
        requires room { length self.now < 2 ^ 62 }
        requires rises { last_front self.now ≤ next.front }
        ensures { IfSome result (λ added. added ≡ self.now ++ next ∷ []) }
    {
        head.add(self.count, self.seen.again(), next)
    }
}
