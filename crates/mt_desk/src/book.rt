//! The controller with the history of all that was asked of it.
ghost use Rattle.std.specs.Prelude.{◌≡◌, ◌+◌, ◌≤◌, ◌++◌, List, [], ◌∷◌, IfErr, IfNone, IfOk, IfSome, MatchBool, OnErr, OnOk, Ok, length, map, option_map, true, false};
ghost use Rattle.std.specs.Vec.{vec_capacity, vec_len};
ghost use Rattle.mt_event.specs.declared.reply.Reply.TheVariants.{Done};
ghost use Rattle.mt_event.specs.Asks.{event_of_ask, owned};
ghost use Rattle.mt_event.specs.Events.{answer_from};
ghost use Rattle.mt_plain.specs.Events as plain;
ghost use Rattle.mt_plain.specs.Plain.{Plain};
ghost use Rattle.mt_laws.specs.Headline.{Headline};
ghost use Rattle.mt_site.specs.Applied.{Applied};
ghost use Rattle.mt_site.specs.GivenUp.{CanBeGivenUp};
ghost use Rattle.mt_site.specs.Owed.{owed_to};
ghost use Rattle.mt_site.specs.Stood.{IsCoreWith};
ghost use Rattle.mt_stands.specs.Purges.{IsPurged};
ghost use Rattle.mt_stands.specs.Ways.{CoreStands, CoreSteps};
ghost use Rattle.mt_model.specs.declared.entries.Scope.TheVariants.{Routes};
ghost use Rattle.mt_model.specs.Topology.{routes_of};
ghost use Rattle.mt_model.specs.declared.entries.Entry.{Entry};
ghost use Rattle.mt_routes.specs.Publications.{last_routes, publication};
ghost use Rattle.mt_watch.specs.Asking.{IsTold};
ghost use Rattle.mt_desk.specs.Fronts.{AreFronts, AsksNone, Changes, Published, Tells};
ghost use Rattle.mt_desk.specs.Histories.{Leads, StaysPurged, answered, asked, line};
ghost use Rattle.mt_desk.specs.Passes.{Admits, Compares, HaveOneHistory, IsCaused};
ghost use Rattle.mt_desk.specs.Room.{HasRoom};

use crate::answered::answered;
use crate::history::Line;
use crate::listed::{added, begun};
use crate::numbers::Numbers;
use crate::reading::first_cause;
use crate::room::{make_room, new_history};
use crate::tell::{first_of, next_of};
use crate::{DeskFault, DeskName, Pass};
use indexmap::IndexSet;
use mt_event::{Ask, CompactAnswer, CompactEvent};
use mt_laws::{
    each_event_owes_one_at_most, every_run_keeps_the_headline, routes_of_what_is_served_are_a_view,
};
use mt_routes::{Front, Head, Next, Opened, Publisher, Router, RoutersFull, Told};
use mt_site::{Core, a_base_owes_what_its_state_owes};
use mt_watch::Asks;
use std::alloc::Global;
use std::sync::ledger::Blank;
use std::sync::{Wait, ledger};

/// The core of the controller, with the history of all that was asked of it since the desk was opened. The history is always legal,
/// and leads from each state that the core stood for at the opening to one that it stands for now. It keeps a place free for each
/// event that is owed, so that each move can always be given up. (Vitess: what MoveTables works on)
#[derive(Drop)]
pub struct Book<D: DeskName> {
    core: Core,
    history: Vec<Line>,
    clients: IndexSet<u16>,
    numbers: Numbers,
    ledger: ledger::Book<D>,
    head: Head<D>,
    told: Told<D>,
    publisher: Publisher<D>,
    ghost legal: { ∥ Leads D.scopes D.opening history.items core ∥₁ },
    ghost purged: { ∥ StaysPurged D.opening core ∥₁ },
    ghost room: { HasRoom (vec_len history) core (vec_capacity history) },
    ghost fronts: { ∥ AreFronts D.scopes D.opening history.items told ∥₁ },
    ghost shown: { publisher.share.amount ≡ length told },
}

impl<D: DeskName> Book<D> {
    /// A book without lines, under the name of its blank, whose list has one publication, which is shown: the routes of the topology.
    /// `K0 Memory`, where there was none for it, or no place for the events that are owed; then the core is gone.
    pub fn open<R: Wait>(
        alloc: Global,
        rt: &R,
        blank: Blank,
        opened: Opened,
        core: Core,
    ) -> Result<Self, DeskFault>
        requires name { (blank.name ≡ D.name) × (blank.parts ≡ D.parts) }
        requires list { (opened.seen.book ≡ D.book) × (opened.blank.name ≡ D.shown) }
        requires opening { core ≡ D.opening }
        requires stood { IsCoreWith D.scopes core }
        ensures core { IfOk result (λ book. book.core ≡ core) }
        ensures history { IfOk result (λ book. book.history.items ≡ []) }
        ensures clients { IfOk result (λ book. book.clients.keys ≡ []) }
        ensures told { IfOk result (λ book. book.told ≡ publication 0 (routes_of core.base.topology) ∷ []) }
        ensures memory { IfErr result (λ fault. fault ≡ DeskFault.Memory) }
    {
        let Some((history, numbers, first)) = first_lists(alloc, &core) else {
            return Err(DeskFault::Memory);
        };
        let Ok(list) = begun::<D, R>(rt, opened, first).shown(alloc) else {
            return Err(DeskFault::Memory);
        };
        let (ledger, _) = blank.open::<D>();
        Ok(Book::begun(core, history, numbers, ledger, list))
    }

    /// A book with a history without lines, which has a place for each event that is owed, and a list of one publication.
    fn begun(
        core: Core,
        history: Vec<Line>,
        numbers: Numbers,
        ledger: ledger::Book<D>,
        list: (Head<D>, Publisher<D>, Told<D>),
    ) -> Self
        requires opening { core ≡ D.opening }
        requires stood { IsCoreWith D.scopes core }
        requires none { history.items ≡ [] }
        requires room { vec_len history + owed_to core.base.workflows ≤ vec_capacity history }
        requires first { list.2 ≡ publication 0 (routes_of core.base.topology) ∷ [] }
        requires shown { list.1.share.amount ≡ length list.2 }
        ensures core { result.core ≡ core }
        ensures history { result.history ≡ history }
        ensures clients { result.clients.keys ≡ [] }
        ensures told { result.told ≡ list.2 }
    {
        routes_of_what_is_served_are_a_view();
        let (head, publisher, told) = list;
        let alloc = *history.allocator();
        Book {
            core,
            history,
            clients: IndexSet::new(alloc),
            numbers,
            ledger,
            head,
            told,
            publisher,
        }
    }

    /// What is known of the list of publications, which are those of the history. Routers are shown all of them.
    pub fn told(&self) -> &Told<D>
        ensures list { result.now ≡ self.now.told }
        ensures shown { self.now.publisher.share.amount ≡ length result.now }
        ensures fronts { ∥ AreFronts D.scopes D.opening self.now.history.items result.now ∥₁ }
        ensures published { Published D.scopes D.opening result.now }
    {
        &self.told
    }

    /// A router, which is shown what is published here, and knows of the list what the book knows: `RoutersFull` where there are eight, and
    /// where owners can't be counted any further. It takes no memory.
    pub fn router(&self) -> Result<Router<D>, RoutersFull>
        ensures knows { IfOk result (λ router. router ≡ self.now.told) }
        ensures published { IfOk result (λ router. Published D.scopes D.opening router) }
    {
        match self.told().again() {
            Ok(known) => self.publisher.router(known),
            Err(_) => Err(RoutersFull),
        }
    }

    /// Adds the routes of the topology to the list of publications, with the number of lines of the history as their front, and shows them.
    /// Answers what is then known of the list. It takes no memory, and no event is taken.
    fn publish<R: Wait>(&mut self, rt: &R, next: Next) -> Told<D>
        requires { next ≡ publication (length self.old.history.items) (routes_of self.old.core.base.topology) }
        ensures told { self.new.told ≡ self.old.told ++ next ∷ [] }
        ensures is { result ≡ self.new.told }
        ensures core { self.new.core ≡ self.old.core }
        ensures history { self.new.history ≡ self.old.history }
        ensures clients { self.new.clients ≡ self.old.clients }
    {
        routes_of_what_is_served_are_a_view();
        let Book {
            head,
            told,
            publisher,
            ..
        } = self;
        let (kept, answer) = publisher.show(rt, added(rt, head, told, next));
        *told = kept;
        answer
    }

    /// Asks each watcher of routes with a change of what the topology's routes say otherwise than the last publication, and writes each
    /// entry of the last one's notice to a copy of that publication's routes; adds these to the list of publications, with the number of
    /// lines of the history as their front; and shows them to routers. Answers what is then known of the list. `K4 NoWatcher` exactly where
    /// no watcher has the scope of routes, `K0 Memory`, `K5 WatcherRefused` with the number of the first that refuses; they change nothing.
    /// All memory is taken before anything is added, and `K0 Memory` stands for nothing but want of it, and for owners of a publication
    /// that can't be counted any further. No event is taken. It waits for routers that just copy what is shown; and for ever, where the list
    /// is longer than the book knows, which nobody else adds to, or has 2^62 publications. (Vitess: the serving VSchema is rebuilt, and
    /// routers, which watch it, take it over)
    pub fn tell<W: Asks, R: Wait>(
        &mut self,
        alloc: Global,
        rt: &R,
        watchers: &W,
    ) -> Result<Told<D>, DeskFault>
        ensures told { IfOk result (λ told. self.new.told
            ≡ self.old.told ++ publication (length self.old.history.items) (routes_of self.old.core.base.topology) ∷ []) }
        ensures is { IfOk result (λ told. told ≡ self.new.told) }
        ensures asks { OnOk result ((change : List Entry) × Changes (last_routes self.old.told) self.old.core.base.topology change
            × IsTold (W.scopes watchers.now) (W.may_answer watchers.now) Routes change change) }
        ensures tells { IfOk result (λ told. Tells D.scopes D.opening told) }
        ensures none { OnErr result (self.new.told ≡ self.old.told) }
        ensures caused { IfErr result (λ fault. AsksNone (W.scopes watchers.now) (W.may_answer watchers.now) (Changes (last_routes self.old.told) self.old.core.base.topology) fault) }
        ensures core { self.new.core ≡ self.old.core }
        ensures history { self.new.history ≡ self.old.history }
        ensures clients { self.new.clients ≡ self.old.clients }
    {
        let front = Front(self.history.len() as u64);
        let next = next_of(alloc, front, self.core.topology(), watchers, &self.told)?;
        Ok(self.publish(rt, next))
    }

    /// Applies what is asked for, as `Core::apply` tells, and adds its line to the history. The line keeps `kept`, which is its event, and the answer, which whoever
    /// asked shares. `K0 Memory` where there is no place for the line and for the events that are owed, or no memory for the answer to a read or a Show,
    /// or for a refusal that tells a name: then no event was taken. Nothing is published. An undo with the right number before the journal, and a
    /// Cancel where nothing is switched and no way is open, take no memory and are done. (Vitess: a vtctldclient command, or a query at a primary)
    pub fn take<W: Asks>(
        &mut self,
        watchers: &W,
        client: u16,
        ask: Ask<'_>,
        kept: CompactEvent,
    ) -> Result<CompactAnswer, DeskFault>
        requires scopes { W.scopes watchers.now ≡ D.scopes }
        requires kept { kept ≡ owned ask }
        ensures line { IfOk result (λ r. self.new.history.items ≡ self.old.history.items ++ line client (owned ask.entry) r ∷ []) }
        ensures applied { IfOk result (λ r. Applied (W.scopes watchers.now) (W.may_answer watchers.now) self.old.core (event_of_ask ask.entry) (answer_from r) self.new.core) }
        ensures none { OnErr result ((self.new.history.items ≡ self.old.history.items) × (self.new.core ≡ self.old.core)) }
        ensures clients { self.new.clients.keys ≡ self.old.clients.keys }
        ensures told { self.new.told ≡ self.old.told }
        ensures memory { IfErr result (λ fault. fault ≡ DeskFault.Memory) }
        ensures given_up { CanBeGivenUp self.old.core (event_of_ask ask.entry) → result ≡ Ok (Ok Done) }
        ensures purged { IsPurged self.old.core.base → IsPurged self.new.core.base }
        ensures places { CanBeGivenUp self.old.core (event_of_ask ask.entry) → vec_capacity self.new.history ≡ vec_capacity self.old.history }
    {
        each_event_owes_one_at_most();
        a_base_owes_what_its_state_owes();
        let Book { core, history, .. } = self;
        if !make_room(history, core, ask) {
            return Err(DeskFault::Memory);
        }
        let alloc = *history.allocator();
        let Ok((answer, told)) = answered(alloc, core, watchers, ask) else {
            return Err(DeskFault::Memory);
        };
        history.push_reserved(Line {
            client,
            event: kept,
            answer,
        });
        Ok(told)
    }

    /// Lists a client among those to whom a pass was given: `K6 ClientTaken` exactly where it is there, and `K0 Memory`, which leave
    /// all as it was. No event is taken, and nothing is published.
    pub(crate) fn admit(&mut self, client: u16) -> Result<(), DeskFault>
        ensures admits { Admits self.old.clients.keys client result self.new.clients.keys }
        ensures history { self.new.history.items ≡ self.old.history.items }
        ensures core { self.new.core ≡ self.old.core }
        ensures told { self.new.told ≡ self.old.told }
    {
        let Book { clients, .. } = self;
        match clients.insert(client) {
            Ok(true) => Ok(()),
            Ok(false) => Err(DeskFault::ClientTaken),
            Err(_) => Err(DeskFault::Memory),
        }
    }

    /// Compares what some passes list with the history: `K7 PassMissing` exactly where a client to whom a pass was given has none of
    /// them, and else `K1 HistoryDiffers` with a client whose calls differ. The history and what the passes list are read once. It takes no memory.
    pub(crate) fn compare(&mut self, passes: &[Pass<D>]) -> Result<(), DeskFault>
        ensures compares { Compares self.old.clients.keys (map (λ pass. (pass.client, pass.calls.items)) passes.now) self.old.history.items result }
        ensures one { OnOk result (HaveOneHistory D.scopes D.opening (map (λ pass. (pass.client, pass.calls.items)) passes.now)) }
        ensures caused { IfErr result (λ fault. IsCaused D.scopes D.opening (map (λ pass. (pass.client, pass.calls.items)) passes.now) fault) }
        ensures history { self.new.history ≡ self.old.history }
        ensures core { self.new.core ≡ self.old.core }
        ensures told { self.new.told ≡ self.old.told }
        ensures clients { self.new.clients ≡ self.old.clients }
    {
        let Book {
            history,
            clients,
            numbers,
            ..
        } = self;
        numbers.note(passes);
        if let Some(_client) = numbers.first_without(clients.as_slice()) {
            return Err(DeskFault::PassMissing);
        }
        match first_cause(passes, numbers, history.as_slice()) {
            Some(client) => Err(DeskFault::HistoryDiffers(client)),
            None => Ok(()),
        }
    }

    /// The lines of the history, in their order. It is legal from each state that the core stood for at the opening, and of it the
    /// headline holds; and if no log kept a segment that nobody needs then, none does now. It takes no memory.
    pub fn lines(&self) -> &[Line]
        ensures lines { result.now ≡ self.now.history.items }
        ensures leads { ∥ Leads D.scopes D.opening result.now self.now.core ∥₁ }
        ensures purged { ∥ StaysPurged D.opening self.now.core ∥₁ }
        ensures headline { (p : Plain) → CoreStands p D.scopes D.opening → ∥ Headline p (asked result.now) (answered result.now) ∥₁ }
    {
        every_run_keeps_the_headline();
        self.history.as_slice()
    }
}

/// What a new book takes memory for: a history without lines, which has a place for each event that is owed; what it takes to compare passes with it;
/// and the first publication, of the topology's routes. There is none only when out of memory.
fn first_lists(alloc: Global, core: &Core) -> Option<(Vec<Line>, Numbers, Next)>
    ensures none { IfSome result (λ r. r.0.items ≡ []) }
    ensures room { IfSome result (λ r. vec_len r.0 + owed_to core.now.base.workflows ≤ vec_capacity r.0) }
    ensures first { IfSome result (λ r. r.2 ≡ publication 0 (routes_of core.now.base.topology)) }
{
    let history = new_history(alloc, core).ok()?;
    let numbers = Numbers::new(alloc).ok()?;
    let first = first_of(alloc, core.topology()).ok()?;
    Some((history, numbers, first))
}
