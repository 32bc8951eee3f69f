//! The desk: many threads at one controller.
ghost use Rattle.std.specs.Prelude.{◌≡◌, ◌⊎◌, ◌<◌, ◌++◌, true, [], ◌∷◌, IfErr, IfOk, IsPermutation, OnErr, OnOk, length, map};
ghost use Rattle.std.specs.List.Sorted.{IsNonDecreasingBy};
ghost use Rattle.mt_model.specs.declared.entries.Scope.TheVariants.{Routes};
ghost use Rattle.mt_watch.specs.Scopes.{has_scope};
ghost use Rattle.std.specs.Vec.{vec_capacity};
ghost use Rattle.mt_event.specs.Events.{event_of};
ghost use Rattle.mt_desk.specs.Room.{is_undo_or_cancel};
ghost use Rattle.mt_desk.specs.Taken.{IsTaken};
ghost use Rattle.mt_desk.specs.Fronts.{Published, Tells, TellsNone};
ghost use Rattle.mt_desk.specs.Histories.{call};
ghost use Rattle.mt_desk.specs.Passes.{HaveOneHistory, IsCaused};
ghost use Rattle.mt_site.specs.Stood.{IsCoreWith};

use crate::account::counted_by_client;
use crate::locked::Locked;
use crate::{Account, Answer, Book, DeskFault, DeskName, Pass};
use mt_event::{CompactEvent, Event};
use mt_routes::{Opened, Router, Told};
use mt_site::Site;
use mt_watch::Asks;
use std::alloc::Global;
use std::sync::ledger::Blank;
use std::sync::{Mutex, Wait};

/// The controller behind one lock, with the history of all that was asked of it. Threads share a `&` to it. (Vitess: the vtctld server)
#[derive(Drop)]
pub struct Desk<D: DeskName, W: Asks + Drop> {
    alloc: Global,
    locked: Mutex<Locked<D, W>>,
}

impl<D: DeskName, W: Asks + Drop> Desk<D, W> {
    /// A desk for a controller, under the name of its blank, whose routers are shown the routes of the controller's topology. `K0 Memory`;
    /// then the controller is gone.
    pub fn open(
        alloc: Global,
        rt: &impl Wait,
        blank: Blank,
        opened: Opened,
        site: Site<W>,
    ) -> Result<Self, DeskFault>
        requires name { (blank.name ≡ D.name) × (blank.parts ≡ D.parts) }
        requires list { (opened.seen.book ≡ D.book) × (opened.blank.name ≡ D.shown) }
        requires opening { site.core ≡ D.opening }
        requires scopes { W.scopes site.watchers ≡ D.scopes }
        requires stood { IsCoreWith D.scopes site.core }
        ensures memory { IfErr result (λ fault. fault ≡ DeskFault.Memory) }
    {
        let Site { core, watchers } = site;
        let book = Book::open(alloc, rt, blank, opened, core)?;
        Ok(Desk {
            alloc,
            locked: Mutex::new(Locked { book, watchers }),
        })
    }

    /// A pass for a client, which lists nothing: `K6 ClientTaken`, exactly where that client ever had one, and `K0 Memory`. It is
    /// one period under the lock.
    pub fn pass(&self, rt: &impl Wait, client: u16) -> Result<Pass<D>, DeskFault>
        ensures pass { IfOk result (λ pass. (pass.client ≡ client) × (pass.calls.items ≡ [])) }
        ensures refused { IfErr result (λ fault. (fault ≡ DeskFault.ClientTaken) ⊎ (fault ≡ DeskFault.Memory)) }
    {
        self.locked.lock(rt).admit(client)?;
        Ok(Pass::new(self.alloc, client))
    }

    /// Asks for an event, and adds it with its answer to what the pass lists: `K0 Memory`, where the pass or the history found no
    /// place for it; then no event was taken. It is one period under the lock, and one event. What is long of the event and of its answer the pass
    /// shares with the history. Where the pass has a place, an undo or a Cancel that can give its move up as the controller stands then is done,
    /// and takes no memory: see `Book::take`.
    pub fn ask(&self, rt: &impl Wait, pass: &mut Pass<D>, event: Event) -> Result<Answer, DeskFault>
        ensures client { pass.new.client ≡ pass.old.client }
        ensures adds { IfOk result (λ r. pass.new.calls.items ≡ pass.old.calls.items ++ call event r ∷ []) }
        ensures none { OnErr result (pass.new.calls.items ≡ pass.old.calls.items) }
        ensures memory { IfErr result (λ fault. fault ≡ DeskFault.Memory) }
        ensures places { length pass.old.calls.items < vec_capacity pass.old.calls → vec_capacity pass.new.calls ≡ vec_capacity pass.old.calls }
        ensures taken { OnOk result (IsTaken D.scopes D.opening pass.old.client event result) }
        ensures given_up { length pass.old.calls.items < vec_capacity pass.old.calls → is_undo_or_cancel (event_of event) ≡ true
            → IsTaken D.scopes D.opening pass.old.client event result }
    {
        pass.make_place()?;
        let Ok(line) = CompactEvent::new(self.alloc, event.ask()) else {
            return Err(DeskFault::Memory);
        };
        let Ok(call) = line.again() else {
            return Err(DeskFault::Memory);
        };
        let client = pass.client();
        let taken = self.locked.lock(rt).take(client, event.ask(), line);
        let told = match taken {
            Ok(told) => told,
            Err(fault) => return Err(fault),
        };
        let answer = told.copied();
        pass.add(call, told);
        Ok(answer)
    }

    /// Asks each watcher of routes with a change of the rules and tables that the topology has otherwise than the last publication, writes
    /// the last one's notice to a copy of that, and shows routers the result, with the number of lines of the history as its front. A router
    /// that learns the answer looks names up in that publication, or in a later one. `K4 NoWatcher` exactly where no watcher has the scope
    /// of routes, `K0 Memory`, `K5 WatcherRefused` with the number of the first that refuses; they change nothing, and `K0 Memory` stands for
    /// being out of memory alone, or of a count of a publication's owners. It is one period under the lock, and waits for routers that just copy
    /// what is shown. (Vitess: routers watch the serving VSchema)
    pub fn tell(&self, rt: &impl Wait) -> Result<Told<D>, DeskFault>
        ensures tells { IfOk result (λ told. Tells D.scopes D.opening told) }
        ensures asks { OnOk result (has_scope D.scopes Routes ≡ true) }
        ensures caused { IfErr result (λ fault. TellsNone D.scopes fault) }
    {
        self.locked.lock(rt).tell(self.alloc, rt)
    }

    /// A router, which looks names up without the lock, and knows what was told until now: `K3 RoutersFull`, where there are eight. It is one
    /// period under the lock. (Vitess: a vtgate)
    pub fn router(&self, rt: &impl Wait) -> Result<Router<D>, DeskFault>
        ensures published { IfOk result (λ router. Published D.scopes D.opening router) }
        ensures full { IfErr result (λ fault. fault ≡ DeskFault.RoutersFull) }
    {
        self.locked.lock(rt).router()
    }

    /// Compares what all passes list with the history, and answers how many calls each client made, by client: `K7 PassMissing` where
    /// a client to whom this desk ever gave a pass isn't among them, else `K1 HistoryDiffers` with a client whose calls differ, and at last `K0 Memory`,
    /// which only the numbers of calls need; then the passes are given back. It is one period under the lock. At Ok there is one history, legal from each state that the controller stood for at the opening, in
    /// which the calls of each client are those of its pass, with its answers, in its order, each once, and there are no others.
    pub fn gather(
        &self,
        rt: &impl Wait,
        passes: Vec<Pass<D>>,
    ) -> Result<Account, (DeskFault, Vec<Pass<D>>)>
        ensures one { OnOk result (HaveOneHistory D.scopes D.opening (map (λ pass. (pass.client, pass.calls.items)) passes.items)) }
        ensures numbers { IfOk result (λ account. IsPermutation (map (λ pass. (pass.client, length pass.calls.items)) passes.items) account.calls.items) }
        ensures order { IfOk result (λ account. IsNonDecreasingBy (λ call. call.0) account.calls.items) }
        ensures caused { IfErr result (λ refused. IsCaused D.scopes D.opening (map (λ pass. (pass.client, pass.calls.items)) passes.items) refused.0) }
        ensures back { IfErr result (λ refused. refused.1 ≡ passes) }
    {
        if let Err(fault) = self.locked.lock(rt).compare(passes.as_slice()) {
            return Err((fault, passes));
        }
        match counted_by_client(self.alloc, passes.as_slice()) {
            Ok(calls) => Ok(Account { calls }),
            Err(_) => Err((DeskFault::Memory, passes)),
        }
    }

    /// Ends the desk. Routers that are left go on answering by what they know.
    pub fn close(self, _rt: &impl Wait) {
        let Desk { alloc: _, locked } = self;
        drop(locked);
    }
}
