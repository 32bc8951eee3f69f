//! What lies under the lock.
ghost use Rattle.std.specs.Prelude.{◌≡◌, ◌⊎◌, false, true, IfErr, IfOk, OnOk, map};
ghost use Rattle.mt_event.specs.Asks.{owned};
ghost use Rattle.mt_model.specs.declared.entries.Scope.TheVariants.{Routes};
ghost use Rattle.mt_watch.specs.Scopes.{has_scope};
ghost use Rattle.mt_desk.specs.Taken.{IsTaken};
ghost use Rattle.mt_desk.specs.Fronts.{Published, Tells, TellsNone};
ghost use Rattle.mt_desk.specs.Passes.{HaveOneHistory, IsCaused};

use crate::{Book, DeskFault, DeskName, Pass};
use mt_event::{Ask, CompactAnswer, CompactEvent};
use mt_routes::{Router, Told};
use mt_watch::Asks;
use std::alloc::Global;
use std::sync::Wait;

/// What lies under the lock: the book, and the watchers that its controller asks.
#[derive(Drop)]
pub(crate) struct Locked<D: DeskName, W: Asks + Drop> {
    pub(crate) book: Book<D>,
    pub(crate) watchers: W,
    ghost scoped: { W.scopes watchers ≡ D.scopes },
}

impl<D: DeskName, W: Asks + Drop> Locked<D, W> {
    /// See `Book::take`. The history that the book has is legal, and so it is with the line.
    pub(crate) fn take(
        &mut self,
        client: u16,
        ask: Ask<'_>,
        kept: CompactEvent,
    ) -> Result<CompactAnswer, DeskFault>
        requires { kept ≡ owned ask }
        ensures taken { IsTaken D.scopes D.opening client (owned ask.entry) result }
        ensures memory { IfErr result (λ fault. fault ≡ DeskFault.Memory) }
    {
        let Locked { book, watchers, .. } = self;
        book.take(watchers, client, ask, kept)
    }

    /// See `Book::admit`.
    pub(crate) fn admit(&mut self, client: u16) -> Result<(), DeskFault>
        ensures { IfErr result (λ fault. (fault ≡ DeskFault.ClientTaken) ⊎ (fault ≡ DeskFault.Memory)) }
    {
        let Locked { book, .. } = self;
        book.admit(client)
    }

    /// See `Book::compare`.
    pub(crate) fn compare(&mut self, passes: &[Pass<D>]) -> Result<(), DeskFault>
        ensures one { OnOk result (HaveOneHistory D.scopes D.opening (map (λ pass. (pass.client, pass.calls.items)) passes.now)) }
        ensures caused { IfErr result (λ fault. IsCaused D.scopes D.opening (map (λ pass. (pass.client, pass.calls.items)) passes.now) fault) }
    {
        let Locked { book, .. } = self;
        book.compare(passes)
    }

    /// See `Book::tell`.
    pub(crate) fn tell<R: Wait>(&mut self, alloc: Global, rt: &R) -> Result<Told<D>, DeskFault>
        ensures tells { IfOk result (λ told. Tells D.scopes D.opening told) }
        ensures asks { OnOk result (has_scope D.scopes Routes ≡ true) }
        ensures caused { IfErr result (λ fault. TellsNone D.scopes fault) }
    {
        let Locked { book, watchers, .. } = self;
        book.tell(alloc, rt, watchers)
    }

    /// See `Book::router`: `K3 RoutersFull`.
    pub(crate) fn router(&self) -> Result<Router<D>, DeskFault>
        ensures knows { IfOk result (λ router. router ≡ self.now.book.told) }
        ensures published { IfOk result (λ router. Published D.scopes D.opening router) }
        ensures full { IfErr result (λ fault. fault ≡ DeskFault.RoutersFull) }
    {
        match self.book.router() {
            Ok(router) => Ok(router),
            Err(_) => Err(DeskFault::RoutersFull),
        }
    }
}
