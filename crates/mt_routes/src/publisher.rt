//! Who shows publications.
ghost use Rattle.std.specs.Prelude.{◌≡◌, IfOk, length, max};

use crate::shown::{Counts, Shown};
use crate::{Added, Head, Naming, Router, RoutersFull, Told};
use std::alloc::{AllocError, Global};
use std::sync::ledger::{Blank, Share};
use std::sync::{Arc, Wait};

/// A list under its name, with its first publication, which isn't shown yet.
#[derive(Drop)]
pub struct Begun<J: Naming> {
    pub(crate) head: Head<J>,
    pub(crate) first: Added<J>,
    pub(crate) blank: Blank,
    ghost name: { blank.name ≡ J.shown },
    ghost one: { blank.parts ≡ 1 },
}

impl<J: Naming> Begun<J> {
    /// Shows the first publication. Gives the list's head, the only one who shows what is added to the list, and what is known of it. It is
    /// refused only when out of memory; then all of it is gone.
    pub fn shown(self, alloc: Global) -> Result<(Head<J>, Publisher<J>, Told<J>), AllocError>
        ensures shows { IfOk result (λ r. r.1.share.amount ≡ length self.first) }
        ensures told { IfOk result (λ r. r.2 ≡ self.first) }
    {
        let Begun { head, first, blank } = self;
        let (kept, shown, _) = first.into_parts();
        let (mut ledger, mut share) = blank.open::<Counts<J>>();
        ledger.add(&mut share, shown.len());
        let shown = Shown::open(alloc, ledger, shown)?;
        Ok((head, Publisher { shown, share }, kept))
    }
}

/// The only one who shows publications of a list. How many are shown is the amount of its share, which is the whole of the ledger that counts
/// them under the routers' lock. (Vitess: who rebuilds the serving VSchema)
#[derive(Drop)]
pub struct Publisher<J: Naming> {
    shown: Arc<Shown<J>>,
    share: Share<Counts<J>>,
    ghost whole: { share.parts ≡ 1 },
}

impl<J: Naming> Publisher<J> {
    /// Shows a publication that was added, unless a later one is shown. Answers what is then known of the list, once for whoever added
    /// it and once for whoever is told of it. It takes no memory, and waits for routers that just copy what is shown.
    pub fn show<R: Wait>(&mut self, rt: &R, added: Added<J>) -> (Told<J>, Told<J>)
        ensures shows { self.new.share.amount ≡ max self.old.share.amount (length added) }
        ensures kept { result.0 ≡ added }
        ensures told { result.1 ≡ added }
    {
        let (kept, latest, told) = added.into_parts();
        let Publisher { shown, share } = self;
        let before = shown.exchanged(rt, share, latest);
        drop(before);
        (kept, told)
    }

    /// A router that is shown what is shown here, and knows of the list what it is told. `RoutersFull` where there are eight, and where owners
    /// can't be counted any further. It takes no memory.
    pub fn router(&self, told: Told<J>) -> Result<Router<J>, RoutersFull>
        ensures { IfOk result (λ router. router ≡ told) }
    {
        Router::new(&self.shown, told)
    }
}
