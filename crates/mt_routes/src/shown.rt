//! What routers are shown.
ghost use Rattle.std.specs.Prelude.{◌≡◌, IfOk, length, max};

use crate::{Naming, Told};
use std::alloc::{AllocError, Global};
use std::marker::PhantomData;
use std::mem;
use std::sync::atomic::{AtomicU64, Ordering};
use std::sync::ledger::{Book, Ledger, Share};
use std::sync::{Arc, Mutex, Wait};

/// The ledger that counts the publications of a list that are shown. Its one share is the publisher's.
pub struct Counts<J: Naming> {
    of: PhantomData<J>,
}

impl<J: Naming> Ledger for Counts<J> {
    ghost name = { J.shown };

    ghost parts = { 1 };
}

/// What lies under the routers' lock: the list as far as it is shown, which has as many publications as the publisher's share says.
#[derive(Drop)]
struct Latest<J: Naming> {
    told: Told<J>,
    ledger: Book<Counts<J>>,
    ghost counted: { length told ≡ ledger.total },
}

impl<J: Naming> Latest<J> {
    /// Puts the longer of what is shown and of this in its place, and gives the other back.
    fn put(&mut self, share: &mut Share<Counts<J>>, told: Told<J>) -> Told<J>
        requires { share.old.parts ≡ 1 }
        ensures whole { share.new.parts ≡ 1 }
        ensures shows { share.new.amount ≡ max share.old.amount (length told) }
    {
        let Latest { told: last, ledger } = self;
        ledger.audit(share);
        if told.len() <= last.len() {
            return told;
        }
        ledger.add(share, told.len() - last.len());
        mem::replace(last, told)
    }
}

/// The last publication, as routers are shown it. They share this with who shows it. A lock stands round it for as long as a copy
/// takes, which no router waits for.
#[derive(Drop)]
pub(crate) struct Shown<J: Naming> {
    /// How many publications are shown, by which a router sees without the lock that there is no later one.
    count: AtomicU64,
    latest: Mutex<Latest<J>>,
}

impl<J: Naming> Shown<J> {
    /// Shows a list as far as this. It is refused only when out of memory.
    pub(crate) fn open(
        alloc: Global,
        ledger: Book<Counts<J>>,
        told: Told<J>,
    ) -> Result<Arc<Shown<J>>, AllocError>
        requires { length told ≡ ledger.total }
    {
        let shown = Shown {
            count: AtomicU64::new(told.len()),
            latest: Mutex::new(Latest { told, ledger }),
        };
        Ok(Arc::new(alloc, shown)?)
    }

    /// Puts the longer of what is shown and of this in its place, and gives the other back: its routes may go, which takes time, and is done
    /// outside the lock.
    pub(crate) fn exchanged<R: Wait>(
        &self,
        rt: &R,
        share: &mut Share<Counts<J>>,
        told: Told<J>,
    ) -> Told<J>
        requires { share.old.parts ≡ 1 }
        ensures whole { share.new.parts ≡ 1 }
        ensures shows { share.new.amount ≡ max share.old.amount (length told) }
    {
        let mut latest = self.latest.lock(rt);
        let before = latest.put(share, told);
        self.count.store(latest.told.len(), Ordering::SeqCst);
        before
    }

    /// A copy of what is shown, where that is longer than so many publications. There is none where another is just being shown, where another
    /// router just copies it, and where the owners of its routes can't be counted any further. It waits for nobody and takes no memory.
    pub(crate) fn beyond(&self, count: u64) -> Option<Told<J>> {
        if self.count.load(Ordering::SeqCst) <= count {
            return None;
        }
        self.latest.try_lock()?.told.again().ok()
    }
}
