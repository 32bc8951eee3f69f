//! A list of publications as it begins, and the word that its length is kept in.
ghost use Rattle.std.specs.Prelude.{◌≡◌, ◌≤◌, ◌<◌, ◌^◌, ◌++◌, ◌∷◌, [], length, IfSome, IsTrue};
ghost use Rattle.mt_routes.specs.Publications.{Rises, last_front};
ghost use Rattle.mt_routes.specs.Rules.{head_of};

use crate::law::{Add, Nothing};
use crate::{Added, Begun, Law, Naming, Next, Publication, Told};
use logbook::{Offer, Seen, Start, Word};
use std::marker::PhantomData;
use std::sync::ledger::Blank;

/// An empty list, which has no name yet, and the ledger that is to count what of it is shown.
#[derive(Drop)]
pub struct Opened {
    word: Word<Publication, u64, Law>,
    pub seen: Seen<Publication, u64, Law>,
    pub blank: Blank,
    pub ghost empty: { seen.log ≡ [] },
    pub ghost word_is: { word ≡ head_of seen.book },
    pub ghost one: { blank.parts ≡ 1 },
}

impl Opened {
    /// An empty list of publications. It takes no memory.
    pub fn new() -> Opened {
        let (seen, mut first, _second) = Seen::open(Start::alone(), 0, 0);
        Opened {
            word: Word::tracked(0, &mut first),
            seen,
            blank: Blank::new(1),
        }
    }

    /// The list under a name, with its first publication, which isn't shown yet. There is none where another was added before, as
    /// nobody does who hasn't the list's head. It takes no memory.
    pub fn named<J: Naming>(self, first: Next) -> Option<Begun<J>>
        requires { (self.seen.book ≡ J.book) × (self.blank.name ≡ J.shown) }
        ensures { IfSome result (λ begun. begun.first ≡ first ∷ []) }
    {
        let Opened { word, seen, blank } = self;
        let head = Head {
            word,
            of: PhantomData,
        };
        let first = head.add(0, seen, first)?;
        Some(Begun { head, first, blank })
    }
}

/// The word that holds the length of the list of a name. Whoever has it may add to the list.
#[derive(Drop)]
pub struct Head<J: Naming> {
    word: Word<Publication, u64, Law>,
    of: PhantomData<J>,
    ghost word_is: { word ≡ head_of J.book },
}

impl<J: Naming> Head<J> {
    /// Adds a publication to the list where it is just what was seen, of so many publications.
    pub(crate) fn add(
        &self,
        count: u64,
        mut seen: Seen<Publication, u64, Law>,
        next: Next,
    ) -> Option<Added<J>>
        requires book { seen.book ≡ J.book }
        requires count { (count ≡ length seen.log) × (count < 2 ^ 62) }
        requires rises { last_front seen.log ≤ next.front }
        ensures { IfSome result (λ added. added ≡ seen.log ++ next ∷ []) }
    {
        if !self.adds(count, &mut seen, &next) {
            return None;
        }
        Some(Added::new(count + 1, seen, next))
    }

    /// The same in the list alone, and says whether it did.
    fn adds(&self, count: u64, seen: &mut Seen<Publication, u64, Law>, next: &Next) -> bool
        requires book { seen.old.book ≡ J.book }
        requires count { (count ≡ length seen.old.log) × (count < 2 ^ 62) }
        requires rises { last_front seen.old.log ≤ next.now.front }
        ensures book { seen.new.book ≡ J.book }
        ensures added { IsTrue result → seen.new.log ≡ seen.old.log ++ next.now ∷ [] }
        ensures rises { Rises seen.new.log }
    {
        let mut offer: Offer<Publication, u64, Law, Nothing> = seen.plain::<Nothing, Next, Add>(
            next,
        );
        let mut pen = seen.no_pen();
        let found = self
            .word
            .compare_exchange::<Add, Nothing>(count, count + 1, seen, &mut offer, &mut pen);
        found == count
    }
}
