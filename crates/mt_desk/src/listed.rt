//! The list of publications, as it grows.
ghost use Rattle.std.specs.Prelude.{◌≡◌, ◌≤◌, ◌++◌, [], ◌∷◌};
ghost use Rattle.mt_routes.specs.Publications.{last_front};

use mt_routes::{Added, Begun, Head, Naming, Next, Opened, Told};
use std::sync::Wait;

/// How many publications a list has at most.
const LONGEST: u64 = 1 << 62;

/// A list under its name, with its first publication, which isn't shown yet. It takes no memory. It waits for ever where another was added
/// before, as nobody does: only the list's head adds, and it is made here.
pub(crate) fn begun<J: Naming, R: Wait>(rt: &R, opened: Opened, first: Next) -> Begun<J>
    requires { (opened.seen.book ≡ J.book) × (opened.blank.name ≡ J.shown) }
    ensures { result.first ≡ first ∷ [] }
{
    if let Some(begun) = opened.named::<J>(first) {
        return begun;
    }
    stop(rt);
    unreachable!()
}

/// Adds a publication behind all that is known of a list. It takes no memory. It waits for ever where the list is longer than is known, as
/// it never is where one alone adds to it, and where it has 2^62 publications.
pub(crate) fn added<J: Naming, R: Wait>(
    rt: &R,
    head: &Head<J>,
    told: &Told<J>,
    next: Next,
) -> Added<J>
    requires { last_front told.now ≤ next.front }
    ensures { result ≡ told.now ++ next ∷ [] }
{
    if told.len() < LONGEST {
        if let Some(added) = told.add(head, next) {
            return added;
        }
    }
    stop(rt);
    unreachable!()
}

/// Never returns.
fn stop<R: Wait>(rt: &R)
    ensures { ⊥ }
{
    for _ in rt.forever() {}
    unreachable!()
}
