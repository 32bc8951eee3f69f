//! The rule that a list of publications is kept by, and what its steps tell.

use crate::{Next, Publication};
use logbook::{Gain, Plain, Play, Rule};
use std::marker::Brand;

/// The rule of a list of publications.
pub struct Law;

impl Rule<Publication, u64> for Law {
    ghost use Rattle.std.specs.Prelude.{[]};
    ghost use base.Fml.{ftrue};
    ghost use Rattle.mt_routes.specs.Rules.{IsKept};

    ghost holds = { λ cells list. IsKept cells list };

    ghost first = { [] };

    ghost hinted = { λ n list. Unit {0} };

    ghost shows = { λ list. [] };

    ghost keeps = { λ names list. ftrue };

    ghost moves = { λ ask before after answer. Unit {0} };
}

/// Callers trade nothing.
pub struct Nothing;

impl Gain<Publication, u64> for Nothing {
    ghost use base.Fml.{ftrue};

    ghost after = { λ names about answer. ftrue };
}

/// A step that adds a publication.
pub struct Add;

impl Play<Publication, u64> for Add {
    ghost use Rattle.mt_routes.specs.Rules.{Adds};

    ghost then = { Adds };
}

/// What a step asks for: the publication.
impl Plain<Next, Publication, u64> for Add {
    ghost use Rattle.std.specs.Prelude.{None};

    ghost ask = { λ next. next };

    ghost state = { λ next. None };
}

/// Which list of publications it is, and which ledger counts those that are shown. Each call of a program picks both.
pub trait Naming {
    ghost use Rattle.std.specs.Prelude.{ℕ};
    ghost use Rattle.logbook.specs.Pages.{Book};

    ghost book: { Book };

    ghost shown: { ℕ };
}

impl Naming for Brand {
    ghost book = { record { number = 0; log_name = 0; cells_name = 0 } };

    ghost shown = { 0 };
}
