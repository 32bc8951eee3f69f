//! Publications that were added to the list, and aren't shown yet.
ghost use Rattle.std.specs.Prelude.{◌≡◌, ◌++◌, ◌∷◌, [], List, length};
ghost use Rattle.mt_routes.specs.declared.publication.Publication.{Publication};
ghost use Rattle.mt_routes.specs.Publications.{Rises};

use crate::{Law, Naming, Next, Places, Publication, Told};
use logbook::Seen;
use std::marker::Model;
use std::sync::Arc;

/// A list to which a publication was added that isn't shown yet. Contracts see it as the list. Nothing but showing it gives what is
/// known of it (`Told`), so that whoever knows of a publication knows of one that was shown.
#[derive(Drop)]
pub struct Added<J: Naming> {
    told: Told<J>,
    kept: Arc<Places>,
    shown: Arc<Places>,
}

impl<J: Naming> Model for Added<J> {
    ghost use Rattle.std.specs.Prelude.{List};
    ghost use Rattle.std.specs.Arc.{arc_value};
    ghost use Rattle.mt_routes.specs.declared.publication.Publication.{Publication};
    ghost use Rattle.mt_routes.specs.Places.{Shows};

    ghost Value = { List Publication };

    ghost view = { λ a. a.told };

    ghost invariant = { λ a. Shows a.told (arc_value a.kept) × Shows a.told (arc_value a.shown) };
}

impl<J: Naming> Added<J> {
    /// A list of so many publications, the last of which is that one.
    pub(crate) fn new(count: u64, seen: Seen<Publication, u64, Law>, next: Next) -> Added<J>
        requires book { seen.book ≡ J.book }
        requires count { count ≡ length seen.log }
        requires rises { Rises seen.log }
        requires last { (before : List Publication) × (seen.log ≡ before ++ next ∷ []) }
        ensures { result ≡ seen.log }
    {
        let Next {
            front,
            entries: _,
            kept,
            shown,
            told,
        } = next;
        Added {
            told: Told::new(count, front, seen, told),
            kept,
            shown,
        }
    }

    /// What is known of the list, once for each of the three who know of it then: whoever added the publication, what routers are shown,
    /// and whoever is told of it.
    pub(crate) fn into_parts(self) -> (Told<J>, Told<J>, Told<J>)
        ensures kept { result.0 ≡ self }
        ensures shown { result.1 ≡ self }
        ensures told { result.2 ≡ self }
    {
        let Added { told, kept, shown } = self;
        (told.by(kept), told.by(shown), told)
    }
}
