//! Publications.
ghost use Rattle.std.specs.Prelude.{◌≡◌, IfOk};
ghost use Rattle.mt_routes.specs.Places.{Agrees, AreRoutes};
ghost use Rattle.mt_routes.specs.Publications.{publication};

use crate::Places;
use mt_model::Entry;
use std::alloc::{AllocError, Global};
use std::marker::Model;
use std::sync::Arc;

/// A number of lines of the history: what is shown are the routes after them.
#[derive(Clone, Copy, Debug, Eq, Ord, PartialEq, PartialOrd)]
pub struct Front(pub u64);

/// What was published at one time: a front with its routes, the rules that stand and the tables that are there. No
/// value of it is made: contracts see it, with a list of any length for the array.
pub struct Publication {
    /// How many lines of the history.
    pub front: u64,
    /// The routes after them.
    pub entries: [Entry; 0],
}

/// A publication that is to come, with all memory that it takes. Contracts see it as the publication. Its routes, as they are looked
/// up, have three owners: whoever adds it, what routers are shown, and whoever is told of it.
#[derive(Drop)]
pub struct Next {
    pub(crate) front: Front,
    pub(crate) entries: Vec<Entry>,
    pub(crate) kept: Arc<Places>,
    pub(crate) shown: Arc<Places>,
    pub(crate) told: Arc<Places>,
}

impl Model for Next {
    ghost use Rattle.std.specs.Arc.{arc_value};
    ghost use Rattle.mt_routes.specs.declared.publication.Publication.{Publication};
    ghost use Rattle.mt_routes.specs.Places.{Agrees, AreRoutes};
    ghost use Rattle.mt_routes.specs.Publications.{publication};

    ghost Value = { Publication };

    ghost view = { λ n. publication n.front.0 n.entries.items };

    ghost invariant = { λ n. AreRoutes n.entries.items × Agrees (arc_value n.kept) n.entries.items × Agrees (arc_value n.shown) n.entries.items
        × Agrees (arc_value n.told) n.entries.items };
}

impl Next {
    /// A publication of these routes, which stand after so many lines of the history, and are looked up in these places. It is refused
    /// only when out of memory; then the places are gone.
    pub fn new(
        alloc: Global,
        front: Front,
        entries: Vec<Entry>,
        places: Places,
    ) -> Result<Next, AllocError>
        requires routes { AreRoutes entries.items }
        requires agrees { Agrees places entries.items }
        ensures { IfOk result (λ next. next ≡ publication front.0 entries.items) }
    {
        let kept = Arc::new(alloc, places)?;
        let shown = Arc::try_clone(&kept)?;
        let told = Arc::try_clone(&kept)?;
        Ok(Next {
            front,
            entries,
            kept,
            shown,
            told,
        })
    }
}
