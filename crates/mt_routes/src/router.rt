//! Routers, which look names up and wait for nobody.
ghost use Rattle.std.specs.Prelude.{◌≡◌, ◌≤◌, ◌⊎◌, IfOk};
ghost use mathlib.Core.List.{IsPrefix};
ghost use Rattle.mt_routes.specs.LookUp.{Routes};
ghost use Rattle.mt_routes.specs.Publications.{last_front};

use crate::shown::Shown;
use crate::{Front, Naming, Told};
use mt_model::TopologyFault;
use mt_names::{RuleKey, RuleTarget, TabletType};
use std::marker::Model;
use std::sync::Arc;
use thiserror::Error;

/// How many routers there may be at once.
pub const MAX_ROUTERS: usize = 8;

/// There are as many routers as there may be.
#[derive(Clone, Copy, Debug, Eq, Error, PartialEq)]
#[error("RoutersFull")]
pub struct RoutersFull;

/// Looks names up in the last publication that it knows of, and waits for nobody. Contracts see it as the list of publications that it
/// knows, which only grows. (Vitess: a vtgate)
#[derive(Drop)]
pub struct Router<J: Naming> {
    told: Told<J>,
    shown: Arc<Shown<J>>,
}

impl<J: Naming> Model for Router<J> {
    ghost use Rattle.std.specs.Prelude.{List};
    ghost use Rattle.mt_routes.specs.declared.publication.Publication.{Publication};

    ghost Value = { List Publication };

    ghost view = { λ r. r.told };
}

impl<J: Naming> Router<J> {
    /// A router that is shown this, and knows of the list what it is told. `RoutersFull` where there are eight, beside the one owner that
    /// shows it, and where owners can't be counted any further.
    pub(crate) fn new(shown: &Arc<Shown<J>>, told: Told<J>) -> Result<Router<J>, RoutersFull>
        ensures { IfOk result (λ router. router ≡ told) }
    {
        if Arc::strong_count(shown) > MAX_ROUTERS {
            return Err(RoutersFull);
        }
        match Arc::try_clone(shown) {
            Ok(shown) => Ok(Router { told, shown }),
            Err(_) => Err(RoutersFull),
        }
    }

    /// Where a name leads for a type, by the last publication that the router knows of, with the front of that; or why it leads nowhere,
    /// with the front: `T2 NoTable`, where no keyspace has the table, and `T3 Ambiguous`, where several have it and the name says none.
    /// Before that it takes over what is shown, if that is later and nobody else is at it. It waits for nobody and takes no memory.
    pub fn route(
        &mut self,
        key: &RuleKey,
        tablet_type: TabletType,
    ) -> Result<(RuleTarget, Front), (TopologyFault, Front)>
        ensures grows { IsPrefix self.old self.new }
        ensures fronts { last_front self.old ≤ last_front self.new }
        ensures answer { Routes self.new key.now tablet_type result }
    {
        if let Some(latest) = self.shown.beyond(self.told.len()) {
            self.learn(latest);
        }
        self.told.find(key, tablet_type)
    }

    /// Takes in what was told of the list. From then on the router knows at least that.
    pub fn learn(&mut self, told: Told<J>)
        ensures same { (self.new ≡ self.old) ⊎ (self.new ≡ told) }
        ensures grows { IsPrefix self.old self.new }
        ensures told { IsPrefix told self.new }
        ensures fronts { last_front self.old ≤ last_front self.new }
    {
        self.told.learn(told);
    }
}
