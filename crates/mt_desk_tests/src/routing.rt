//! A client that sees in its look-up what it told.
ghost use Rattle.std.specs.Prelude.{◌≡◌, List, IfSome, Ok};
ghost use mathlib.Core.List.{IsPrefix};
ghost use Rattle.mt_routes.specs.declared.publication.Publication.{Publication};
ghost use Rattle.mt_routes.specs.LookUp.{Routes};
ghost use Rattle.mt_desk.specs.Fronts.{Tells};

use mt_desk::{Desk, DeskName};
use mt_names::{RuleKey, RuleTarget, TabletType};
use mt_routes::{Front, Router};
use mt_watch::Asks;
use std::sync::Wait;

/// Has routers told the routes as they now stand, and looks a name up by one that learnt it. Answers where the name leads, by the last
/// publication that was told or a later one, with its front; or nothing, where the desk or the router refused.
pub fn route_told<D: DeskName, W: Asks + Drop, R: Wait>(
    rt: &R,
    desk: &Desk<D, W>,
    router: &mut Router<D>,
    key: &RuleKey,
    tablet_type: TabletType,
) -> Option<(RuleTarget, Front)>
    ensures { IfSome result (λ found. (told : List Publication) × Tells D.scopes D.opening told × IsPrefix told router.new × Routes router.new key.now tablet_type (Ok found)) }
{
    match desk.tell(rt) {
        Ok(told) => router.learn(told),
        Err(_) => return None,
    }
    match router.route(key, tablet_type) {
        Ok(found) => Some(found),
        Err(_) => None,
    }
}
