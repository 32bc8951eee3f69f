//! The name of a desk.
ghost use Rattle.std.specs.Prelude.{List, []};
ghost use Rattle.mt_model.specs.declared.entries.Scope.{Scope};
ghost use Rattle.mt_stands.specs.Ways.{CoreState, empty_core};

use mt_routes::Naming;
use std::marker::Brand;
use std::sync::ledger::Ledger;

/// A name that one desk has, and no other: whatever belongs to a desk has it in its type. A caller who opens a desk makes a `Blank`,
/// and uses the desk inside a function over a type of this trait, which it calls with `Brand`.
pub trait DeskName: Ledger + Naming {
    /// The state of the controller when the desk was opened.
    ghost opening: { CoreState };
    /// The scopes of the watchers that it asks.
    ghost scopes: { List Scope };
}

impl DeskName for Brand {
    ghost opening = { empty_core };

    ghost scopes = { [] };
}
