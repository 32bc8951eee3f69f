//! Where names lead for the primary, of those that rows were asked for by.
ghost use Rattle.std.specs.Prelude.{if◌then◌else◌, ◌≡◌, [], Ok, IfSome};
ghost use Rattle.mt_model.specs.Topology.{TopologyState, resolution};
ghost use Rattle.mt_names.specs.declared.types.TabletType.TheVariants.{Primary};
ghost use Rattle.mt_run.specs.Names.{LeadThere, LeadsTo, plain_key};

use crate::name_text::NameText;
use indexmap::IndexMap;
use mt_names::TableName;
use mt_site::Place;
use std::alloc::Global;

/// How many rows are asked for by names that aren't kept before one is. Where other events come between rows nothing is kept, as it
/// would be forgotten before it serves.
const FIRST_ROWS: u8 = 4;

/// The names that are kept.
#[derive(Drop)]
pub(crate) struct Names {
    /// Where each of them leads.
    pub kept: IndexMap<TableName, Place>,
    /// How many rows were asked for by names that weren't kept, as far as that matters.
    pub rows: u8,
}

impl Names {
    /// No names. It takes no memory.
    pub fn new(alloc: Global) -> Self
        ensures { result.kept.entries ≡ [] }
    {
        Names {
            kept: IndexMap::new(alloc),
            rows: 0,
        }
    }

    /// Forgets all names.
    pub fn forget(&mut self)
        ensures { self.new.kept.entries ≡ [] }
    {
        self.kept.clear();
        self.rows = 0;
    }

    /// Forgets all unless each leads where it led.
    pub fn keep_if(&mut self, lead: bool)
        ensures { self.new.kept.entries ≡ (if lead then self.old.kept.entries else []) }
    {
        if !lead {
            self.forget();
        }
    }

    /// Where a name of these bytes leads for the primary, if it is kept. It takes no memory.
    pub fn find(&self, name: &[u8]) -> Option<&Place>
        ensures { (topology : TopologyState) → LeadThere topology self.now.kept.entries
            → IfSome result (λ place. LeadsTo topology name.now place.now) }
    {
        self.kept.get(NameText { bytes: name })
    }

    /// Whether the name by which a row was asked for is to be kept.
    pub fn wants_more(&mut self) -> bool
        ensures { self.new.kept ≡ self.old.kept }
    {
        if self.rows < FIRST_ROWS {
            self.rows += 1;
            return false;
        }
        true
    }

    /// Keeps where a name leads for the primary, if there is memory for it.
    pub fn keep(&mut self, name: TableName, place: Place)
        ensures { (topology : TopologyState) → LeadThere topology self.old.kept.entries → resolution topology (plain_key name) Primary ≡ Ok place.target
            → LeadThere topology self.new.kept.entries }
    {
        // (its text says to the proof that it is a name)
        name.as_str();
        // What finds no memory is looked up again.
        match self.kept.insert(name, place) {
            Ok(_) => {}
            Err(_) => {}
        }
    }
}
