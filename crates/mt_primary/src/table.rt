//! A table of a primary.
ghost use Rattle.std.specs.Prelude.{◌≡◌};
ghost use Rattle.std.specs.Option.{option_copied, option_map};
ghost use Rattle.mt_primary.specs.Primary.{new_table, row_in};
ghost use Rattle.mt_primary.specs.Reads.{next_row_in, read_row_in};

use mt_model::{PrimaryFault, SharedValue};
use mt_names::{Position, TabletType, Value};
use mt_store::Pages;
use std::alloc::Global;
use std::marker::Model;

/// A table: its rows by their keys, the position of the log at which it was made, and whether the primary's own list
/// has it.
#[derive(Drop)]
pub struct Table {
    made: Position,
    denied: bool,
    pub(crate) rows: Pages,
}

impl Model for Table {
    ghost use Rattle.mt_store.specs.Pages.{rows_in};
    ghost use Rattle.mt_primary.specs.Primary.{TableState, IsInKeyOrder};

    ghost Value = { TableState };

    ghost view = { λ t. record { made = t.made; denied = t.denied; rows = rows_in t.rows } };

    ghost invariant = { λ t. IsInKeyOrder (record { made = t.made; denied = t.denied; rows = rows_in t.rows }) };
}

impl Table {
    /// A table without rows, which is not denied.
    pub fn new(alloc: Global, made: Position) -> Self
        ensures { result ≡ new_table made }
    {
        Table {
            made,
            denied: false,
            rows: Pages::new(alloc),
        }
    }

    /// Whether it is denied.
    pub fn is_denied(&self) -> bool
        ensures { result ≡ self.now.denied }
    {
        self.denied
    }

    /// Denies it or not.
    pub fn set_denied(&mut self, denied: bool)
        ensures { self.new ≡ record self.old { denied = denied } }
    {
        self.denied = denied;
    }

    /// The row of a key.
    pub fn row(&self, key: u64) -> Option<&SharedValue>
        ensures { option_copied result ≡ row_in self.now key }
    {
        self.rows.get(key)
    }

    /// The row of a key, as a tablet of this type has it: `P2 Denied` of type primary alone, where it is denied.
    pub fn read(&self, key: u64, tablet_type: TabletType) -> Result<Option<Value>, PrimaryFault>
        ensures { result ≡ read_row_in self.now key tablet_type }
    {
        if tablet_type == TabletType::Primary && self.denied {
            return Err(PrimaryFault::Denied);
        }
        Ok(self.row(key).map(|row| row.value()))
    }

    /// The first row in the order of the keys, or the first above a key.
    pub fn row_after(&self, key: Option<u64>) -> Option<(u64, &SharedValue)>
        ensures { option_map (λ row. (row.0, row.1.now)) result ≡ next_row_in self.now key }
    {
        let row = self.rows.row_after(key)?;
        Some((row.0, &row.1))
    }
}
