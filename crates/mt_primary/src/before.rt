//! What stood on an own list.
use arrayvec::ArrayVec;
use mt_names::{MAX_TABLES, TableName};
use std::default::MadeWith;
use std::marker::Model;

/// A table, and whether it was denied.
#[derive(Debug, Drop)]
pub struct Mark {
    pub table: TableName,
    pub denied: bool,
}

impl Model for Mark {
    ghost use Rattle.std.specs.Prelude.{ℕ, Bool, List};

    ghost Value = { List ℕ × Bool };

    ghost view = { λ mark. (mark.table, mark.denied) };
}

/// The blank that an `ArrayVec` of marks keeps in its unused places.
impl MadeWith<()> for Mark {
    fn made_with(alloc: ()) -> Self {
        Mark {
            table: TableName::made_with(alloc),
            denied: false,
        }
    }
}

/// What stood on a primary's own list for the tables that a refresh named, at most 16.
#[derive(Debug, Drop)]
pub struct Before {
    pub(crate) marks: ArrayVec<Mark, MAX_TABLES>,
}

impl Model for Before {
    ghost use Rattle.mt_model.specs.Topology.{Marks};

    ghost Value = { Marks };

    ghost view = { λ before. before.marks.items };
}
