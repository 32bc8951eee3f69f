//! A keyspace's primaries, one for each shard. Each has its tables with their rows, its own denied list, and the log of every
//! change.
#![tactic(auto)]

mod before;
mod change_laws;
mod edits;
mod laws;
mod placed;
mod primaries;
mod primary;
mod read_laws;
mod shards;
mod table;
mod two;

pub use before::Before;
pub use change_laws::{a_row_is_put, a_table_is_dropped, a_table_is_made};
pub use laws::{
    a_notice_tells_what_its_change_tells, a_refresh_concerns_named_tables, a_refresh_is_taken_back,
    denials_change_nothing_else,
};
pub use mt_model::{Op, PrimaryFault, RowChange, SharedName, SharedValue};
pub use primaries::Primaries;
pub use primary::Primary;
pub use read_laws::{a_log_is_read_in_order, rows_are_read_in_order};
pub use shards::Shards;
pub use two::sides_of;
