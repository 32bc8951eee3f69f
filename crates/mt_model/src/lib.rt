//! Data that several layers name: entries of a topology, operations on rows, names and values that several hold at once.
#![tactic(auto)]

mod entries;
mod faults;
mod laws;
mod limits;
mod name;
mod part;
mod rows;
mod short;
mod value;

pub use entries::{Entry, EntryKey, Scope};
pub use faults::{PrimaryFault, TopologyFault};
pub use laws::{
    one_entry_and_no_other, places_change_no_value, places_stay_distinct, rules_are_applied_once,
    what_is_made_by_hand, written_back,
};
pub use limits::{MAX_KEYSPACES, MAX_LOG, MAX_RULES, MAX_TABLES_IN_KEYSPACE};
pub use name::SharedName;
pub use part::{
    denials_change_no_look_up, key_of_name, part_has_places, part_keys_are_distinct,
    places_say_nothing, routes_are_what_stands, table_rule_keys, taken_back_in_reverse,
};
pub use rows::{Op, RowChange};
pub use value::SharedValue;
