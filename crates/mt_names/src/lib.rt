//! The names that an operator writes: keyspaces, tables, workflows, tablet types, rule keys and targets.
#![tactic(auto)]

mod equality;
mod examples;
mod fault;
mod keys;
mod names;
mod ranges;
mod shards;
mod tables;
mod text;
mod types;
mod values;

pub use equality::equality_decides;
pub use examples::{examples_of_ranges, examples_of_shards};
pub use fault::NameFault;
pub use keys::{RuleKey, RuleTarget, key_has_one_spelling, target_has_one_spelling, type_number};
pub use names::{KeyspaceName, TableName, WorkflowName};
pub use ranges::{KeyRange, a_range_goes_by_bytes, range_has_one_spelling};
pub use shards::{MAX_SHARDS, ShardList, a_shard_holds_its_keys, shards_have_one_spelling};
pub use tables::{MAX_TABLES, table_list, table_list_is_read_back};
pub use text::MAX_NAME_LENGTH;
pub use types::{
    TabletType, TypeSet, any_order_is_read, only_listed_are_read, same_members_same_set,
};
pub use values::{MAX_VALUE_LENGTH, Position, Value, copied_value};
