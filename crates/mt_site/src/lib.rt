//! The controller: its core, the watchers that it asks, and each event as one call.
#![tactic(auto)]

mod advance;
mod applied;
mod by_hand;
mod controller;
mod driving;
mod given_up;
mod owed;
mod primaries;
mod replies;
mod rows;
mod run;
mod shards;
mod show;
mod site;
mod turn;

pub use controller::{Core, Place};
pub use driving::drive;
pub use given_up::a_move_can_be_given_up;
pub use mt_event::{
    Ask, Driven, Event, Reason, Refusal, Reply, Shown, ShownLane, ShownOf, ShownStream, Told, Verb,
};
pub use mt_model::{Op, TopologyFault};
pub use mt_names::{
    KeyRange, KeyspaceName, NameFault, Position, RuleKey, RuleTarget, ShardList, TableName,
    TabletType, TypeSet, Value, WorkflowName,
};
pub(crate) use mt_primary::Primaries;
pub use mt_rules::RulesFault;
pub(crate) use mt_stands::{OpenWays, Workflows};
pub use mt_stream::{Advanced, StreamState};
pub use mt_watch::{Asks, Scope, Watcher, Watchers, WatchersFault, telling_watcher};
pub use mt_workflow::{Slot, Way};
pub use owed::a_base_owes_what_its_state_owes;
pub use run::{RunStopped, run_events};
pub use site::Site;
