//! Watchers: how a change of the topology reaches the routers and the primaries. A watcher is asked with a change and
//! answers the notice of its scope; nothing else about it is trusted. (Vitess: routers watch the serving VSchema, which
//! has the routing rules, and a primary reads its denied tables anew on RefreshState.)
#![tactic(auto)]

mod asks;
mod change;
mod fault;
mod laws;
mod notice;
mod step;
mod tells;
mod watcher;
mod watchers;

pub use asks::Asks;
pub use change::Change;
pub use fault::{WatchFault, WatchersFault};
pub use laws::scopes_are_told_apart;
pub use mt_model::{Entry, EntryKey, Scope};
pub use notice::Notice;
pub use tells::tell;
pub use watcher::{Callback, Watcher};
pub use watchers::Watchers;
