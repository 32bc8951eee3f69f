//! Routing rules: a table of places for rule keys, each with a rule or none, and their JSON document.
#![tactic(auto)]

mod fault;
mod four;
mod member;
mod name;
mod places;
mod read;
mod rules;
mod text;
mod walk;
mod write;

pub use fault::RulesFault;
pub use name::{NamePlaces, RuleName};
pub use read::value_of_text;
pub use rules::RoutingRules;
pub use text::{WrittenItem, push_quoted, push_sorted};
