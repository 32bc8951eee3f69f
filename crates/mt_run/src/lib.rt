//! What the program does with its command line and its input: a script is run, or a document is read and written in its
//! canonical form.
#![tactic(auto)]

mod asking;
mod cached;
mod canon;
mod command;
mod line_run;
mod name_text;
mod names;
mod rows;
mod script;
mod tellers;
mod watching;

pub use canon::{canon_dump, canon_rules};
pub use command::{Status, perform};
pub use line_run::{Answered, LineRun};
pub use mt_choice::{Choice, Wrong};
pub use mt_script::ScriptFault;
pub use script::run_script;
pub use tellers::Tellers;
pub use watching::run_watched;
