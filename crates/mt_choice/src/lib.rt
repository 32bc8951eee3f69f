//! The command line of `mt`: one command with one level of subcommands, read by `clap`.
#![tactic(auto)]

mod choice;
mod laws;
mod parser;
mod reading;
mod words;

pub use choice::{Choice, USAGE, Wrong};
pub use laws::{run_reads_its_keyspaces, run_takes_no_option, worked_command_lines};
pub use reading::choose;
pub use words::{MAX_WATCHED, keyspaces};
