//! What the controller means: its plain state, the refusals, the next state, and the output of a script.
//!
//! Read `specs/` in this order: `Events`, `Plain`, `Serve`, `Writes`, `Slots`, `Refuse`, `Next`, `Answers`, `Script`,
//! `Numbers`, `Drive`, `Output`. docs/DEFINITIONS.md goes through them.
#![tactic(auto)]
