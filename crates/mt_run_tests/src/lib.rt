//! Tests of command lines, of scripts and documents as bytes, and of readers and writers that fail.
#![tactic(auto)]

#[cfg(test)]
mod command_lines;
#[cfg(test)]
mod commands;
#[cfg(test)]
mod documents;
#[cfg(test)]
mod fault_names;
#[cfg(test)]
mod faults;
#[cfg(test)]
mod scripts;
#[cfg(test)]
mod words_memory;
