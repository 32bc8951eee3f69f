//! Tests of the layers by direct call, in crates of their own: the gate proves a crate that has tests a second time with them, and
//! these need public calls alone. Some pass whichever allocation fails. Those of the topology and the primaries are in `mt_state_tests`.
#![tactic(auto)]

#[cfg(test)]
mod denied;
#[cfg(test)]
mod denied_memory;
#[cfg(test)]
mod keyspaces;
#[cfg(test)]
mod keyspaces_memory;
#[cfg(test)]
mod names;
#[cfg(test)]
mod pages;
#[cfg(test)]
mod ranges;
#[cfg(test)]
mod rules;
#[cfg(test)]
mod rules_documents;
#[cfg(test)]
mod rules_memory;
#[cfg(test)]
mod shared;
#[cfg(test)]
mod types;
#[cfg(test)]
mod watchers;
#[cfg(test)]
mod watchers_memory;
