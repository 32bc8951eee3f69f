//! Tests of streams and of workflows by direct call: what they do, some of them such that they pass whichever allocation fails; streams of
//! many rows, whose time is measured; and which events, answers and refusals are told apart.
#![tactic(auto)]

#[cfg(test)]
mod copies;
#[cfg(test)]
mod creating;
#[cfg(test)]
mod faults;
#[cfg(test)]
mod lanes;
#[cfg(test)]
mod made;
#[cfg(test)]
mod memory;
#[cfg(test)]
mod pair;
#[cfg(test)]
mod parts;
#[cfg(test)]
mod sizes;
#[cfg(test)]
mod stream_memory;
#[cfg(test)]
mod streams;
#[cfg(test)]
mod told_apart;
#[cfg(test)]
mod ways;
#[cfg(test)]
mod workflow;
