//! Tests of the topology and the primaries by direct call, some of them such that they pass whichever allocation fails.
#![tactic(auto)]

#[cfg(test)]
mod dumps;
#[cfg(test)]
mod phases;
#[cfg(test)]
mod primary;
#[cfg(test)]
mod primary_memory;
#[cfg(test)]
mod purges;
#[cfg(test)]
mod refreshes;
#[cfg(test)]
mod routes;
#[cfg(test)]
mod rows;
#[cfg(test)]
mod streams;
#[cfg(test)]
mod topology;
#[cfg(test)]
mod topology_memory;
