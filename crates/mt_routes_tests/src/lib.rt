//! Tests of routes by direct call: tables of acts with what each is answered, publications in turn whose names go and come back,
//! two that pass whichever allocation fails, many routes, readers in threads, and look-ups whose time is measured.
#![tactic(auto)]

#[cfg(test)]
mod acts;
#[cfg(test)]
mod memory;
#[cfg(test)]
mod said;
#[cfg(test)]
mod scene;
#[cfg(test)]
mod sizes;
#[cfg(test)]
mod speed;
#[cfg(test)]
mod threads;
#[cfg(test)]
mod turns;
