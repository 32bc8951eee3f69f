//! Tests of the journal, of the plans of ways, of steps and their undo, and of how the refusals of steps are printed.
#![tactic(auto)]

#[cfg(test)]
mod acts;
#[cfg(test)]
mod effects;
#[cfg(test)]
mod journal;
#[cfg(test)]
mod plans;
#[cfg(test)]
mod play;
#[cfg(test)]
mod scene;
#[cfg(test)]
mod steps;
#[cfg(test)]
mod ways;
