//! Tests of what workers stand on: deques, the scheduler's table, and what a gate is told of bodies
//! and of their times.
#![tactic(auto)]

#[cfg(test)]
mod clock;
#[cfg(test)]
mod desk;
#[cfg(test)]
mod posts;
#[cfg(test)]
mod shared;
#[cfg(test)]
mod suite;
#[cfg(test)]
mod tellings;
#[cfg(test)]
mod threads;
#[cfg(test)]
mod timings;
