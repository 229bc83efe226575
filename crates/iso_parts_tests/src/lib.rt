//! Tests of the parts under the core, in one crate: each crate of tests pays once for linking and
//! comparing all that it reaches.
#![tactic(auto)]

#[cfg(test)]
mod locks;
#[cfg(test)]
mod model;
#[cfg(test)]
mod plan;
#[cfg(test)]
mod same;
#[cfg(test)]
mod schedule;
#[cfg(test)]
mod script;
#[cfg(test)]
mod settings;
#[cfg(test)]
mod shared;
#[cfg(test)]
mod store;
