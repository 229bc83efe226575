//! Tests of the book of a run, on whole suites.
#![tactic(auto)]

#[cfg(test)]
mod keyless;
#[cfg(test)]
mod leaves;
#[cfg(test)]
mod opened;
#[cfg(test)]
mod others;
#[cfg(test)]
mod plays;
#[cfg(test)]
mod refusals;
#[cfg(test)]
mod suites;
