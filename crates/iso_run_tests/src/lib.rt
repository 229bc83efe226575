//! Tests of schedules and workers over whole suites.
#![tactic(auto)]

#[cfg(test)]
mod figures;
#[cfg(test)]
mod random;
#[cfg(test)]
mod schedules;
#[cfg(test)]
mod suites;
#[cfg(test)]
#[cfg(test)]
mod told;
#[cfg(test)]
mod workers;
