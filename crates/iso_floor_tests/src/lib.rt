//! Tests of floors: seats, waits that end, strangers, a floor that is stopped, and workers in
//! threads of their own.
#![tactic(auto)]

#[cfg(test)]
mod busy;
#[cfg(test)]
mod by_hand;
#[cfg(test)]
mod closings;
#[cfg(test)]
mod crew;
#[cfg(test)]
mod gates;
#[cfg(test)]
mod holdings;
#[cfg(test)]
mod meetings;
#[cfg(test)]
mod reports;
#[cfg(test)]
mod runs;
#[cfg(test)]
mod seats;
#[cfg(test)]
mod shared;
#[cfg(test)]
mod site;
#[cfg(test)]
mod stops;
#[cfg(test)]
mod strangers;
#[cfg(test)]
mod suites;
