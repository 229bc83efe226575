//! The ways in which the program runs a suite.

/// How a suite is run: on one thread, by the workers that its settings give, or by a recorded
/// schedule.
#[derive(Clone, Copy)]
pub(crate) enum Way<'a> {
    Serial,
    ByWorkers,
    BySchedule(&'a [u8]),
}
