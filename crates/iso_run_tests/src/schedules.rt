//! Schedules on the core.
mod allowed;
mod generated;
mod runs;
mod stopped;
