//! Schedules: how a fault shows, and changed bytes. Each rule of a line is a worked example of
//! `iso_schedule`.
mod changes;
mod schedules;
