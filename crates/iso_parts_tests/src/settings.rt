//! Settings and worlds, where no answer of the program shows it: what it shows is in `tests/rows`.
mod changes;
mod values;
mod world;
