//! Which plans and which worlds say the same.
mod examples;
mod plans;
mod worlds;
