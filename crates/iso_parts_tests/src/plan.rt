//! Plans, read through their calls.
mod limits;
mod numbers;
pub(crate) mod scripts;
mod selected;
