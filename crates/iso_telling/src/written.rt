//! Suites as they are written.

use iso_model::script::Script;
use iso_script::place::NodePlace;

/// A suite as it is written: its scripts, where the classes and tests of each stand, in written
/// order, and the bytes of each.
#[derive(Clone, Copy)]
pub struct Written<'a> {
    pub scripts: &'a [Script],
    pub places: &'a [Vec<NodePlace>],
    pub texts: &'a [&'a [u8]],
}
