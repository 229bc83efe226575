//! What was watched of a run.

use iso_critical::critical::CriticalBodies;
use iso_stats::figures::Figures;
use iso_times::times::Times;
use iso_waits::wait::NodeWait;

/// What was watched of a run: the times of its bodies, its figures, what its nodes waited for, and
/// which bodies were critical.
#[derive(Clone, Copy)]
pub struct Watched<'a> {
    pub times: &'a Times,
    pub figures: &'a Figures,
    pub waits: &'a [NodeWait],
    pub critical: &'a CriticalBodies,
}
