//! Runs that were watched.
ghost use Rattle.std.specs.Prelude.{◌≡◌};
ghost use Rattle.std.specs.Option.{option_map};
ghost use Rattle.iso_run.specs.Watches.{watched_with};
ghost use Rattle.iso_telling.specs.Pages.{watched_of};

use iso_critical::critical::CriticalBodies;
use iso_stats::figures::Figures;
use iso_telling::watched::Watched;
use iso_times::times::Times;
use iso_waits::wait::NodeWait;

/// What was watched of a run besides the times of its bodies: its figures, what its nodes waited
/// for, and which bodies were critical.
#[derive(Drop)]
pub(crate) struct Watch {
    pub figures: Figures,
    pub waits: Vec<NodeWait>,
    pub critical: CriticalBodies,
}

/// What was watched of a run whose bodies had these times, if it was watched.
pub(crate) fn watched<'a>(times: &'a Times, watch: &'a Option<Watch>) -> Option<Watched<'a>>
    ensures { option_map watched_of result ≡ option_map (watched_with times.now) watch.now }
{
    match watch {
        Some(watch) => Some(Watched {
            times,
            figures: &watch.figures,
            waits: &watch.waits,
            critical: &watch.critical,
        }),
        None => None,
    }
}
