//! What mends bytes that are no script.
ghost use Rattle.std.specs.Prelude.{◌≡◌, ℕ, IfErr, List, OnErr, OnOk, option_map};
ghost use Rattle.iso_explain.specs.Explanations.{explanation};
ghost use Rattle.iso_explain.specs.Scripts.{IsBegun, explained_text};
ghost use Rattle.iso_explain.specs.Spots.{IsSpotOf};
ghost use Rattle.iso_tap.specs.Sinks.{CutOff, Wrote};

use crate::explanation::write_at;
use crate::meant::meant;
use crate::spot::{Spot, spot_of};
use iso_script::explain::Explained;
use iso_tap::printer::Printer;
use iso_tap::sink::{Sink, SinkFailed};
use std::alloc::{AllocError, Global};

/// Why nothing could be explained.
#[derive(Clone, Copy, PartialEq, Eq)]
pub enum ExplainError {
    OutOfMemory,
    SinkFailed,
}

/// Writes what mends bytes that are no script, of which `read_or_why` has said why. It takes memory
/// from `alloc` until it is written.
pub fn explain_script<W: Sink>(
    alloc: Global,
    bytes: &[u8],
    explained: &Explained<'_>,
    sink: &mut W,
) -> Result<(), ExplainError>
    // The explanation was written, or where the sink failed the beginning of it.
    ensures told { OnOk result
        (Wrote (W.account sink.old) (W.account sink.new) (explained_text bytes.now explained.now)) }
    ensures begun { IfErr result (IsBegun (explained_text bytes.now explained.now)
        (W.account sink.old) (W.account sink.new)) }
{
    let spot = spot_of(bytes, explained.fault);
    let word = meant(alloc, &spot.place, explained)?;
    tell(&spot, explained, word, sink)?;
    Ok(())
}

/// Writes the explanation of a fault that is here.
fn tell<W: Sink>(
    spot: &Spot<'_>,
    explained: &Explained<'_>,
    word: Option<&str>,
    sink: &mut W,
) -> Result<(), SinkFailed>
    ensures wrote { (bytes : List ℕ) → IsSpotOf spot.now bytes explained.now.fault
        → OnOk result (Wrote (W.account sink.old) (W.account sink.new)
        (explanation bytes explained.now (option_map (λ w. w.now) word.entry))) }
    ensures cut { (bytes : List ℕ) → IsSpotOf spot.now bytes explained.now.fault
        → OnErr result (CutOff (W.account sink.old) (W.account sink.new)
        (explanation bytes explained.now (option_map (λ w. w.now) word.entry))) }
{
    let mut printer = Printer::new(sink);
    write_at(spot, explained, word, &mut printer)
}

impl From<AllocError> for ExplainError {
    ghost use Rattle.std.specs.Prelude.{◌≡◌};
    ghost use Rattle.iso_explain.specs.declared.script.ExplainError.TheVariants.{OutOfMemory};

    ghost from_gives = { λ _ e. e ≡ OutOfMemory };

    fn from(_error: AllocError) -> ExplainError {
        ExplainError::OutOfMemory
    }
}

impl From<SinkFailed> for ExplainError {
    ghost use Rattle.std.specs.Prelude.{◌≡◌};
    ghost use Rattle.iso_explain.specs.declared.script.ExplainError.TheVariants.{SinkFailed};

    ghost from_gives = { λ _ e. e ≡ SinkFailed };

    fn from(_error: SinkFailed) -> ExplainError {
        ExplainError::SinkFailed
    }
}
