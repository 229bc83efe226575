//! What takes bytes.
ghost use Rattle.std.specs.Prelude.{◌≡◌, ◌≤◌, IfOk, OnErr, is_err, length, take};
ghost use Rattle.iso_tap.specs.Sinks.{Account, Took, TookNothing, greatest, is_failure, failures_after};

/// A sink didn't take what it was given.
#[derive(Clone, Copy, PartialEq, Eq)]
pub struct SinkFailed;

/// Takes bytes, piece by piece, and counts its failures.
pub trait Sink {
    ghost account: { Self → Account };

    /// Takes the first bytes of a piece and answers how many, which may be fewer than there are.
    /// An answer of none of a piece that isn't empty is a failure, as an error is.
    fn write(&mut self, bytes: &[u8]) -> Result<usize, SinkFailed>
        ensures within { IfOk result (λ n. n ≤ length bytes.now) }
        ensures took { IfOk result (λ n.
            Took (account self.old) (account self.new) (take n bytes.now)) }
        ensures kept { OnErr result (TookNothing (account self.old) (account self.new)) }
        ensures failures { (account self.new).failures
            ≡ failures_after (is_failure result bytes.now) (account self.old).failures }
        ensures countable { (account self.new).count ≤ greatest };

    /// Flushes what stands behind the sink. A sink whose writer can't has failed.
    fn flush(&mut self) -> Result<(), SinkFailed>
        ensures kept { TookNothing (account self.old) (account self.new) }
        ensures flushed { (account self.new).failures
            ≡ failures_after (is_err result) (account self.old).failures };
}
