//! What was measured of nodes.
ghost use Rattle.std.specs.Prelude.{◌≡◌};
ghost use Rattle.iso_durations.specs.Times.{time};

/// How many microseconds a node's bodies took, none where none of them was measured.
pub(crate) fn time(times: &[Option<u64>], node: u32) -> Option<u64>
    ensures { result ≡ time times.now node }
{
    match times.get(node as usize) {
        Some(time) => *time,
        None => None,
    }
}
