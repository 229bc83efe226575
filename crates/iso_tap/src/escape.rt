//! Texts as they stand in titles and reasons.
ghost use Rattle.std.specs.Prelude.{◌≡◌};
ghost use Rattle.iso_tap.specs.Escapes.{escaped, plain_len};
ghost use Rattle.iso_tap.specs.Printers.{Writes};

use crate::fault::TapFault;
use crate::printer::{Piece, Printer};
use crate::sink::{Sink, SinkFailed};

/// For a runner of one's own: writes a text as it stands in a title or a reason (TAP version 14),
/// with a backslash before each backslash and each hash. Takes no memory.
///
/// The sink is asked again where it takes only some bytes, and no more once it has failed.
pub fn escape<W: Sink>(text: &str, sink: &mut W) -> Result<(), TapFault>
    ensures { Writes (W.account sink.old) (W.account sink.new) (escaped text.now) result }
{
    let mut printer = Printer::new(sink);
    match printer.piece(&Piece::Escaped(text)) {
        Ok(()) => Ok(()),
        Err(_) => Err(TapFault {
            written: printer.written(),
        }),
    }
}

impl<'a, W: Sink> Printer<'a, W> {
    ghost use Rattle.iso_tap.specs.Escapes.{with_escapes};
    ghost use Rattle.iso_tap.specs.Printers.{Prints};

    /// Writes a text with a backslash before each backslash and each of this other byte. What
    /// stands between these goes to the sink in one call.
    pub(crate) fn escaped(&mut self, other: u8, text: &[u8]) -> Result<(), SinkFailed>
        ensures { Prints self.old self.new (with_escapes other text.now) result }
    {
        let mut rest = text;
        let mut plain = plain_len(other, rest);
        while plain < rest.len() {
            let (run, special) = rest.split_at(plain);
            self.bytes(run)?;
            self.bytes(&[b'\\', special[0]])?;
            rest = &special[1..];
            plain = plain_len(other, rest);
        }
        self.bytes(rest)
    }
}

/// How many bytes stand before the first that is escaped, which is a backslash or this other byte.
pub(crate) fn plain_len(other: u8, text: &[u8]) -> usize
    ensures { result ≡ plain_len other text.now }
{
    let mut len = 0;
    for byte in text {
        if *byte == b'\\' || *byte == other {
            return len;
        }
        len += 1;
    }
    len
}
