ghost use Rattle.std.specs.Prelude.{◌≡◌, true};
ghost use Rattle.iso_schedule.specs.Scan.{is_numeral};

/// One or more decimal digits.
#[derive(Clone, Copy)]
pub(crate) struct Numeral<'a> {
    pub(crate) digits: &'a [u8],
    ghost numeral: { is_numeral digits.now ≡ true },
}

/// Whether a word is one or more digits.
fn is_numeral(word: &[u8]) -> bool
    ensures { result ≡ is_numeral word.now }
{
    if word.is_empty() {
        return false;
    }
    for byte in word {
        if !byte.is_ascii_digit() {
            return false;
        }
    }
    true
}

/// The most digits of a number that is read.
const MOST_DIGITS: usize = 9;

impl<'a> Numeral<'a> {
    ghost use Rattle.std.specs.Prelude.{None, Some, option_map, if◌then◌else◌};
    ghost use Rattle.iso_schedule.specs.Scan.{number, numeral_of};

    /// The numeral that a word is.
    pub(crate) fn from_word(word: &'a [u8]) -> Option<Numeral<'a>>
        ensures { option_map (λ n. n.digits.now) result ≡ numeral_of word.now }
    {
        if is_numeral(word) {
            Some(Numeral { digits: word })
        } else {
            None
        }
    }

    /// The number that at most nine digits write.
    pub(crate) fn value(self) -> Option<u32>
        ensures { result ≡ number self.entry.digits.now }
    {
        if self.digits.len() > MOST_DIGITS {
            return None;
        }
        let mut value = 0;
        for digit in self.digits {
            value = value * 10 + u32::from(*digit - b'0');
        }
        Some(value)
    }
}
