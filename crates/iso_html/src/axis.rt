//! Where moments stand in the picture.
ghost use Rattle.std.specs.Prelude.{◌≡◌, ◌≤◌, ◌<◌};
ghost use Rattle.iso_html.specs.Axes.{at, is_thin, pixel, width};

/// The place of a moment of a run that took so long, in hundredths of a pixel.
pub(crate) fn at(span: u64, moment: u64) -> u64
    ensures place { result ≡ at span moment }
{
    if span == 0 {
        return 0;
    }
    (u128::from(moment) * 100_000 / u128::from(span)).min(100_000) as u64
}

/// How wide it is from a moment until another.
pub(crate) fn width(span: u64, begin: u64, end: u64) -> u64
    ensures { result ≡ width span begin end }
{
    at(span, end).saturating_sub(at(span, begin))
}

/// Whether that is less than a pixel.
pub(crate) fn is_thin(span: u64, begin: u64, end: u64) -> bool
    ensures { result ≡ is_thin span begin end }
{
    width(span, begin, end) < 100
}

/// The pixel in which a moment stands.
pub(crate) fn pixel(span: u64, moment: u64) -> u32
    ensures { result ≡ pixel span moment }
{
    (at(span, moment) / 100).min(999) as u32
}
