//! How many processors are counted with.
ghost use Rattle.std.specs.Prelude.{IfSome};
ghost use Rattle.iso_arguments.specs.RequestBounds.{IsWithin};

/// The largest number of processors that may be asked for.
const MOST: u32 = 1024;

/// How many processors are counted with.
#[derive(Clone, Copy, PartialEq, Eq)]
pub enum Processors {
    /// So many, from 1 to 1,024.
    Count(u32),
    /// As many as the machine has.
    Auto,
}

/// Reads how many processors are counted with: `auto`, or a number from 1 to 1,024. Takes no
/// memory.
pub(crate) fn read_processors(word: &str) -> Option<Processors>
    ensures bounds { IfSome result IsWithin }
{
    if word == "auto" {
        return Some(Processors::Auto);
    }
    let count = word.parse::<u32>().ok()?;
    if count == 0 || count > MOST {
        return None;
    }
    Some(Processors::Count(count))
}
