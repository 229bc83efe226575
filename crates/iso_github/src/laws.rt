//! Laws of what is written. Each function does nothing: its contract is the law, and is proved.
ghost use Rattle.std.specs.Prelude.{◌≡◌, ℕ, List, Some};
ghost use Rattle.iso_github.specs.Commands.{in_message, in_property};
ghost use Rattle.iso_github.specs.Readers.{message_of, property_of};

/// GitHub reads each text back as it was, whatever bytes it has, as a message and as a property. So
/// none of its bytes ends it, or the line.
pub fn texts_are_read_back()
    ensures message { (text : List ℕ) → message_of (in_message text) ≡ Some text }
    ensures property { (text : List ℕ) → property_of (in_property text) ≡ Some text }
{}
