//! Characters that no reader sees, or that change how others are seen.
ghost use Rattle.std.specs.Prelude.{◌≡◌};
ghost use Rattle.std.specs.Option.{option_map};
ghost use Rattle.iso_summary.specs.Unseen.{given_has_unseen, has_unseen, is_unseen};

use ucd_category::GeneralCategory;

/// Whether a character is a control character (Cc), a mark of format (Cf) as those that have no
/// width or change the direction of a text, or the end of a line (Zl) or of a paragraph (Zp), by
/// its general category in version 18.0.0 of The Unicode Standard.
pub fn is_unseen(c: char) -> bool
    ensures { result ≡ is_unseen c }
{
    matches!(
        GeneralCategory::for_char(c),
        GeneralCategory::Control
            | GeneralCategory::Format
            | GeneralCategory::LineSeparator
            | GeneralCategory::ParagraphSeparator
    )
}

/// Whether a text has such a character.
pub fn has_unseen(text: &str) -> bool
    ensures { result ≡ has_unseen text.now }
{
    text.chars().any(|c| is_unseen(c))
}

/// Whether a word was given and has a character that no reader sees.
pub fn given_has_unseen(word: Option<&str>) -> bool
    ensures { result ≡ given_has_unseen (option_map (λ w. w.now) word.entry) }
{
    match word {
        Some(word) => has_unseen(word),
        None => false,
    }
}
