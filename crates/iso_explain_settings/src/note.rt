//! The last line of what is told of a value.
ghost use Rattle.std.specs.Prelude.{◌≡◌, option_map};
ghost use Rattle.iso_explain_settings.specs.Told.{hint_note, mending_note, note_text};

/// A line, or none: these texts one after another.
#[derive(Clone, Copy)]
pub(crate) struct Note<'a> {
    pub lead: &'a str,
    pub text: &'a str,
    pub end: &'a str,
}

/// What mends a value: the word that was meant, or else a hint.
pub(crate) fn mending<'a>(meant: Option<&'a str>, hint: Option<&'a str>) -> Note<'a>
    ensures { note_text result ≡ mending_note (option_map (λ w. w.now) meant.entry)
        (option_map (λ h. h.now) hint.entry) }
{
    match meant {
        Some(word) => Note {
            lead: " = did you mean `",
            text: word,
            end: "`?\n",
        },
        None => hint_note(hint),
    }
}

/// A hint on a line of its own, if there is one.
fn hint_note<'a>(hint: Option<&'a str>) -> Note<'a>
    ensures { note_text result ≡ hint_note (option_map (λ h. h.now) hint.entry) }
{
    match hint {
        Some(text) => Note {
            lead: " = ",
            text,
            end: "\n",
        },
        None => Note {
            lead: "",
            text: "",
            end: "",
        },
    }
}
