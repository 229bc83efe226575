//! Laws of what a summary shows. Each function does nothing: its contract is the law, and is
//! proved.
ghost use Rattle.std.specs.Prelude.{◌≡◌, ◌↔◌, ◌<◌, ◌^◌, ◌∷◌, [], ℕ, IfSome, List, Some, drop, false, map, true};
ghost use Rattle.std.specs.Char.{is_control};
ghost use Rattle.std.specs.List.{list_all};
ghost use Rattle.std.specs.Str.{IsUtf8};
ghost use Rattle.ucd_table.specs.Rows.{in_ranges};
ghost use Rattle.iso_summary.specs.Names.{has_ascii_control, shown_name};
ghost use Rattle.iso_summary.specs.Entries.{command_line};
ghost use Rattle.iso_summary.specs.Shells.{command_words, read_words};
ghost use Rattle.iso_summary.specs.ShownLines.{is_printable, shown_byte, shown_source};
ghost use Rattle.iso_summary.specs.Unseen.{has_unseen, is_unseen, unseen_ranges};
ghost use Rattle.iso_summary.specs.Views.{AgainView, LocatedView};
ghost use Rattle.iso_summary.specs.Words.{is_plain_word, shell_word};

/// A shell reads each word back as it was, be it empty or with quotes, spaces or line feeds in it.
pub fn shells_read_words_back()
    ensures { (word : List ℕ) → read_words (shell_word word) ≡ Some (word ∷ []) }
{}

/// A shell reads the command that is told, behind the nine bytes before it, as the words that it is
/// made of: the options that were given, the path and the script. A path is of plain bytes, as
/// names are.
pub fn shells_read_the_command_back()
    ensures { (again : AgainView) (at : LocatedView) (path : List ℕ) → is_plain_word path ≡ true
        → IfSome again.processors (λ n. n < 2 ^ 64)
        → read_words (drop 9 (command_line again at path)) ≡ Some (command_words again at path) }
{}

/// The characters that no reader sees are those of these ranges, and control characters are among
/// them.
pub fn unseen_characters_are_of_these_ranges()
    ensures ranges { (c : ℕ) → is_unseen c ≡ in_ranges unseen_ranges c }
    ensures controls { (c : ℕ) → is_control c ≡ true → is_unseen c ≡ true }
{}

/// What is shown of a file's name has no control character of ASCII, and no other character that no
/// reader sees: it stays in its line, it is read as it is spelled, and no terminal obeys it.
pub fn names_stay_in_their_line()
    ensures ascii { (name : List ℕ) → has_ascii_control (shown_name name) ≡ false }
    ensures unicode { (name : List ℕ) → IsUtf8 name → has_unseen (shown_name name) ≡ false }
{}

/// A word has no character that no reader sees exactly where it is shown as it stands.
pub fn words_that_are_seen_are_shown_as_they_stand()
    ensures { (word : List ℕ) → IsUtf8 word → (shown_name word ≡ word) ↔ (has_unseen word ≡ false) }
{}

/// A line of what mends a fault is printable ASCII, whatever a script has in it.
pub fn hints_are_shown_printable()
    ensures { (hint : List ℕ) → list_all is_printable (map shown_byte hint) ≡ true }
{}

/// What is shown of a line of a script is printable ASCII.
pub fn lines_are_shown_printable()
    ensures { (line : List ℕ) → list_all is_printable (shown_source line) ≡ true }
{}
