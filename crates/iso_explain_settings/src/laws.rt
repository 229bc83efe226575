//! Laws of what is told. Each function does nothing: its contract is the law, and is proved.
ghost use Rattle.std.specs.Prelude.{◌≡◌, ◌<◌, ◌≤◌, ◌^◌, List, [], length, unwrap_or, ℕ};
ghost use Rattle.toml.specs.Data.{Data, as_str};
ghost use Rattle.iso_explain_settings.specs.Printable.{IsSafe, line_feeds};
ghost use Rattle.iso_explain_settings.specs.Told.{table_text, twice_text, value_text};
ghost use Rattle.iso_explain_settings.specs.declared.value.Kind.{Kind};
ghost use Rattle.iso_explain_settings.specs.declared.wanted.Wanted.{Wanted};

/// Whatever stands at a key, what is told of it is printable ASCII and line feeds: no control byte
/// of a file reaches a terminal. Lengths are taken to be those of texts in memory.
pub fn what_is_told_is_safe_to_show()
    ensures value { (kind : Kind) (wanted : Wanted) (key : List ℕ) (value : Data) (text : List ℕ)
        → length key < 2 ^ 64
        → length (unwrap_or (as_str value) []) < 2 ^ 64
        → IsSafe (value_text kind wanted key value text) }
    ensures table { (wanted : Wanted) (key : List ℕ) → IsSafe (table_text wanted key) }
    ensures twice { (key : List ℕ) → IsSafe (twice_text key) }
{}

/// What is told of what stands at a key has three lines at most.
pub fn what_is_told_has_few_lines()
    ensures value { (kind : Kind) (wanted : Wanted) (key : List ℕ) (value : Data) (text : List ℕ)
        → length key < 2 ^ 64
        → length (unwrap_or (as_str value) []) < 2 ^ 64
        → line_feeds (value_text kind wanted key value text) ≤ 3 }
    ensures table { (wanted : Wanted) (key : List ℕ) → line_feeds (table_text wanted key) ≤ 3 }
    ensures twice { (key : List ℕ) → line_feeds (twice_text key) ≡ 2 }
{}
