//! Laws of explanations. Each function does nothing: its contract is the law, and is proved.
ghost use Rattle.std.specs.Prelude.{◌≡◌, ◌<◌, ◌≤◌, IfSome, List, Option, length, true, ℕ};
ghost use Rattle.std.specs.List.{list_all};
ghost use Rattle.iso_explain.specs.Explanations.{explanation};
ghost use Rattle.iso_explain.specs.Labels.{label_of};
ghost use Rattle.iso_explain.specs.Meant.{statement_words, words_of};
ghost use Rattle.iso_explain.specs.Printable.{HasPlaces, IsInner, IsSafe, line_feeds};
ghost use Rattle.iso_explain.specs.Scripts.{explained_text};
ghost use Rattle.iso_script.specs.declared.explain.Explained.{Explained};
ghost use Rattle.iso_script_statements.specs.Wanted.{a_word, takes};
ghost use Rattle.iso_script_statements.specs.declared.fault.ScriptFaultKind.{ScriptFaultKind};
ghost use Rattle.iso_script_statements.specs.declared.reason.Reason.{Reason};
ghost use Rattle.iso_script_statements.specs.declared.wanted.Wanted.TheVariants.{StatementOrElse};
ghost use Rattle.iso_script_statements.specs.declared.wanted.Wanted.{Wanted};

/// Whatever bytes are explained, the explanation is printable ASCII and line feeds: no control byte
/// of a script reaches a terminal. A word that is handed in is taken to be so; those that are found
/// are.
pub fn explanations_are_safe_to_show()
    ensures found { (bytes : List ℕ) (told : Explained) → HasPlaces told
        → IsSafe (explained_text bytes told) }
    ensures given { (bytes : List ℕ) (told : Explained) (meant : Option (List ℕ)) → HasPlaces told
        → IfSome meant IsSafe
        → IsSafe (explanation bytes told meant) }
{}

/// An explanation has six lines at most. A word that is handed in is taken to have no line feed;
/// those that are found have none.
pub fn explanations_have_few_lines()
    ensures found { (bytes : List ℕ) (told : Explained) → HasPlaces told
        → line_feeds (explained_text bytes told) ≤ 6 }
    ensures given { (bytes : List ℕ) (told : Explained) (meant : Option (List ℕ)) → HasPlaces told
        → IfSome meant IsInner
        → line_feeds (explanation bytes told meant) ≤ 6 }
{}

/// Each word that is told to have been meant could stand there: where the name does, or where a
/// statement begins, or `else`.
pub fn words_that_were_meant_could_stand_there()
    ensures found { (wanted : Wanted) → list_all (λ w. takes wanted (a_word w))
        (words_of wanted) ≡ true }
    ensures begun { list_all (λ w. takes StatementOrElse (a_word w)) statement_words ≡ true }
{}

/// A label has less than 110 bytes.
pub fn labels_are_short()
    ensures { (kind : ScriptFaultKind) (reason : Reason) → length (label_of kind reason) < 110 }
{}
