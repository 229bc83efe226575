//! Worked examples of pictures, as public laws.
ghost use Rattle.std.specs.Prelude.{◌≡◌, ◌++◌, ◌∷◌, [], codes, replicate};
ghost use Rattle.iso_hints.specs.Examples.{labelled, text_of};
ghost use Rattle.iso_hints.specs.Pictures.{hint_line, picture};

/// A line stands behind its number, carets below the bytes at a column, and a label behind these.
pub fn lines_are_shown_with_carets()
    ensures labelled { picture 3 (codes "  beforeEach { }") 3 10 (labelled "expected `}`")
        ≡ text_of (" 3 |   beforeEach { }" ∷ "   |   ^^^^^^^^^^ expected `}`" ∷ []) }
    ensures unlabelled { picture 120 (codes "print 'x';") 7 1 []
        ≡ text_of (" 120 | print 'x';" ∷ "     |       ^" ∷ []) }
    ensures behind_the_end { picture 4 (codes "}") 2 1 [] ≡ text_of (" 4 | }" ∷ "   |  ^" ∷ []) }
    ensures too_wide { picture 4 (codes "a b") 3 9 [] ≡ text_of (" 4 | a b" ∷ "   |   ^" ∷ []) }
    ensures no_width { picture 4 (codes "a b") 1 0 [] ≡ text_of (" 4 | a b" ∷ "   | ^" ∷ []) }
    ensures no_column { picture 4 (codes "a b") 0 1 [] ≡ text_of (" 4 | a b" ∷ "   | ^" ∷ []) }
    ensures beyond { picture 4 (codes "a b") 99 1 [] ≡ text_of (" 4 | a b" ∷ "   |    ^" ∷ []) }
    ensures bytes { picture 4 (9 ∷ 195 ∷ 164 ∷ 127 ∷ 126 ∷ []) 5 1 []
        ≡ text_of (" 4 |  ???~" ∷ "   |     ^" ∷ []) }
{}

/// Of a line above 160 bytes those round the column are shown.
pub fn long_lines_are_cut_round_the_column()
    ensures whole { picture 1 (replicate 160 97) 1 1 []
        ≡ codes " 1 | " ++ replicate 160 97 ++ codes "\n   | ^\n" }
    ensures cut_at_the_end { picture 1 (replicate 161 97) 1 1 []
        ≡ codes " 1 | " ++ replicate 160 97 ++ codes "..\n   | ^\n" }
    ensures cut_at_the_start { picture 1 (replicate 161 97) 161 1 []
        ≡ codes " 1 | .." ++ replicate 160 97 ++ codes "\n   | " ++ replicate 161 32
        ++ codes "^\n" }
    ensures cut_on_both_sides { picture 1 (replicate 200 97 ++ 98 ∷ replicate 200 97) 201 9 []
        ≡ codes " 1 | .." ++ (replicate 80 97 ++ 98 ∷ replicate 79 97) ++ codes "..\n   | "
        ++ replicate 82 32 ++ replicate 9 94 ++ codes "\n" }
    ensures behind_the_end { picture 1 (replicate 200 97) 201 1 []
        ≡ codes " 1 | .." ++ replicate 160 97 ++ codes "\n   | " ++ replicate 162 32
        ++ codes "^\n" }
{}

/// A hint stands on a line of its own.
pub fn hints_have_lines()
    ensures { hint_line (codes "did you mean `before_each`?")
        ≡ codes " = did you mean `before_each`?\n" }
{}
