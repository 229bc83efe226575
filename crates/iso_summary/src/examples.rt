//! Worked examples of the definitions, as public laws.
ghost use Rattle.std.specs.Prelude.{◌≡◌, ◌++◌, ◌∷◌, [], codes, false, replicate, true};
ghost use Rattle.iso_failures.specs.Examples.{till_in_cart, unopened_of};
ghost use Rattle.iso_plan.specs.Tree.{tree};
ghost use Rattle.iso_summary.specs.Entries.{again_line, failure_text, skipped_text};
ghost use Rattle.iso_summary.specs.Examples.{in_cart, in_dash, in_stdin, in_two_lines, outcome_of, places_of_failures, places_of_skipped, plain, text_of, with_escape, with_hints, with_options};
ghost use Rattle.iso_summary.specs.Examples.{command_start, in_file, language_tag, line_end, long_dash, next_line, no_width, paragraph_end, turned_text, umlaut, wide_space};
ghost use Rattle.iso_summary.specs.Names.{planned_name, shown_name};
ghost use Rattle.iso_summary.specs.ShownLines.{shown_source};
ghost use Rattle.iso_summary.specs.Summaries.{counts_line, summary_text};
ghost use Rattle.iso_summary.specs.Unseen.{has_unseen};
ghost use Rattle.iso_summary.specs.Words.{file_word, shell_word};

/// A word of letters, digits and some signs stands as it is, any other in single quotes, with each
/// quote in it on its own.
pub fn words_are_quoted_where_they_need_it()
    ensures plain { shell_word (codes "a/B_9.x:y=@%+,-z") ≡ codes "a/B_9.x:y=@%+,-z" }
    ensures space { shell_word (codes "my cart.jtap") ≡ codes "'my cart.jtap'" }
    ensures quote { shell_word (codes "it's") ≡ codes "'it'\\''s'" }
    ensures backslash { shell_word (codes "a\\b") ≡ codes "'a\\b'" }
    ensures tilde { shell_word (codes "~/x") ≡ codes "'~/x'" }
    ensures umlaut { shell_word (195 ∷ 164 ∷ []) ≡ 39 ∷ 195 ∷ 164 ∷ 39 ∷ [] }
    ensures empty { shell_word [] ≡ codes "''" }
{}

/// A file's name that begins with a dash is told by its folder, so that it is taken for no option.
pub fn files_are_no_options()
    ensures dash { file_word (codes "-x.jtap") ≡ codes "./-x.jtap" }
    ensures quoted { file_word (codes "-my x.jtap") ≡ codes "./'-my x.jtap'" }
    ensures inside { file_word (codes "a/-x.jtap") ≡ codes "a/-x.jtap" }
{}

/// The characters of a name that no reader sees are shown by their escapes, of one byte up to four,
/// and all else as it is.
pub fn unseen_characters_of_names_are_escaped()
    ensures one_byte { shown_name (codes "a\nb\r\t" ++ 27 ∷ 127 ∷ [])
        ≡ codes "a\\nb\\r\\t\\u001B\\u007F" }
    ensures two_bytes { shown_name (194 ∷ 133 ∷ 194 ∷ 160 ∷ []) ≡ codes "\\u0085"
        ++ 194 ∷ 160 ∷ [] }
    ensures turned { shown_name (codes "a" ++ turned_text ++ codes ".jtap")
        ≡ codes "a\\u202E.jtap" }
    ensures no_width { shown_name no_width ≡ codes "\\u200B" }
    ensures line_end { shown_name line_end ≡ codes "\\u2028" }
    ensures paragraph_end { shown_name paragraph_end ≡ codes "\\u2029" }
    ensures four_bytes { shown_name language_tag ≡ codes "\\U000E0001" }
    ensures long_dash { shown_name long_dash ≡ long_dash }
    ensures as_they_are { shown_name (codes "my \"cart\" \\.jtap" ++ 195 ∷ 164 ∷ [])
        ≡ codes "my \"cart\" \\.jtap" ++ 195 ∷ 164 ∷ [] }
{}

/// In a printed plan control characters alone are shown by their escapes.
pub fn control_characters_of_planned_names_are_escaped()
    ensures controls { planned_name (codes "a\nb\r\t" ++ 27 ∷ 127 ∷ 194 ∷ 133 ∷ [])
        ≡ codes "a\\nb\\r\\t\\u001B\\u007F\\u0085" }
    ensures turned { planned_name (codes "a" ++ turned_text) ≡ codes "a" ++ turned_text }
{}

/// A tab is shown as a space, each other byte that isn't printable ASCII as a question mark, and
/// 160 bytes at most.
pub fn lines_of_scripts_are_shown_as_printable_ascii()
    ensures bytes { shown_source (codes "\tfail \"no\"; // ~" ++ 195 ∷ 164 ∷ 127 ∷ 13 ∷ [])
        ≡ codes " fail \"no\"; // ~????" }
    ensures whole { shown_source (replicate 160 97) ≡ replicate 160 97 }
    ensures cut { shown_source (replicate 161 97) ≡ replicate 160 97 ++ codes ".." }
{}

/// A failed test is told by its path, the place with the message, the line of the script and the
/// command that runs it again.
pub fn failed_test_is_told()
    ensures { failure_text plain (in_cart 12 "        assert_equal 6, price + 2;")
        (codes "shop.Cart.adds") (codes "expected: <6> but was: <5>") 0
        ≡ text_of
        ("not ok shop.Cart.adds"
        ∷ "  cart.jtap:12: expected: <6> but was: <5>"
        ∷ "  12 |         assert_equal 6, price + 2;"
        ∷ "  again: jtap run --only shop.Cart.adds cart.jtap"
        ∷ ""
        ∷ []) }
{}

/// Below the line of the script stands what mends it, a line each, a tab and other bytes as in that
/// line.
pub fn what_mends_a_fault_is_told()
    ensures { failure_text plain (with_hints ("+ adds two whole numbers" ∷ "write \"a\tb\"" ∷ []))
        (codes "shop.Cart") (codes "wrong kind") 2
        ≡ text_of
        ("not ok shop.Cart"
        ∷ "  cart.jtap:3: wrong kind"
        ∷ "  3 |     before_all { print 1 + \"a\"; }"
        ∷ "  = + adds two whole numbers"
        ∷ "  = write \"a b\""
        ∷ "  blocks 2 tests"
        ∷ "  again: jtap run --only shop.Cart cart.jtap"
        ∷ ""
        ∷ []) }
{}

/// A class is told in the same way, with the number of tests that it blocks.
pub fn failed_class_tells_what_it_blocks()
    ensures many { failure_text plain (in_cart 3 "    before_all { fail \"no db\"; }")
        (codes "shop.Env") (codes "no db") 17
        ≡ text_of
        ("not ok shop.Env"
        ∷ "  cart.jtap:3: no db"
        ∷ "  3 |     before_all { fail \"no db\"; }"
        ∷ "  blocks 17 tests"
        ∷ "  again: jtap run --only shop.Env cart.jtap"
        ∷ ""
        ∷ []) }
    ensures one { failure_text plain (in_stdin 3 "") (codes "shop.Env") (codes "no db") 1
        ≡ text_of ("not ok shop.Env" ∷ "  stdin:3: no db" ∷ "  3 | "
        ∷ "  blocks 1 test" ∷ "" ∷ []) }
{}

/// The command has the options that a run's results depend on, in this order.
pub fn command_has_the_options_again()
    ensures { failure_text with_options (in_dash 7 "fail \"no\";") (codes "shop.Cart.adds")
        (codes "no") 0
        ≡ text_of
        ("not ok shop.Cart.adds"
        ∷ "  -my cart.jtap:7: no"
        ∷ "  7 | fail \"no\";"
        ∷ "  again: jtap run --settings 'it'\\''s.toml' --world ./-w.toml --processors 4 --only shop.Cart.adds ./'-my cart.jtap'"
        ∷ ""
        ∷ []) }
{}

/// Characters that no reader sees are those of Unicode: control characters of ASCII and of two
/// bytes, marks of format and the ends of lines and paragraphs, and no space, dash or letter.
pub fn unseen_characters_of_words_are_those_of_unicode()
    ensures line_feed { has_unseen (codes "a\nb") ≡ true }
    ensures delete { has_unseen (127 ∷ []) ≡ true }
    ensures next_line { has_unseen (codes "a" ++ next_line) ≡ true }
    ensures command_start { has_unseen (command_start ++ codes "2J") ≡ true }
    ensures turned { has_unseen (codes "a" ++ turned_text) ≡ true }
    ensures no_width { has_unseen no_width ≡ true }
    ensures line_end { has_unseen line_end ≡ true }
    ensures paragraph_end { has_unseen paragraph_end ≡ true }
    ensures language_tag { has_unseen language_tag ≡ true }
    ensures long_dash { has_unseen long_dash ≡ false }
    ensures wide_space { has_unseen (codes "a" ++ wide_space) ≡ false }
    ensures umlaut { has_unseen (umlaut ++ codes " b") ≡ false }
    ensures empty { has_unseen [] ≡ false }
{}

/// No command is told where a file's name has a character that no reader sees, and one where it has
/// other characters of two or three bytes.
pub fn command_is_told_with_characters_that_are_seen()
    ensures next_line { failure_text plain (in_file next_line) (codes "shop.Cart.adds")
        (codes "no") 0
        ≡ text_of ("not ok shop.Cart.adds" ∷ "  \\u0085.jtap:7: no"
        ∷ "  7 | fail \"no\";" ∷ "" ∷ []) }
    ensures command_start { failure_text plain (in_file command_start) (codes "shop.Cart.adds")
        (codes "no") 0
        ≡ text_of ("not ok shop.Cart.adds" ∷ "  \\u009B.jtap:7: no"
        ∷ "  7 | fail \"no\";" ∷ "" ∷ []) }
    ensures turned { failure_text plain (in_file turned_text) (codes "shop.Cart.adds")
        (codes "no") 0
        ≡ text_of ("not ok shop.Cart.adds" ∷ "  \\u202E.jtap:7: no"
        ∷ "  7 | fail \"no\";" ∷ "" ∷ []) }
    ensures long_dash { again_line plain (in_file long_dash) (codes "shop.Cart.adds")
        ≡ codes "  again: jtap run --only shop.Cart.adds '" ++ long_dash ++ codes ".jtap'\n" }
    ensures wide_space { again_line plain (in_file wide_space) (codes "shop.Cart.adds")
        ≡ codes "  again: jtap run --only shop.Cart.adds '" ++ wide_space ++ codes ".jtap'\n" }
    ensures umlaut { again_line plain (in_file umlaut) (codes "shop.Cart.adds")
        ≡ codes "  again: jtap run --only shop.Cart.adds '" ++ umlaut ++ codes ".jtap'\n" }
{}

/// No command is told for standard input, nor where the name of a file has a character that no
/// reader sees.
pub fn command_is_told_where_it_can_be_pasted()
    ensures stdin { failure_text plain (in_stdin 7 "fail \"no\";") (codes "shop.Cart.adds")
        (codes "no") 0
        ≡ text_of ("not ok shop.Cart.adds" ∷ "  stdin:7: no" ∷ "  7 | fail \"no\";" ∷ "" ∷ []) }
    ensures script { failure_text plain (in_two_lines 7 "fail \"no\";") (codes "shop.Cart.adds")
        (codes "no") 0
        ≡ text_of ("not ok shop.Cart.adds" ∷ "  my\\ncart.jtap:7: no"
        ∷ "  7 | fail \"no\";" ∷ "" ∷ []) }
    ensures settings { failure_text with_escape (in_cart 7 "fail \"no\";") (codes "shop.Cart.adds")
        (codes "no") 0
        ≡ text_of ("not ok shop.Cart.adds" ∷ "  cart.jtap:7: no" ∷ "  7 | fail \"no\";" ∷ "" ∷ []) }
{}

/// Of a skipped node the path, the place and why are told, and nothing else.
pub fn skipped_test_is_told()
    ensures { skipped_text (in_cart 9 "    disabled \"later\" test pays { }")
        (codes "shop.Cart.pays") (codes "later")
        ≡ text_of ("skipped shop.Cart.pays" ∷ "  cart.jtap:9: later" ∷ "" ∷ []) }
{}

/// The failures of a suite in their order, by paths and not by display texts, an empty line after
/// each, and then the counts.
pub fn summary_tells_of_failures()
    ensures { summary_text till_in_cart outcome_of plain (1 ∷ 3 ∷ 7 ∷ []) places_of_failures
        ≡ text_of
        ("not ok shop.Cart"
        ∷ "  cart.jtap:9: still open"
        ∷ "  9 |     after_all { fail \"still open\"; }"
        ∷ "  again: jtap run --only shop.Cart cart.jtap"
        ∷ ""
        ∷ "not ok shop.Cart.Till"
        ∷ "  cart.jtap:4: n is frozen"
        ∷ "  4 |         before_all { n = 1; }"
        ∷ "  blocks 2 tests"
        ∷ "  again: jtap run --only shop.Cart.Till cart.jtap"
        ∷ ""
        ∷ "not ok shop.Cart.d"
        ∷ "  cart.jtap:8: expected: <6> but was: <5>"
        ∷ "  8 |     test d \"the last\" { assert_equal 6, 2 + 3; }"
        ∷ "  again: jtap run --only shop.Cart.d cart.jtap"
        ∷ ""
        ∷ "6 tests in 4 classes: 1 ok, 2 skipped, 1 not ok, 2 blocked; 2 classes not ok"
        ∷ []) }
{}

/// Skipped tests stand among them where they are asked for.
pub fn summary_tells_of_skipped_tests_too()
    ensures { summary_text till_in_cart outcome_of plain (9 ∷ 10 ∷ []) places_of_skipped
        ≡ text_of
        ("skipped shop.Desk.e"
        ∷ "  cart.jtap:12: no #1"
        ∷ ""
        ∷ "skipped shop.Desk.f"
        ∷ "  cart.jtap:13: later"
        ∷ ""
        ∷ "6 tests in 4 classes: 1 ok, 2 skipped, 1 not ok, 2 blocked; 2 classes not ok"
        ∷ []) }
{}

/// A class that wasn't opened blocks all tests in it.
pub fn class_that_blocks_all_is_told_once()
    ensures { summary_text till_in_cart unopened_of plain (1 ∷ [])
        (in_stdin 3 "before_all { fail \"no\"; }" ∷ [])
        ≡ text_of
        ("not ok shop.Cart"
        ∷ "  stdin:3: no"
        ∷ "  3 | before_all { fail \"no\"; }"
        ∷ "  blocks 4 tests"
        ∷ ""
        ∷ "6 tests in 4 classes: 2 ok, 0 skipped, 0 not ok, 4 blocked; 1 class not ok"
        ∷ []) }
{}

/// Without a failure there is the last line alone, and of a node that passed nothing is told.
pub fn summary_without_failures_is_a_line()
    ensures empty { summary_text (tree []) outcome_of plain [] []
        ≡ codes "0 tests in 0 classes: 0 ok, 0 skipped, 0 not ok, 0 blocked\n" }
    ensures passed { summary_text till_in_cart outcome_of plain (2 ∷ []) places_of_skipped
        ≡ codes "6 tests in 4 classes: 1 ok, 2 skipped, 1 not ok, 2 blocked; 2 classes not ok\n" }
{}

/// One thing has the word for one.
pub fn one_has_its_own_word()
    ensures { counts_line (record {
      tests = 1;
      ok = 0;
      skipped = 0;
      not_ok = 1;
      blocked = 0;
      classes = 1;
      classes_not_ok = 0;
    })
        ≡ codes "1 test in 1 class: 0 ok, 0 skipped, 1 not ok, 0 blocked\n" }
{}
