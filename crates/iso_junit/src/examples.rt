//! Worked examples of the definitions, as public laws.
ghost use Rattle.std.specs.Prelude.{◌≡◌, ◌++◌, ◌∷◌, [], None, Some, codes};
ghost use Rattle.iso_junit.specs.Cases.{suites};
ghost use Rattle.iso_junit.specs.Documents.{case_text, junit_text, suite_text};
ghost use Rattle.iso_junit.specs.Escapes.{escaped};
ghost use Rattle.iso_junit.specs.Examples.{all_passed, cart_run, holders, holders_failed, holders_printed, no_nodes, text_of, unmeasured};
ghost use Rattle.iso_junit.specs.Files.{file_name};
ghost use Rattle.iso_junit.specs.Readers.{unescaped};
ghost use Rattle.iso_junit.specs.Times.{time_attribute, time_of};
ghost use Rattle.iso_summary.specs.Examples.{language_tag, turned_text};

/// Bytes that mean something to a reader of XML stand by their names, control characters by their
/// numbers, all else as it is.
pub fn special_bytes_are_escaped()
    ensures named { escaped (codes "<a> & \"b\"") ≡ codes "&lt;a&gt; &amp; &quot;b&quot;" }
    ensures numbered { escaped (codes "a\n\tb" ++ 13 ∷ 0 ∷ 127 ∷ [])
        ≡ codes "a&#10;&#9;b&#13;&#0;&#127;" }
    ensures again { escaped (codes "&lt;") ≡ codes "&amp;lt;" }
    ensures as_they_are { escaped (codes "it's #1; \\ ~" ++ 195 ∷ 164 ∷ []) ≡ codes "it's #1; \\ ~"
        ++ 195 ∷ 164 ∷ [] }
{}

/// A reader refuses what isn't escaped, and references that there are none of.
pub fn readers_refuse_what_is_not_escaped()
    ensures less { unescaped (codes "a<b") ≡ None }
    ensures quote { unescaped (codes "a\"b") ≡ None }
    ensures line_feed { unescaped (codes "a\nb") ≡ None }
    ensures ampersand { unescaped (codes "a & b") ≡ None }
    ensures unknown { unescaped (codes "&nbsp;") ≡ None }
    ensures open { unescaped (codes "a&lt") ≡ None }
    ensures read { unescaped (codes "a&lt;&#10;b") ≡ Some (codes "a<\nb") }
{}

/// Characters of a file's name that no reader sees are told by their escapes, and U+FFFE and
/// U+FFFF, which XML doesn't allow.
pub fn names_of_files_have_allowed_characters()
    ensures control { file_name (codes "a\nb" ++ 27 ∷ []) ≡ codes "a\\nb\\u001B" }
    ensures turned { file_name (codes "a" ++ turned_text) ≡ codes "a\\u202E" }
    ensures language_tag { file_name language_tag ≡ codes "\\U000E0001" }
    ensures none { file_name (239 ∷ 191 ∷ 190 ∷ 239 ∷ 191 ∷ 191 ∷ []) ≡ codes "\\uFFFE\\uFFFF" }
    ensures as_they_are { file_name (codes "a<b" ++ 239 ∷ 191 ∷ 189 ∷ []) ≡ codes "a<b" ++ 239
        ∷ 191 ∷ 189 ∷ [] }
{}

/// Times are told in seconds with six decimals, and are left out where nothing was measured.
pub fn times_are_told_in_seconds()
    ensures none { time_attribute None ≡ [] }
    ensures some { time_attribute (Some 20) ≡ codes " time=\"0.000020\"" }
    ensures long { time_attribute (Some 61002030) ≡ codes " time=\"61.002030\"" }
    ensures zero { time_attribute (Some 0) ≡ codes " time=\"0.000000\"" }
    ensures sum { time_of (1 ∷ 2 ∷ []) ≡ Some 3 }
    ensures nothing { time_of [] ≡ None }
    ensures greatest { time_of (18446744073709551615 ∷ 1 ∷ []) ≡ Some 18446744073709551615 }
{}

/// A test that passed, printed nothing and has no display text is an element without content.
pub fn passed_test_is_a_line()
    ensures { case_text cart_run 1 2
        ≡ text_of ("    <testcase name=\"a\" classname=\"shop.Cart\" file=\"cart.jtap\" line=\"3\" time=\"0.000002\"/>" ∷ []) }
{}

/// A fail is a failure, with the place of what ended it; a display text and what was printed are
/// its output.
pub fn failed_test_is_a_failure()
    ensures { case_text cart_run 1 7
        ≡ text_of
        ("    <testcase name=\"d\" classname=\"shop.Cart\" file=\"cart.jtap\" line=\"10\" time=\"1.500000\">"
        ∷ "      <failure message=\"expected: &lt;6&gt; but was: &lt;5&gt;\" type=\"fail\">cart.jtap:11: expected: &lt;6&gt; but was: &lt;5&gt;</failure>"
        ∷ "      <system-out>display-name: the last"
        ∷ "say &quot;hi&quot; &amp; go"
        ∷ "</system-out>"
        ∷ "    </testcase>"
        ∷ []) }
{}

/// A skipped test has its reason.
pub fn skipped_test_has_its_reason()
    ensures { case_text cart_run 8 9
        ≡ text_of
        ("    <testcase name=\"e\" classname=\"shop.Desk\" file=\"cart.jtap\" line=\"14\" time=\"0.000004\">"
        ∷ "      <skipped message=\"no #1\"/>"
        ∷ "    </testcase>"
        ∷ []) }
{}

/// A class whose own blocks ended by a fault has an error of its own, and the tests that it blocks
/// have errors with its place.
pub fn blocked_tests_stand_beside_their_class()
    ensures { suite_text cart_run 3
        ≡ text_of
        ("  <testsuite name=\"shop.Cart.Till\" tests=\"2\" failures=\"0\" errors=\"2\" skipped=\"0\" time=\"0.000003\">"
        ∷ "    <testcase name=\"class\" classname=\"shop.Cart.Till\" file=\"cart.jtap\" line=\"4\" time=\"0.000003\">"
        ∷ "      <error message=\"n is frozen\" type=\"fault\">cart.jtap:5: n is frozen</error>"
        ∷ "    </testcase>"
        ∷ "    <testcase name=\"b\" classname=\"shop.Cart.Till\" file=\"cart.jtap\" line=\"6\">"
        ∷ "      <error message=\"n is frozen\" type=\"blocked\">cart.jtap:5: n is frozen</error>"
        ∷ "    </testcase>"
        ∷ "  </testsuite>"
        ∷ []) }
{}

/// What a class's own blocks printed is the output of its testsuite.
pub fn class_has_its_output()
    ensures { suite_text unmeasured 1
        ≡ text_of
        ("  <testsuite name=\"shop.Cart\" tests=\"3\" failures=\"2\" errors=\"0\" skipped=\"0\">"
        ∷ "    <testcase name=\"class\" classname=\"shop.Cart\" file=\"cart.jtap\" line=\"2\">"
        ∷ "      <failure message=\"still open\" type=\"fail\">cart.jtap:9: still open</failure>"
        ∷ "    </testcase>"
        ∷ "    <testcase name=\"a\" classname=\"shop.Cart\" file=\"cart.jtap\" line=\"3\"/>"
        ∷ "    <testcase name=\"d\" classname=\"shop.Cart\" file=\"cart.jtap\" line=\"10\">"
        ∷ "      <failure message=\"expected: &lt;6&gt; but was: &lt;5&gt;\" type=\"fail\">cart.jtap:11: expected: &lt;6&gt; but was: &lt;5&gt;</failure>"
        ∷ "      <system-out>display-name: the last"
        ∷ "say &quot;hi&quot; &amp; go"
        ∷ "</system-out>"
        ∷ "    </testcase>"
        ∷ "    <system-out>opened"
        ∷ "not closed"
        ∷ "</system-out>"
        ∷ "  </testsuite>"
        ∷ []) }
{}

/// The testsuites of classes in one another stand side by side, in the order in which they are
/// written, and the counts are of all.
pub fn document_has_all_testcases()
    ensures { junit_text cart_run
        ≡ text_of
        ("<?xml version=\"1.0\" encoding=\"UTF-8\"?>"
        ∷ "<testsuites name=\"jtap\" tests=\"8\" failures=\"2\" errors=\"3\" skipped=\"2\" time=\"1.500016\">"
        ∷ [])
        ++ suite_text cart_run 1
        ++ suite_text cart_run 3
        ++ text_of
        ("  <testsuite name=\"shop.Cart.Till.Drawer\" tests=\"1\" failures=\"0\" errors=\"1\" skipped=\"0\">"
        ∷ "    <testcase name=\"c\" classname=\"shop.Cart.Till.Drawer\" file=\"cart.jtap\" line=\"8\">"
        ∷ "      <error message=\"n is frozen\" type=\"blocked\">cart.jtap:5: n is frozen</error>"
        ∷ "    </testcase>"
        ∷ "  </testsuite>"
        ∷ "  <testsuite name=\"shop.Desk\" tests=\"2\" failures=\"0\" errors=\"0\" skipped=\"2\" time=\"0.000004\">"
        ∷ "    <testcase name=\"e\" classname=\"shop.Desk\" file=\"cart.jtap\" line=\"14\" time=\"0.000004\">"
        ∷ "      <skipped message=\"no #1\"/>"
        ∷ "    </testcase>"
        ∷ "    <testcase name=\"f\" classname=\"shop.Desk\" file=\"cart.jtap\" line=\"16\">"
        ∷ "      <skipped message=\"later\"/>"
        ∷ "    </testcase>"
        ∷ "  </testsuite>"
        ∷ "</testsuites>"
        ∷ []) }
{}

/// A run of no nodes has no testsuite.
pub fn empty_run_has_no_testsuite()
    ensures { junit_text no_nodes
        ≡ text_of
        ("<?xml version=\"1.0\" encoding=\"UTF-8\"?>"
        ∷ "<testsuites name=\"jtap\" tests=\"0\" failures=\"0\" errors=\"0\" skipped=\"0\">"
        ∷ "</testsuites>"
        ∷ []) }
{}

/// A class has a testsuite where it has tests, or its own blocks failed or printed.
pub fn classes_without_anything_to_tell_have_no_testsuite()
    ensures tests { suites all_passed ≡ 1 ∷ 3 ∷ 5 ∷ 8 ∷ [] }
    ensures failed { suites holders_failed ≡ 1 ∷ [] }
    ensures printed { suites holders_printed ≡ 1 ∷ [] }
    ensures neither { suites holders ≡ [] }
{}
