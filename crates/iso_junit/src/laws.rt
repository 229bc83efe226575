//! Laws of what is written. Each function does nothing: its contract is the law, and is proved.
ghost use Rattle.std.specs.Prelude.{◌≡◌, ◌+◌, ℕ, Bool, List, Some, false, true};
ghost use Rattle.std.specs.List.{list_all, sum_by};
ghost use Rattle.std.specs.Str.{IsUtf8, chars};
ghost use Rattle.iso_failures.specs.Counting.{counts};
ghost use Rattle.iso_junit.specs.Cases.{all_cases, cases, is_a_test, suites};
ghost use Rattle.iso_junit.specs.Escapes.{escaped};
ghost use Rattle.iso_junit.specs.Files.{file_name, is_allowed};
ghost use Rattle.iso_junit.specs.Readers.{unescaped};
ghost use Rattle.iso_junit.specs.Runs.{RunView};
ghost use Rattle.iso_junit.specs.Tallies.{how_many, tally};
ghost use Rattle.iso_model.specs.declared.outcome.Verdict.{Verdict};
ghost use Rattle.iso_plan.specs.Paths.{IsTree, is_root, parent};

/// A reader of XML reads each text back as it was, whatever bytes it has, in an attribute and in an
/// element. So no byte that means something to it stands as it is.
pub fn readers_read_texts_back()
    ensures { (text : List ℕ) → unescaped (escaped text) ≡ Some text }
{}

/// What is told of a file's name has only characters that XML allows.
pub fn names_of_files_are_allowed()
    ensures { (name : List ℕ) → IsUtf8 name → list_all is_allowed (chars (file_name name)) ≡ true }
{}

/// The document counts what a run's summary counts: each test once, and each class whose own blocks
/// failed as one more; skipped tests; and as failures and errors together the tests that failed or
/// were blocked, and these classes.
pub fn document_counts_what_a_summary_counts()
    ensures tests { (r : RunView) → IsTree r.tree
        → let all = tally r (all_cases r) in let summary =
        counts r.tree r.outcome in all.tests ≡ summary.tests + summary.classes_not_ok }
    ensures skipped { (r : RunView) → IsTree r.tree
        → let all = tally r (all_cases r) in let summary =
        counts r.tree r.outcome in all.skipped ≡ summary.skipped }
    ensures problems { (r : RunView) → IsTree r.tree
        → let all = tally r (all_cases r) in let summary = counts r.tree r.outcome in
        all.failures + all.errors ≡ summary.not_ok + summary.blocked + summary.classes_not_ok }
{}

/// Each testcase stands in the testsuite of one class, where each test is a member of a class:
/// whatever one counts of the testsuites' testcases, there are as many of all.
pub fn testsuites_sum_up_to_the_document()
    ensures { (r : RunView) → IsTree r.tree
        → ((n : ℕ) → is_a_test r n ≡ true → is_root (parent r.tree n) ≡ false)
        → (such : Verdict → Bool) → how_many r such (all_cases r)
        ≡ sum_by (λ class. how_many r such (cases r class)) (suites r) }
{}
