//! Worked examples of the definitions, as public laws.
ghost use Rattle.std.specs.Prelude.{◌≡◌, [], codes, false, true};
ghost use Rattle.iso_plan.specs.Examples.{cart_and_desk, concurrent_by_default};
ghost use Rattle.iso_plan.specs.Tree.{tree};
ghost use Rattle.iso_tap.specs.PlanText.{plan_text, tests_text};
ghost use Rattle.iso_tap.specs.ReportBlocks.{block_lines};
ghost use Rattle.iso_tap.specs.ReportExamples.{blocked, blocked_block, each_of, each_reported, frozen, frozen_block, outcome_of, reported_text, skipped};
ghost use Rattle.iso_tap.specs.ReportLines.{point_line};
ghost use Rattle.iso_tap.specs.Reports.{all_ok, is_ok, report};

/// Cart marks a key that its test b writes, and Desk holds the isolated class Till.
pub fn plan_has_a_line_for_each_node()
    ensures { plan_text cart_and_desk concurrent_by_default 2
        ≡ codes "workers 2\n1 class concurrent [r:iso:global,w:K] shop.Cart\n2 test same_thread [] shop.Cart.a\n3 test same_thread [] shop.Cart.b\n4 class concurrent [w:iso:global] shop.Desk\n5 test same_thread [] shop.Desk.c\n6 class same_thread [] shop.Desk.Till\n7 test same_thread [] shop.Desk.Till.d\n" }
{}

/// Of the same plan its four tests, with the numbers, modes and locks that they have there.
pub fn tests_have_the_lines_of_the_plan()
    ensures { tests_text cart_and_desk concurrent_by_default
        ≡ codes "2 test same_thread [] shop.Cart.a\n3 test same_thread [] shop.Cart.b\n5 test same_thread [] shop.Desk.c\n7 test same_thread [] shop.Desk.Till.d\n" }
{}

/// A suite without classes has a plan of no points.
pub fn empty_suite_has_no_points()
    ensures report { report (tree []) outcome_of ≡ codes "TAP version 14\n1..0\n" }
    ensures ok { all_ok (tree []) outcome_of ≡ true }
{}

/// A level counts its own nodes, a class's point comes after its level, and its block tells of the
/// class alone.
pub fn classes_come_after_their_levels()
    ensures { report cart_and_desk outcome_of ≡ reported_text }
{}

/// Each of the five verdicts in one report: a fail, a fault and what is blocked are not ok, a
/// skipped test is and says why, and only a pass without output has no block.
pub fn each_verdict_has_its_point()
    ensures { report cart_and_desk each_of ≡ each_reported }
{}

/// A fault, a blocked test and a class that failed by itself reach up as a failed test does, and
/// not down.
pub fn what_is_not_ok_reaches_up()
    ensures fault { is_ok cart_and_desk each_of 2 ≡ false }
    ensures blocked { is_ok cart_and_desk each_of 3 ≡ false }
    ensures class { is_ok cart_and_desk each_of 6 ≡ false }
    ensures below_it { is_ok cart_and_desk each_of 7 ≡ true }
    ensures two_above { is_ok cart_and_desk each_of 4 ≡ false }
    ensures beside_it { is_ok cart_and_desk each_of 5 ≡ true }
{}

/// A failed test makes its class not ok, and the suite; a skipped one doesn't.
pub fn failures_reach_up()
    ensures cart { is_ok cart_and_desk outcome_of 1 ≡ false }
    ensures desk { is_ok cart_and_desk outcome_of 4 ≡ true }
    ensures suite { all_ok cart_and_desk outcome_of ≡ false }
{}

/// A point that isn't ok has no directive, and a title is escaped.
pub fn only_ok_points_are_skipped()
    ensures ok { point_line 4 12 true (codes "A \"b\" # \\") skipped
        ≡ codes "    ok 12 - A \"b\" \\# \\\\ # SKIP no \\\\ \\#1\n" }
    ensures not_ok { point_line 0 1 false (codes "shop.C") skipped ≡ codes "not ok 1 - shop.C\n" }
{}

/// A block has the word of its verdict, the message and its place.
pub fn blocks_tell_of_verdicts()
    ensures fault { block_lines 2 frozen ≡ frozen_block }
    ensures blocked { block_lines 0 blocked ≡ blocked_block }
{}
