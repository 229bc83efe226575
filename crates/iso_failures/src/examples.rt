//! Worked examples of the definitions, as public laws.
ghost use Rattle.std.specs.Prelude.{◌≡◌, [], ◌∷◌, Some, None, codes};
ghost use Rattle.iso_failures.specs.Blocking.{blocked_by, nearest_failure};
ghost use Rattle.iso_failures.specs.Counting.{counts};
ghost use Rattle.iso_failures.specs.Examples.{till_in_cart, outcome_of, unopened_of};
ghost use Rattle.iso_failures.specs.Failures.{failed_text, failures};
ghost use Rattle.iso_lifecycle.specs.ResultExamples.{three_classes};
ghost use Rattle.iso_lifecycle.specs.Subjects.{outcome_alone, started};
ghost use Rattle.iso_settings.specs.Worlds.{empty_start};

/// A class whose `after_all` alone failed, a nested one that wasn't opened, and a test that ended
/// by a fault failed by themselves. What was blocked, skipped or disabled didn't, and the root is
/// no node that can.
pub fn failures_are_those_that_failed_themselves()
    ensures { failures till_in_cart outcome_of ≡ 1 ∷ 3 ∷ 7 ∷ [] }
{}

/// A class that wasn't opened failed, and nothing in it.
pub fn blocked_nodes_are_no_failures()
    ensures { failures till_in_cart unopened_of ≡ 1 ∷ [] }
{}

/// Tests and classes are counted apart, and the root is neither. A fault counts as a fail does.
#[tactic(auto, unfolding(iso_plan::specs::Paths::path))]
pub fn each_test_is_counted_once()
    ensures nested { counts till_in_cart outcome_of ≡ record {
      tests = 6;
      ok = 1;
      skipped = 2;
      not_ok = 1;
      blocked = 2;
      classes = 4;
      classes_not_ok = 2;
    } }
    ensures unopened { counts till_in_cart unopened_of ≡ record {
      tests = 6;
      ok = 2;
      skipped = 0;
      not_ok = 0;
      blocked = 4;
      classes = 4;
      classes_not_ok = 1;
    } }
{}

/// The nearest class around a blocked test that failed itself blocks it, be there other classes
/// between them or around both.
#[tactic(auto, unfolding(iso_plan::specs::Paths::path))]
pub fn nearest_failure_blocks()
    ensures inner { blocked_by till_in_cart outcome_of 3 ≡ 2 }
    ensures outer { blocked_by till_in_cart outcome_of 1 ≡ 0 }
    ensures blocked { blocked_by till_in_cart outcome_of 5 ≡ 0 }
    ensures test { blocked_by till_in_cart outcome_of 7 ≡ 0 }
    ensures root { blocked_by till_in_cart outcome_of 0 ≡ 0 }
    ensures deeper { nearest_failure till_in_cart outcome_of 6 ≡ Some 3 }
    ensures itself { nearest_failure till_in_cart outcome_of 7 ≡ Some 1 }
    ensures none { nearest_failure till_in_cart outcome_of 9 ≡ None }
    ensures all { blocked_by till_in_cart unopened_of 1 ≡ 4 }
    ensures nested { blocked_by till_in_cart unopened_of 3 ≡ 0 }
{}

/// A line has the path of a node and not its title.
#[tactic(auto, unfolding(iso_plan::specs::Paths::path))]
pub fn paths_of_failures_are_lines()
    ensures some { failed_text till_in_cart outcome_of
        ≡ codes "shop.Cart\nshop.Cart.Till\nshop.Cart.d\n" }
    ensures one { failed_text till_in_cart unopened_of ≡ codes "shop.Cart\n" }
{}

/// Of a suite that was run: its first class wasn't opened, which blocks its test and that of the
/// class in it, and the second was skipped.
#[tactic(auto, unfolding(iso_plan::specs::Paths::path))]
pub fn failures_of_a_run()
    ensures failures { failures three_classes (outcome_alone three_classes (started empty_start))
        ≡ 1 ∷ [] }
    ensures blocked { blocked_by three_classes (outcome_alone three_classes (started empty_start)) 1
        ≡ 2 }
    ensures counts { counts three_classes (outcome_alone three_classes (started empty_start))
        ≡ record {
          tests = 4;
          ok = 1;
          skipped = 1;
          not_ok = 0;
          blocked = 2;
          classes = 4;
          classes_not_ok = 1;
        } }
{}
