//! Worked examples of the definitions, as public laws.
ghost use Rattle.std.specs.Prelude.{◌≡◌, ◌∷◌, [], None, Some, codes, false, map, true};
ghost use Rattle.iso_hints.specs.Nearest.{distance, near_words};
ghost use Rattle.iso_hints.specs.Positions.{place_at_position};
ghost use Rattle.iso_hints.specs.Examples.{meant_by, near_to};
ghost use Rattle.iso_hints.specs.Keys.{is_unknown, unknown_line};

/// A character put in, left out or changed counts one, and so do two that stand the other way
/// round.
pub fn distances_count_edits()
    ensures same { distance (codes "test") (codes "test") ≡ 0 }
    ensures put_in { distance (codes "tst") (codes "test") ≡ 1 }
    ensures left_out { distance (codes "tests") (codes "test") ≡ 1 }
    ensures changed { distance (codes "Text") (codes "test") ≡ 2 }
    ensures swapped { distance (codes "tets") (codes "test") ≡ 1 }
    ensures from_nothing { distance [] (codes "test") ≡ 4 }
{}

/// The nearest come first, of equal ones the first, and those that are too far are left out.
pub fn near_words_are_the_nearest_first()
    ensures nearest_first { near_to "add" ("adds" ∷ "add" ∷ []) ≡ map codes ("add" ∷ "adds" ∷ []) }
    ensures equal_in_order { near_to "car" ("cat" ∷ "bar" ∷ "far" ∷ [])
        ≡ map codes ("cat" ∷ "bar" ∷ "far" ∷ []) }
    ensures within_a_third { near_to "cat" ("bar" ∷ "car" ∷ []) ≡ map codes ("car" ∷ []) }
    ensures too_far { near_to "shop" ("shop.Cart" ∷ "bill" ∷ "" ∷ []) ≡ [] }
{}

/// A key is unknown where it begins as JUnit's do and is none of settings.
pub fn keys_of_others_are_not_unknown()
    ensures setting { is_unknown (codes "junit.jupiter.execution.parallel.enabled") ≡ false }
    ensures last_setting { is_unknown (codes "junit.jupiter.testinstance.lifecycle.default")
        ≡ false }
    ensures mistyped { is_unknown (codes "junit.jupiter.execution.parallel.enable") ≡ true }
    ensures table { is_unknown (codes "junit.jupiter.execution.parallel") ≡ true }
    ensures of_others { is_unknown (codes "junit.platform.output.capture.stdout") ≡ false }
    ensures beginning { is_unknown (codes "junit.jupiter") ≡ false }
{}

/// A key is compared with a known one by what both have behind the last dot up to which they are
/// the same, or lacks a segment of it.
pub fn keys_that_were_meant_are_found()
    ensures last_segment { meant_by "junit.jupiter.execution.parallel.enable"
        ≡ Some (codes "junit.jupiter.execution.parallel.enabled") }
    ensures inner_segment { meant_by "junit.jupiter.execution.paralel.enabled"
        ≡ Some (codes "junit.jupiter.execution.parallel.enabled") }
    ensures segment_left_out { meant_by "junit.jupiter.execution.enabled"
        ≡ Some (codes "junit.jupiter.execution.parallel.enabled") }
    ensures another_key { meant_by "junit.jupiter.execution.timeout.default" ≡ None }
{}

/// That a key is unknown is told with what was meant, where something is near, and on one line.
pub fn unknown_keys_are_told()
    ensures meant { unknown_line
        (codes "junit.jupiter.execution.parallel.enable")
        (Some (codes "junit.jupiter.execution.parallel.enabled"))
        ≡ codes "unknown junit.jupiter.execution.parallel.enable: did you mean junit.jupiter.execution.parallel.enabled?\n" }
    ensures nothing_near { unknown_line (codes "junit.jupiter.x") None
        ≡ codes "unknown junit.jupiter.x\n" }
    ensures one_line { unknown_line (codes "junit.jupiter.\n") None
        ≡ codes "unknown junit.jupiter.?\n" }
{}

/// Lines and columns count from 1, and what is above the last line is at the end.
pub fn positions_have_places()
    ensures first { place_at_position (codes "ab\ncd\n") 1 1 ≡ 0 }
    ensures in_first { place_at_position (codes "ab\ncd\n") 1 2 ≡ 1 }
    ensures second { place_at_position (codes "ab\ncd\n") 2 1 ≡ 3 }
    ensures behind_the_last { place_at_position (codes "ab\ncd\n") 3 1 ≡ 6 }
    ensures no_such_line { place_at_position (codes "ab\ncd") 9 1 ≡ 5 }
    ensures from_nought { place_at_position (codes "ab") 0 0 ≡ 0 }
{}
