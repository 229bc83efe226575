//! Laws of what is listed. Each function does nothing: its contract is the law, and is proved.
ghost use Rattle.std.specs.Prelude.{◌≡◌, ◌<◌, ℕ, List, Option, false, length, min, true};
ghost use Rattle.std.specs.List.{All, AllPairs};
ghost use Rattle.iso_durations.specs.Listed.{listed};
ghost use Rattle.iso_durations.specs.Orders.{is_before, is_in};
ghost use Rattle.iso_durations.specs.Times.{is_measured, measured, micros};
ghost use Rattle.iso_plan.specs.Tree.{Row};

/// Each node that is listed took longer than those after it, or as long and is written before them.
/// So none is listed twice.
pub fn slower_nodes_stand_first()
    ensures { (tree : List Row) (times : List (Option ℕ)) (most : ℕ)
        → AllPairs (λ m n. is_before (micros times) m n ≡ true) (listed tree times most) }
{}

/// There is no other list of all nodes that were measured, and of no others, in which each stands
/// like this before those after it.
pub fn order_is_the_only_one()
    ensures { (tree : List Row) (times : List (Option ℕ)) (nodes : List ℕ)
        → AllPairs (λ m n. is_before (micros times) m n ≡ true) nodes
        → ((n : ℕ) → is_in nodes n ≡ is_in (measured tree times) n) → nodes ≡ listed tree times 0 }
{}

/// Each node that is listed is a test or a class of the plan that was measured.
pub fn listed_nodes_were_measured()
    ensures measured { (tree : List Row) (times : List (Option ℕ)) (most : ℕ)
        → All (λ n. is_measured times n ≡ true) (listed tree times most) }
    ensures within { (tree : List Row) (times : List (Option ℕ)) (most : ℕ)
        → All (λ n. n < length tree) (listed tree times most) }
{}

/// As many are listed as are asked for, where that many were measured; where 0 is asked for, all.
pub fn as_many_are_listed_as_are_asked_for()
    ensures some { (tree : List Row) (times : List (Option ℕ)) (most : ℕ) → 0 < most
        → length (listed tree times most) ≡ min most (length (measured tree times)) }
    ensures all { (tree : List Row) (times : List (Option ℕ)) → length (listed tree times 0)
        ≡ length (measured tree times) }
{}

/// A node that was measured and is left out is no slower than one that is listed: it took less
/// long, or as long and is written after it.
pub fn nodes_left_out_are_no_slower()
    ensures { (tree : List Row) (times : List (Option ℕ)) (most m n : ℕ)
        → is_in (listed tree times most) m ≡ true
        → is_in (measured tree times) n ≡ true → is_in (listed tree times most) n ≡ false
        → is_before (micros times) m n ≡ true }
{}
