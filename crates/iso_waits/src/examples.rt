//! Worked examples of the definitions: each function does nothing, and its contract is what is
//! computed.
ghost use Rattle.std.specs.Prelude.{◌≡◌, ◌∷◌, [], None, Some};
ghost use Rattle.iso_plan.specs.Examples.{concurrent_by_default, one_thread, writing_children};
ghost use Rattle.iso_waits.specs.AllWaits.{added_up, all_waits, key_waits};
ghost use Rattle.iso_waits.specs.ContendedKeys.{contended_key};
ghost use Rattle.iso_waits.specs.Examples.{a_without_time, b_before_a, for_b_and_then_for_b, three_waits, wait, wait_for_b};
ghost use Rattle.iso_waits.specs.Waits.{earlier, ready, waits};

/// A node is ready once its class is open, and on one thread once the sibling before it has
/// finished. Times count from the first begin.
pub fn when_nodes_are_ready()
    ensures top { ready writing_children concurrent_by_default b_before_a 1 ≡ Some 0 }
    ensures open { ready writing_children concurrent_by_default b_before_a 2 ≡ Some 2 }
    ensures beside { ready writing_children concurrent_by_default b_before_a 3 ≡ Some 2 }
    ensures after { ready writing_children one_thread b_before_a 3 ≡ Some 9 }
    ensures sibling { earlier writing_children one_thread b_before_a 3 ≡ Some 2 }
    ensures unmeasured { earlier writing_children one_thread a_without_time 3 ≡ None }
{}

/// The test a waits for b, which has the key, from when their class is open; not before b begins,
/// and not once b has ended. Nobody waits for an enclosing class, and b for nobody.
pub fn one_test_waits_for_another()
    ensures waits { waits writing_children concurrent_by_default b_before_a 2 ≡ wait 3 3 6 ∷ [] }
    ensures first { waits writing_children concurrent_by_default b_before_a 3 ≡ [] }
    ensures class { waits writing_children concurrent_by_default b_before_a 1 ≡ [] }
    ensures unmeasured { waits writing_children concurrent_by_default a_without_time 2 ≡ [] }
    ensures key { contended_key writing_children 2 3 ≡ Some 1 }
    ensures apart { contended_key writing_children 1 2 ≡ None }
{}

/// Single waits for a key are told as one: from the first one's begin until the last one's end, how
/// long they took together, how many there were, and the longest, of equal ones the first. A node
/// that waited for no key has none.
pub fn single_waits_are_told_as_one()
    ensures one { key_waits writing_children 2 (wait 3 3 6 ∷ []) ≡ wait_for_b ∷ [] }
    ensures two { key_waits writing_children 2 (wait 3 3 6 ∷ wait 3 8 9 ∷ [])
        ≡ for_b_and_then_for_b ∷ [] }
    ensures three { added_up 2 1 None (wait 3 3 6 ∷ wait 5 7 12 ∷ wait 4 12 17 ∷ [])
        ≡ Some three_waits }
    ensures none { key_waits writing_children 2 [] ≡ [] }
    ensures all { all_waits writing_children concurrent_by_default b_before_a ≡ wait_for_b ∷ [] }
{}
