//! Worked examples of the definitions: each function does nothing, and its contract is what is
//! computed.
ghost use Rattle.std.specs.Prelude.{◌≡◌, ◌∷◌, [], None, Some};
ghost use Rattle.iso_critical.specs.Examples.{a_then_b, b_before_a, critical_places, end_together, two_workers, unclosed, wait_until};
ghost use Rattle.iso_critical.specs.Needs.{last_holder};

/// A class closes after the last body in it, which comes after the node that it waited for, and
/// that one after the opening of the class. Who wasn't waited for isn't critical.
pub fn nodes_wait_for_others()
    ensures waited { critical_places (b_before_a (None ∷ None ∷ Some 3 ∷ None ∷ []))
        ≡ 3 ∷ 4 ∷ 6 ∷ 2 ∷ [] }
    ensures alone { critical_places (b_before_a []) ≡ 3 ∷ 4 ∷ 2 ∷ [] }
{}

/// On one thread a node comes after its earlier sibling.
pub fn siblings_follow_one_another()
    ensures { critical_places a_then_b ≡ 3 ∷ 6 ∷ 4 ∷ 2 ∷ [] }
{}

/// A body comes after the one before it on its worker, and not after what another worker did that
/// it didn't need.
pub fn workers_do_one_body_after_another()
    ensures same { critical_places (two_workers 0 7) ≡ 7 ∷ 8 ∷ 6 ∷ 3 ∷ 4 ∷ 2 ∷ [] }
    ensures other { critical_places (two_workers 1 7) ≡ 7 ∷ 8 ∷ 6 ∷ [] }
{}

/// Of bodies that end together the first counts as the last.
pub fn ends_may_be_equal()
    ensures { critical_places end_together ≡ 4 ∷ [] }
{}

/// A class closes after all its descendants, at any depth.
pub fn classes_close_after_all_in_them()
    ensures { critical_places unclosed ≡ 3 ∷ 8 ∷ 6 ∷ 4 ∷ 2 ∷ [] }
{}

/// Of the waits of a node the one that ended last counts, with the node for which it was at its
/// end.
pub fn last_waits_count()
    ensures before { last_holder (wait_until 2 17 4 ∷ wait_until 2 9 3 ∷ []) 2 ≡ Some 4 }
    ensures behind { last_holder (wait_until 2 9 3 ∷ wait_until 2 17 4 ∷ []) 2 ≡ Some 4 }
    ensures others { last_holder (wait_until 2 9 3 ∷ wait_until 5 17 4 ∷ []) 2 ≡ Some 3 }
    ensures none { last_holder (wait_until 2 17 4 ∷ []) 3 ≡ None }
{}
