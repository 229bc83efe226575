//! Worked examples of bodies that are done step by step, as public laws.
ghost use Rattle.std.specs.Prelude.{◌≡◌, ◌-◌, [], ◌∷◌, codes, true, false};
ghost use Rattle.iso_model.specs.Bodies.{body_at, is_ended};
ghost use Rattle.iso_model.specs.Chains.{empty_head};
ghost use Rattle.iso_model.specs.Examples.Bodies.{after_all_after, before_all_after, so_far, test_after, to_begin};
ghost use Rattle.iso_model.specs.Examples.Lifecycles.{disabled_class, disabled_test, does_nothing, fails_before_each, inner, no_database, outer, prints_t};
ghost use Rattle.iso_model.specs.Examples.Names.{counts_up, has_static, prints_n, sets_static};
ghost use Rattle.iso_model.specs.Examples.Words.{in_class, in_test, lines, note};
ghost use Rattle.iso_model.specs.Disabled.{disabled_ending};
ghost use Rattle.iso_model.specs.declared.outcome.Ending.TheVariants.{Fail, Well};
ghost use Rattle.iso_model.specs.declared.place.BlockName.TheVariants.{Class, Test};
ghost use Rattle.iso_model.specs.declared.place.Lifecycle.TheVariants.{AfterAll, AfterEach, BeforeAll, BeforeEach};

/// A test goes from block to block: here each of five blocks has one statement.
pub fn blocks_follow_one_another()
    ensures begun { to_begin (test_after 0 prints_t (inner ∷ outer ∷ [])).stage
        ≡ Class 2 BeforeEach ∷ Test ∷ Class 2 AfterEach ∷ Class 1 AfterEach ∷ [] }
    ensures third { let g = test_after 3 prints_t (inner ∷ outer ∷ []) in
        ((so_far g.stage).lines ≡ lines ("ob" ∷ "ib" ∷ "t" ∷ []))
        × (to_begin g.stage ≡ Class 1 AfterEach ∷ []) }
    ensures bytes { (so_far (test_after 2 prints_t (inner ∷ outer ∷ [])).stage).printed ≡ 6 }
    ensures before_the_last { is_ended (test_after 4 prints_t (inner ∷ outer ∷ [])).stage ≡ false }
    ensures after_the_last { is_ended (test_after 5 prints_t (inner ∷ outer ∷ [])).stage ≡ true }
    ensures lines { (so_far (test_after 5 prints_t (inner ∷ outer ∷ [])).stage).lines
        ≡ lines ("ob" ∷ "ib" ∷ "t" ∷ "ia" ∷ "oa" ∷ []) }
    ensures stays { test_after 6 prints_t (inner ∷ outer ∷ [])
        ≡ test_after 5 prints_t (inner ∷ outer ∷ []) }
{}

/// Absent and empty blocks take no step: a body without a statement has ended where it begins.
pub fn empty_blocks_take_no_step()
    ensures test { is_ended (test_after 0 does_nothing (empty_head ∷ empty_head ∷ [])).stage
        ≡ true }
    ensures endings { (so_far (test_after 0 does_nothing (empty_head ∷ [])).stage).endings
        ≡ Well ∷ Well ∷ Well ∷ [] }
    ensures before_all { is_ended (before_all_after 0 empty_head).stage ≡ true }
    ensures after_all { is_ended (after_all_after 0 empty_head).stage ≡ true }
    ensures between { let g = test_after 1 prints_t (inner ∷ empty_head ∷ []) in to_begin g.stage
        ≡ Class 2 AfterEach ∷ Class 1 AfterEach ∷ [] }
{}

/// What isn't due is left out once its turn comes: after a `before_each` that failed the other
/// `before_each` and the test are, and each `after_each` is done.
pub fn blocks_that_are_not_due_are_left_out()
    ensures failed { let g = test_after 1 prints_t (inner ∷ fails_before_each ∷ []) in
        ((so_far g.stage).lines ≡ []) × (to_begin g.stage ≡ Class 1 AfterEach ∷ []) }
    ensures ended { let g = test_after 2 prints_t (inner ∷ fails_before_each ∷ []) in
        (is_ended g.stage ≡ true) × ((so_far g.stage).lines ≡ lines ("ia" ∷ []))
        × ((so_far g.stage).endings ≡ Fail (note "no" (in_class 1 BeforeEach)) ∷ Well ∷ Well ∷ []) }
{}

/// A failed `before_all` ends at its statement; `after_all` is a body of its own, which begins to
/// print anew.
pub fn lifecycle_of_a_class_is_two_bodies()
    ensures before_all { let g = before_all_after 2 no_database in
        (is_ended g.stage ≡ true) × ((so_far g.stage).lines ≡ lines ("open" ∷ []))
        × ((so_far g.stage).endings ≡ Fail (note "no db" (in_class 1 BeforeAll)) ∷ []) }
    ensures after_all { let g = after_all_after 1 no_database in
        (is_ended g.stage ≡ false) × ((so_far g.stage).lines ≡ lines ("close" ∷ []))
        × ((so_far g.stage).printed ≡ 6) }
{}

/// A body of a disabled node has ended where it begins; a disabled class's `after_all` has nothing
/// to do.
pub fn disabled_bodies_end_where_they_begin()
    ensures test { let g = test_after 0 disabled_test (inner ∷ outer ∷ []) in
        (is_ended g.stage ≡ true) × ((so_far g.stage).endings ≡ disabled_ending (codes "later")
        ∷ []) × ((so_far g.stage).lines ≡ []) }
    ensures before_all { let g = before_all_after 0 disabled_class in
        (is_ended g.stage ≡ true) × ((so_far g.stage).endings ≡ disabled_ending (codes "soon") ∷ [])
        × ((so_far g.stage).lines ≡ []) }
    ensures after_all { let g = after_all_after 0 disabled_class in
        (is_ended g.stage ≡ true) × ((so_far g.stage).endings ≡ Well ∷ [])
        × ((so_far g.stage).lines ≡ []) }
{}
