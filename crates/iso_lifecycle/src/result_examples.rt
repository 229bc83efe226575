//! Worked examples of what results tell, as public laws: of every plan of three classes, of which
//! the second is skipped and the first blocks its nodes.

ghost use Rattle.std.specs.Prelude.{◌≡◌, [], ◌∷◌, None, Some, false, true};
ghost use Rattle.iso_lifecycle.specs.ResultExamples.{all_opened, three_classes, two_ended};
ghost use Rattle.iso_lifecycle.specs.ResultViews.{AreOpen, is_due, result_in};
ghost use Rattle.iso_lifecycle.specs.declared.kind.BodyKind.TheVariants.{AfterAll, BeforeAll, Test};
ghost use Rattle.iso_model.specs.Examples.Words.{blocked, failed, in_class, passed, skipped};
ghost use Rattle.iso_model.specs.declared.place.Lifecycle.TheVariants as L;
ghost use Rattle.iso_plan.specs.Planned.{Planned};
ghost use Rattle.iso_plan.specs.RowView.{tree_of};

/// The descendants of a class, at any depth, are Blocked by the fail of its `before_all`, and
/// Skipped by its false assumption.
pub fn ill_openings_bar_what_stands_in_their_class()
    ensures test { (plan : Planned) → tree_of plan ≡ three_classes → result_in (all_opened plan) 2
        ≡ Some (blocked "no db" (in_class 1 L.BeforeAll) []) }
    ensures class { (plan : Planned) → tree_of plan ≡ three_classes → result_in (all_opened plan) 3
        ≡ Some (blocked "no db" (in_class 1 L.BeforeAll) []) }
    ensures deeper { (plan : Planned) → tree_of plan ≡ three_classes → result_in (all_opened plan) 4
        ≡ Some (blocked "no db" (in_class 1 L.BeforeAll) []) }
    ensures skipped { (plan : Planned) → tree_of plan ≡ three_classes
        → result_in (all_opened plan) 6 ≡ Some (skipped "no #1" (in_class 1 L.BeforeAll) []) }
{}

/// The class itself has its result once its `after_all` was put, with the lines of both blocks, and
/// a test once its end was put.
pub fn results_are_there_once_put()
    ensures barring { (plan : Planned) → tree_of plan ≡ three_classes
        → result_in (all_opened plan) 1 ≡ None }
    ensures open { (plan : Planned) → tree_of plan ≡ three_classes
        → result_in (all_opened plan) 7 ≡ None }
    ensures waiting { (plan : Planned) → tree_of plan ≡ three_classes
        → result_in (all_opened plan) 8 ≡ None }
    ensures class { (plan : Planned) → tree_of plan ≡ three_classes
        → result_in (two_ended plan) 1 ≡ Some
        (failed "no db" (in_class 1 L.BeforeAll) ("open" ∷ "close" ∷ [])) }
    ensures test { (plan : Planned) → tree_of plan ≡ three_classes → result_in (two_ended plan) 8
        ≡ Some (passed []) }
{}

/// Each end is put once, and an `after_all` after its `before_all`.
pub fn ends_are_put_once_and_in_order()
    ensures again { (plan : Planned) → is_due BeforeAll 1 (all_opened plan) ≡ false }
    ensures closing { (plan : Planned) → is_due AfterAll 1 (all_opened plan) ≡ true }
    ensures closed { (plan : Planned) → is_due AfterAll 1 (two_ended plan) ≡ false }
    ensures early { (plan : Planned) → is_due AfterAll 3 (all_opened plan) ≡ false }
    ensures test { (plan : Planned) → is_due Test 8 (all_opened plan) ≡ true }
    ensures tested { (plan : Planned) → is_due Test 8 (two_ended plan) ≡ false }
{}

/// Nothing is put in a class that wasn't opened, or not well.
pub fn ends_are_put_in_open_classes()
    ensures open { (plan : Planned) → tree_of plan ≡ three_classes
        → AreOpen (all_opened plan) (7 ∷ []) }
    ensures ill { (plan : Planned) → tree_of plan ≡ three_classes
        → AreOpen (all_opened plan) (5 ∷ []) → ⊥ }
    ensures unopened { (plan : Planned) → AreOpen (all_opened plan) (3 ∷ 1 ∷ []) → ⊥ }
{}
