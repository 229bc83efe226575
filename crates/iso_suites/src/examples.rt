//! Worked examples of the runs of a plan, as public laws.
ghost use Rattle.std.specs.Prelude.{◌≡◌, ◌++◌, ◌∷◌, [], None, Some, false, true};
ghost use Rattle.iso_suites.specs.ExampleRuns.{came_to, has_written, is_run_of_cart, is_whole, opened, refused_after, side_by_side, whole};
ghost use Rattle.iso_isolation.specs.Events.{Enter, Leave, Shut, Step};
ghost use Rattle.iso_isolation.specs.Refusals as Why;
ghost use Rattle.iso_model.specs.Examples.Words.{passed};

/// A class with two readers of a file and a writer between them, all CONCURRENT, on two workers:
/// each test has the outcome that it has alone, the readers after the writer too.
#[tactic(auto, unfolding(iso_plan::specs::Paths::path))]
pub fn tests_of_a_class_run_side_by_side()
    ensures accepted { is_run_of_cart whole ≡ true }
    ensures writer { came_to side_by_side 3 ≡ Some (passed ("2" ∷ [])) }
    ensures first { came_to side_by_side 2 ≡ Some (passed ("1" ∷ [])) }
    ensures second { came_to side_by_side 4 ≡ Some (passed ("1" ∷ [])) }
    ensures unfinished { came_to side_by_side 1 ≡ None }
    ensures class { came_to whole 1 ≡ Some (passed ("open" ∷ "close" ∷ [])) }
    ensures whole { is_whole whole ≡ true }
    ensures not_whole { is_whole side_by_side ≡ false }
{}

/// What is refused: a reader beside the writer, a body that hasn't ended, and a class with tests
/// left.
#[tactic(auto, unfolding(iso_plan::specs::Paths::path))]
pub fn locks_and_bodies_are_waited_for()
    ensures reader { refused_after has_written (Enter 1 2) ≡ Some (Why.LockHeld 3) }
    ensures free { refused_after opened (Enter 1 2) ≡ None }
    ensures body { refused_after has_written (Leave 0) ≡ Some Why.BodyNotEnded }
    ensures ended { refused_after (has_written ++ Step 0 ∷ []) (Step 0) ≡ Some Why.BodyEnded }
    ensures children { refused_after opened (Shut 0 1) ≡ Some Why.ChildrenLeft }
    ensures test { refused_after has_written (Shut 1 3) ≡ Some Why.NotClass }
    ensures nodes { refused_after opened (Enter 1 5) ≡ Some Why.NoNode }
{}
