//! Laws of what is told. Each function does nothing: its contract is the law, and is proved.
ghost use Rattle.std.specs.Prelude.{◌<◌, ◌≤◌, ◌^◌, ℕ, List, take};
ghost use Rattle.iso_explain_plan.specs.Plans.{keys_notes, nodes_notes};
ghost use Rattle.iso_explain_plan.specs.Printable.{AreCounts, AreLines};
ghost use Rattle.iso_explain_plan.specs.Unselected.{unselected_notes};
ghost use Rattle.iso_explain_plan.specs.declared.size.Size.{Size};
ghost use Rattle.iso_model.specs.Scripts.{Script};

/// What is told of a word that names nothing is a line of printable ASCII, whatever bytes the word
/// and the paths have.
pub fn what_was_meant_is_a_printable_line()
    ensures { (word : List ℕ) (scripts : List Script) (paths : List (List ℕ))
        → AreLines 1 (unselected_notes word scripts paths) }
{}

/// What is told of too many nodes or keys is at most five lines of printable ASCII, whatever bytes
/// the paths have.
pub fn counts_are_few_printable_lines()
    ensures nodes { (count : ℕ) (sizes : List Size) → count < 2 ^ 64 → AreCounts sizes
        → (n : ℕ) × (n ≤ 5) × AreLines n (nodes_notes count (take 3 sizes)) }
    ensures keys { (count : ℕ) (sizes : List Size) → count < 2 ^ 64 → AreCounts sizes
        → (n : ℕ) × (n ≤ 5) × AreLines n (keys_notes count (take 3 sizes)) }
{}
