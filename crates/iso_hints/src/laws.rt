//! Laws of near words. Each function does nothing: its contract is the law, and is proved.
ghost use Rattle.std.specs.Prelude.{ℕ, List, filter};
ghost use Rattle.std.specs.List.Sorted.{IsNonDecreasingBy, IsPermutation};
ghost use Rattle.iso_hints.specs.Nearest.{distance, is_near, near_words};

/// The near words are the candidates that are near, each as often as it stands there.
pub fn near_words_are_those_that_are_near()
    ensures { (word : List ℕ) (candidates : List (List ℕ))
        → IsPermutation (filter (is_near word) candidates) (near_words word candidates) }
{}

/// None of the near words is nearer than one before it.
pub fn near_words_stand_by_distance()
    ensures { (word : List ℕ) (candidates : List (List ℕ))
        → IsNonDecreasingBy (distance word) (near_words word candidates) }
{}
