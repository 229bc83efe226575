//! Names that have to differ.
ghost use Rattle.std.specs.Prelude.{◌≡◌, ℕ, List, [], ◌∷◌, ◌++◌, IfOk, not};
ghost use Rattle.iso_model.specs.NameSets.{Knows, is_among};

use std::alloc::AllocError;
use std::collections::BTreeSet;

/// Adds a name to those seen, and answers whether it is new.
pub fn claim<'a>(seen: &mut BTreeSet<&'a str>, name: &'a str) -> Result<bool, AllocError>
    ensures { (names : List (List ℕ)) → Knows seen.old names
        → IfOk result (λ fresh. (fresh ≡ not (is_among names name.now))
        × Knows seen.new (names ++ name.now ∷ [])) }
{
    Ok(seen.insert(name)?)
}
