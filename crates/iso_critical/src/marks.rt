//! Which bodies are among some, by their places.
ghost use Rattle.std.specs.Prelude.{◌≡◌, ◌==◌, ◌<◌, ℕ, IfOk, false, slice_index_or};
ghost use Rattle.std.specs.List.{All, list_any};

use crate::body::Body;
use std::alloc::{AllocError, Global};

/// A mark for each of `places` places: whether one of some bodies has it.
pub(crate) fn marks(alloc: Global, bodies: &[Body], places: usize) -> Result<Vec<bool>, AllocError>
    requires { All (λ b. b.place < places) bodies.now }
    ensures { IfOk result (λ v. (i : ℕ) → slice_index_or v.items i false
        ≡ list_any (λ b. b.place == i) bodies.now) }
{
    let mut marks = vec![in alloc; false; places]?;
    for body in bodies {
        marks[body.place] = true;
    }
    Ok(marks)
}
