//! The next class of a chain whose block has a statement. Most classes write neither `before_each`
//! nor `after_each`, so these are left behind at once.
ghost use Rattle.std.specs.Prelude.{◌≡◌, ◌<◌, ◌≤◌, ℕ, length, true};
ghost use Rattle.iso_interp.specs.Blocks.{is_empty};
ghost use Rattle.iso_lifecycle.specs.Heads.{heads_in};
ghost use Rattle.iso_lifecycle.specs.JobPlaces.{head_at};

use crate::blocks::head;
use iso_interp::block::Block;
use iso_model::heads::ClassHead;
use std::sync::Arc;

/// The depth of the first class, from the one at a depth inwards, whose `before_each` has a
/// statement; the number of classes where there is none.
pub(crate) fn next_before_each(classes: &[Arc<ClassHead>], depth: usize) -> usize
    requires { depth ≤ length classes.now }
    ensures inwards { depth ≤ result }
    ensures within { result ≤ length classes.now }
    ensures empty { (d : ℕ) → depth ≤ d → d < result
        → is_empty (head_at (heads_in classes.now) d).before_each ≡ true }
{
    let mut next = depth;
    'classes: while next < classes.len() {
        if !Block::of(&head(classes, next).contents.before_each).is_empty() {
            return next;
        }
        next += 1;
    }
    next
}

/// How many classes there are up to the first, from the innermost of the `depth` outermost ones
/// outwards, whose `after_each` has a statement; 0 where there is none.
pub(crate) fn next_after_each(classes: &[Arc<ClassHead>], depth: usize) -> usize
    requires { depth ≤ length classes.now }
    ensures outwards { result ≤ depth }
    ensures empty { (d : ℕ) → result ≤ d → d < depth
        → is_empty (head_at (heads_in classes.now) d).after_each ≡ true }
{
    let mut next = depth;
    'classes: while next > 0 {
        if !Block::of(&head(classes, next - 1).contents.after_each).is_empty() {
            return next;
        }
        next -= 1;
    }
    next
}
