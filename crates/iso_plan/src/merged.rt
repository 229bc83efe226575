//! The marks of a node as they count.
ghost use Rattle.std.specs.Prelude.{◌≡◌, ◌<◌, ◌≤◌, ◌++◌, ◌∷◌, [], ◌&&◌, IfOk, IfSome, None, OnOk, bytes_eq, length, slice_index_or, slice_set};
ghost use Rattle.iso_model.specs.Targets.{is_target};
ghost use Rattle.iso_plan.specs.Merged.{as_one, is_same_key, merged, most_marks, with_mark};

use iso_model::heads::Mark;
use iso_model::limits::KEYS;
use std::alloc::{AllocError, Global};

/// How many marks are kept of a node: one more than a plan's node can have, which are two targets
/// of each key, the global one with them.
const MOST_MARKS: usize = 2 * (KEYS as usize + 1) + 1;

/// The marks that are written on a node, each key once for each target, in the strongest access. Of
/// more than a plan may have, enough are kept that the node has too many keys: so neither time nor
/// memory grows as the marks times the nodes that they count for.
pub(crate) fn merged(alloc: Global, written: &[Mark]) -> Result<Vec<Mark>, AllocError>
    ensures { IfOk result (λ v. v.items ≡ merged written.now) }
{
    let mut marks = Vec::new(alloc);
    'marks: for mark in written {
        add_mark(&mut marks, mark)?;
    }
    Ok(marks)
}

/// Adds a mark. Where its key is there for its target, the stronger access counts; where
/// `MOST_MARKS` are there, it is left out.
fn add_mark(marks: &mut Vec<Mark>, mark: &Mark) -> Result<(), AllocError>
    ensures { OnOk result (marks.new.items ≡ with_mark most_marks marks.old.items mark.now) }
{
    match place_of(marks, mark) {
        Some(place) => {
            let access = marks[place].access.stronger(mark.access);
            marks[place].access = access;
        }
        None => {
            if marks.len() < MOST_MARKS {
                marks.push(mark.share()?)?;
            }
        }
    }
    Ok(())
}

/// Where a mark of this one's key and target stands, if one does among the first `MOST_MARKS`.
fn place_of(marks: &[Mark], mark: &Mark) -> Option<usize>
    ensures within { IfSome result (λ i. i < length marks.now) }
    ensures place { IfSome result (λ i. with_mark most_marks marks.now mark.now
        ≡ slice_set marks.now i (as_one (slice_index_or marks.now i mark.now) mark.now)) }
    ensures last { result ≡ None → length marks.now < most_marks
        → with_mark most_marks marks.now mark.now ≡ marks.now ++ mark.now ∷ [] }
    ensures full { result ≡ None → most_marks ≤ length marks.now
        → with_mark most_marks marks.now mark.now ≡ marks.now }
{
    'marks: for place in 0..marks.len() {
        if place == MOST_MARKS {
            return None;
        }
        if is_same_key(&marks[place], mark) {
            return Some(place);
        }
    }
    None
}

/// Whether two marks are of one key and for one target.
fn is_same_key(a: &Mark, b: &Mark) -> bool
    ensures { result ≡ is_same_key a.now b.now }
{
    a.key.as_str() == b.key.as_str() && b.target.is(a.target)
}
