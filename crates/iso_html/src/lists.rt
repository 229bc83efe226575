//! Lists of bars by number: of workers, or of keys.
ghost use Rattle.std.specs.Prelude.{◌≡◌, ◌==◌, ◌∷◌, [], IfOk, OnOk, cond, map, slice_index_or};
ghost use Rattle.iso_html.specs.Lists.{AreLonger};
ghost use Rattle.iso_plan.specs.Paths.{column};

use crate::shape::Mark;
use std::alloc::{AllocError, Global};

/// `count` empty lists.
pub(crate) fn empty(alloc: Global, count: u32) -> Result<Vec<Vec<Mark>>, AllocError>
    ensures { IfOk result (λ v. map (λ l. l.items) v.items ≡ column (λ n. []) count) }
{
    let mut lists = Vec::with_capacity(alloc, count as usize)?;
    'lists: for _number in 0..count {
        lists.push(Vec::new(alloc))?;
    }
    Ok(lists)
}

/// Adds a bar to the list with a number, where there is one.
pub(crate) fn put(lists: &mut Vec<Vec<Mark>>, number: u32, mark: Mark) -> Result<(), AllocError>
    ensures { OnOk result (AreLonger (map (λ l. l.items) lists.old.items)
        (map (λ l. l.items) lists.new.items)
        (λ k. cond (number == k) (mark ∷ []) [])) }
{
    let place = number as usize;
    if place < lists.len() {
        let list = &mut lists[place];
        list.push(mark)?;
    }
    Ok(())
}

/// The list with a number.
pub(crate) fn list_at(lists: &[Vec<Mark>], number: u32) -> &[Mark]
    ensures { result.now ≡ slice_index_or (map (λ l. l.items) lists.now) number [] }
{
    match lists.get(number as usize) {
        Some(list) => list,
        None => &[],
    }
}
