//! Which top-level classes go to a shard.
ghost use Rattle.std.specs.Prelude.{◌≡◌, ◌<◌, ◌≤◌, ◌&&◌, ℕ, List, Bool, IfOk, Some, length, slice_index_or};
ghost use Rattle.iso_plan.specs.Paths.{column};
ghost use Rattle.iso_plan.specs.KeptNodes.{number_among};
ghost use Rattle.iso_plan.specs.TopClasses.{all_top_classes};
ghost use Rattle.iso_plan.specs.Tree.{Row};
ghost use Rattle.iso_selection.specs.Shards.{holds, is_in};

use crate::shard::Shard;
use std::alloc::{AllocError, Global};

/// Of named nodes those whose top-level class goes to a shard.
pub(crate) fn in_shard(
    alloc: Global,
    classes: &[u32],
    named: Vec<bool>,
    shard: Option<Shard>,
) -> Result<Vec<bool>, AllocError>
    requires each { length named.items ≡ length classes.now }
    requires above { (n : ℕ) → n < length classes.now → slice_index_or classes.now n 0 ≤ n }
    ensures { (tree : List Row) (passes : ℕ → Bool) → classes.now ≡ all_top_classes tree
        → named.items ≡ column passes (length tree)
        → IfOk result (λ v. v.items ≡ column (λ n. passes n && is_in tree passes shard n)
        (length tree)) }
{
    match shard {
        Some(shard) => those_of(alloc, classes, &named, shard),
        None => Ok(named),
    }
}

/// The same of a shard.
fn those_of(
    alloc: Global,
    classes: &[u32],
    named: &[bool],
    shard: Shard,
) -> Result<Vec<bool>, AllocError>
    requires each { length named.now ≡ length classes.now }
    requires above { (n : ℕ) → n < length classes.now → slice_index_or classes.now n 0 ≤ n }
    ensures { (tree : List Row) (passes : ℕ → Bool) → classes.now ≡ all_top_classes tree
        → named.now ≡ column passes (length tree)
        → IfOk result (λ v. v.items ≡ column (λ n. passes n && is_in tree passes (Some shard) n)
        (length tree)) }
{
    let held = held(alloc, classes, named)?;
    let places = places(alloc, &held)?;
    let mut kept = Vec::with_capacity(alloc, classes.len())?;
    'nodes: for n in 0..classes.len() {
        let turn = places[classes[n] as usize] % shard.count() as usize + 1;
        let is_turn = turn == shard.index() as usize;
        kept.push(named[n] && is_turn)?;
    }
    Ok(kept)
}

/// Whether each node is a top-level class that holds a named node.
fn held(alloc: Global, classes: &[u32], named: &[bool]) -> Result<Vec<bool>, AllocError>
    requires each { length named.now ≡ length classes.now }
    requires above { (n : ℕ) → n < length classes.now → slice_index_or classes.now n 0 ≤ n }
    ensures held { (tree : List Row) (passes : ℕ → Bool) → classes.now ≡ all_top_classes tree
        → named.now ≡ column passes (length tree)
        → IfOk result (λ v. v.items ≡ column (holds tree passes) (length tree)) }
    ensures each { IfOk result (λ v. length v.items ≡ length classes.now) }
{
    let mut held = vec![in alloc; false; classes.len()]?;
    'nodes: for n in 0..classes.len() {
        if named[n] {
            held[classes[n] as usize] = true;
        }
    }
    Ok(held)
}

/// How many before each pass.
fn places(alloc: Global, passes: &[bool]) -> Result<Vec<usize>, AllocError>
    ensures places { (test : ℕ → Bool) → passes.now ≡ column test (length passes.now)
        → IfOk result (λ v. v.items ≡ column (number_among test) (length passes.now)) }
    ensures each { IfOk result (λ v. length v.items ≡ length passes.now) }
{
    let mut places = Vec::with_capacity(alloc, passes.len())?;
    let mut place = 0;
    'nodes: for n in 0..passes.len() {
        places.push(place)?;
        if passes[n] {
            place += 1;
        }
    }
    Ok(places)
}
