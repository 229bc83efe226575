//! The nodes that what is asked for names.
ghost use Rattle.std.specs.Prelude.{◌≡◌, ◌<◌, ◌||◌, ◌&&◌, ◌++◌, ◌∷◌, [], ℕ, List, IfErr, IfOk, OnOk, None, drop, false, length, map, not, slice_index_or};
ghost use Rattle.std.specs.List.{list_any, position_from};
ghost use Rattle.iso_model.specs.NameSets.{Knows, is_among};
ghost use Rattle.iso_plan.specs.Faults.{IsFaultOf, not_selected};
ghost use Rattle.iso_plan.specs.Paths.{IsTree, column, is_root, is_top};
ghost use Rattle.iso_plan.specs.TopClasses.{all_paths, all_top_classes};
ghost use Rattle.iso_plan.specs.Tree.{Row};
ghost use Rattle.iso_selection.specs.Wishes.{Wish, first_in_vain, grants, is_in_vain, is_named_by, pattern_grants, paths_in, wish_of, wishes_of};

use crate::pattern::mark_matches;
use crate::wanted::Wanted;
use iso_model::text::Text;
use iso_plan::fault::{PlanError, PlanFault};
use iso_plan::overview::Overview;
use std::alloc::{AllocError, Global};
use std::collections::BTreeSet;

/// Whether each node is named by what is asked for. The first thing that names no node is
/// `NotSelected`.
pub(crate) fn named(
    alloc: Global,
    nodes: &Overview,
    wanted: Option<&[Wanted<'_>]>,
) -> Result<Vec<bool>, PlanError>
    requires { 0 < length nodes.now.paths.items }
    ensures named { (tree : List Row) → IsTree tree → nodes.now.paths.items ≡ all_paths tree
        → nodes.now.classes.items ≡ all_top_classes tree
        → IfOk result (λ v. v.items ≡ column (is_named_by tree (wishes_of wanted.entry))
        (length tree)) }
    ensures known { (tree : List Row) → IsTree tree → nodes.now.paths.items ≡ all_paths tree
        → IfOk result (λ v. first_in_vain tree (wishes_of wanted.entry) ≡ None) }
    ensures unknown { (tree : List Row) → IsTree tree → nodes.now.paths.items ≡ all_paths tree
        → IfErr result (IsFaultOf (not_selected (first_in_vain tree (wishes_of wanted.entry)))) }
{
    match wanted {
        Some(wanted) => named_by(alloc, &nodes.paths, wanted),
        None => Ok(top_classes(alloc, &nodes.classes)?),
    }
}

/// Whether each node is a top-level class.
fn top_classes(alloc: Global, classes: &[u32]) -> Result<Vec<bool>, AllocError>
    ensures { (tree : List Row) → IsTree tree → classes.now ≡ all_top_classes tree
        → IfOk result (λ v. v.items ≡ column (is_top tree) (length tree)) }
{
    let mut tops = Vec::with_capacity(alloc, classes.len())?;
    'nodes: for n in 0..classes.len() {
        tops.push(n > 0 && classes[n] as usize == n)?;
    }
    Ok(tops)
}

/// The same where something is asked for.
fn named_by(alloc: Global, paths: &[Text], wanted: &[Wanted<'_>]) -> Result<Vec<bool>, PlanError>
    requires { 0 < length paths.now }
    ensures named { IfOk result (λ v. v.items
        ≡ column (λ n. not (is_root n) && list_any (grants (slice_index_or paths.now n []))
        (map wish_of wanted.now)) (length paths.now)) }
    ensures known { IfOk result (λ v. position_from (is_in_vain (drop 1 paths.now)) 0
        (map wish_of wanted.now) ≡ None) }
    ensures unknown { IfErr result (IsFaultOf
        (not_selected (position_from (is_in_vain (drop 1 paths.now)) 0 (map wish_of wanted.now)))) }
{
    let known = set_of(alloc, &paths[1..])?;
    let mut named = named_by_paths(alloc, paths, wanted)?;
    'wanted: for index in 0..wanted.len() {
        if !mark(&mut named, paths, &known, wanted[index]) {
            return Err(PlanError::Fault(PlanFault::NotSelected(index)));
        }
    }
    Ok(named)
}

/// Marks the nodes that a pattern takes in. Answers whether what is asked for names a node.
fn mark(named: &mut Vec<bool>, paths: &[Text], known: &BTreeSet<&[u8]>, wanted: Wanted<'_>) -> bool
    requires some { 0 < length paths.now }
    requires each { length named.old.items ≡ length paths.now }
    requires known { Knows known.now (drop 1 paths.now) }
    ensures marked { (n : ℕ) → n < length paths.now → slice_index_or named.new.items n false
        ≡ (slice_index_or named.old.items n false
        || (not (is_root n) && pattern_grants (slice_index_or paths.now n [])
        (wish_of wanted.entry))) }
    ensures each { length named.new.items ≡ length named.old.items }
    ensures found { not result ≡ is_in_vain (drop 1 paths.now) (wish_of wanted.entry) }
{
    match wanted {
        Wanted::Path(path) => known.contains(path),
        Wanted::Pattern(pattern) => mark_matches(named, paths, pattern),
    }
}

/// Whether each node has a path that is asked for.
fn named_by_paths(
    alloc: Global,
    paths: &[Text],
    wanted: &[Wanted<'_>],
) -> Result<Vec<bool>, AllocError>
    requires { 0 < length paths.now }
    ensures { IfOk result (λ v. v.items
        ≡ column (λ n. not (is_root n) && is_among (paths_in (map wish_of wanted.now))
        (slice_index_or paths.now n [])) (length paths.now)) }
{
    let asked = paths_in(alloc, wanted)?;
    let mut named = Vec::with_capacity(alloc, paths.len())?;
    'nodes: for n in 0..paths.len() {
        let is_asked = asked.contains(paths[n].as_str().as_bytes());
        named.push(n > 0 && is_asked)?;
    }
    Ok(named)
}

/// The paths that are asked for, as a set.
fn paths_in<'a>(alloc: Global, wanted: &[Wanted<'a>]) -> Result<BTreeSet<&'a [u8]>, AllocError>
    ensures { IfOk result (λ set. Knows set (paths_in (map wish_of wanted.now))) }
{
    let mut asked = BTreeSet::new(alloc);
    'wanted: for wish in wanted {
        add_path(&mut asked, *wish)?;
    }
    Ok(asked)
}

/// Adds the path that is asked for, if it is one.
fn add_path<'a>(asked: &mut BTreeSet<&'a [u8]>, wanted: Wanted<'a>) -> Result<(), AllocError>
    ensures { (wishes : List Wish) → Knows asked.old (paths_in wishes)
        → OnOk result (Knows asked.new (paths_in (wishes ++ wish_of wanted.entry ∷ []))) }
{
    match wanted {
        Wanted::Path(path) => claim(asked, path),
        Wanted::Pattern(_) => Ok(()),
    }
}

/// These texts, as a set.
fn set_of<'a>(alloc: Global, texts: &'a [Text]) -> Result<BTreeSet<&'a [u8]>, AllocError>
    ensures { IfOk result (λ set. Knows set texts.now) }
{
    let mut set = BTreeSet::new(alloc);
    'texts: for text in texts {
        claim(&mut set, text.as_str().as_bytes())?;
    }
    Ok(set)
}

/// Adds a text to a set.
fn claim<'a>(set: &mut BTreeSet<&'a [u8]>, text: &'a [u8]) -> Result<(), AllocError>
    ensures { (texts : List (List ℕ)) → Knows set.old texts
        → OnOk result (Knows set.new (texts ++ text.now ∷ [])) }
{
    set.insert(text)?;
    Ok(())
}
