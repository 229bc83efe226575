//! Near words: what was meant, of what there is.
ghost use Rattle.std.specs.Prelude.{◌≡◌, ◌≤◌, IfOk, OnOk, cond, false, length, map, nat_le, option_map, Some, None, slice_get, take, true};
ghost use Rattle.std.specs.List.{prefix_len};
ghost use Rattle.std.specs.Str.{chars};
ghost use Rattle.iso_hints.specs.Nearest.{distance, is_near, may_be_near, near_words};
ghost use Rattle.iso_hints.specs.Ranks.{IsRanked, kept, put_near};

use std::alloc::{AllocError, Global};
use strsim::osa_distance;

/// A candidate of more bytes isn't told.
const CANDIDATE_BYTES: usize = 1024;

/// A word that is near, and how far it is.
#[derive(Clone, Copy)]
pub(crate) struct Near<'a> {
    pub word: &'a str,
    pub distance: usize,
}

/// The candidate that is nearest to a word, of several the first, if one is near enough.
pub fn nearest<'a>(
    alloc: Global,
    word: &str,
    candidates: &[&'a str],
) -> Result<Option<&'a str>, AllocError>
    ensures { IfOk result (λ found.
        option_map (λ c. c.now) found ≡ slice_get
        (near_words word.now (map (λ c. c.now) candidates.now)) 0) }
{
    let near = ranked(alloc, word, candidates, 1)?;
    Ok(near.first().map(|near| near.word))
}

/// The three candidates that are nearest to a word, or as many as are near enough: the nearest
/// first, equal ones in their order.
pub fn nearest_three<'a>(
    alloc: Global,
    word: &str,
    candidates: &[&'a str],
) -> Result<Vec<&'a str>, AllocError>
    ensures { IfOk result (λ found.
        map (λ c. c.now) found.items ≡ take 3
        (near_words word.now (map (λ c. c.now) candidates.now))) }
{
    let near = ranked(alloc, word, candidates, 3)?;
    words(alloc, near.as_slice())
}

/// The words without their distances.
fn words<'a>(alloc: Global, near: &[Near<'a>]) -> Result<Vec<&'a str>, AllocError>
    ensures { IfOk result (λ words. words.items ≡ map (λ n. n.word) near.now) }
{
    near.iter().map(|near| near.word).collect(alloc)
}

/// The `count` candidates that are nearest to a word, or all of fewer, with their distances.
fn ranked<'a>(
    alloc: Global,
    word: &str,
    candidates: &[&'a str],
    count: usize,
) -> Result<Vec<Near<'a>>, AllocError>
    ensures { IfOk result (λ near. IsRanked word.now
        (map (λ c. c.now) candidates.now) count near.items) }
{
    let mut near = Vec::new(alloc);
    for candidate in candidates {
        let distance = distance_if_near(alloc, word, candidate)?;
        keep(&mut near, candidate, distance, count)?;
    }
    Ok(near)
}

/// Keeps a candidate among the `count` nearest, if it is near at all.
fn keep<'a>(
    near: &mut Vec<Near<'a>>,
    candidate: &'a str,
    distance: Option<usize>,
    count: usize,
) -> Result<(), AllocError>
    ensures { OnOk result (near.new.items ≡ kept count near.old.items candidate.entry distance) }
{
    let Some(distance) = distance else {
        return Ok(());
    };
    let place = count_within(near, distance);
    near.insert(
        place,
        Near {
            word: candidate,
            distance,
        },
    )?;
    near.truncate(count);
    Ok(())
}

/// How many of the first ones are at most at this distance.
fn count_within(near: &[Near<'_>], distance: usize) -> usize
    ensures count { result ≡ prefix_len (λ n. nat_le n.distance distance) near.now }
    ensures within { result ≤ length near.now }
{
    near.iter()
        .take_while(|other| other.distance <= distance)
        .count()
}

/// How far a candidate is, if it is near enough to be told.
pub(crate) fn distance_if_near(
    alloc: Global,
    word: &str,
    candidate: &str,
) -> Result<Option<usize>, AllocError>
    ensures { IfOk result (λ d. d ≡ cond (is_near word.now candidate.now)
        (Some (distance word.now candidate.now)) None) }
{
    if !may_be_near(word, candidate) || differ_in_length(word, candidate) {
        return Ok(None);
    }
    let distance = osa_distance(alloc, word, candidate)?;
    if distance <= word.len().max(candidate.len()) / 3 {
        Ok(Some(distance))
    } else {
        Ok(None)
    }
}

/// Whether the lengths of two words let one be near the other.
fn may_be_near(word: &str, candidate: &str) -> bool
    ensures { result ≡ may_be_near word.now candidate.now }
{
    candidate.len() <= CANDIDATE_BYTES
        && candidate.len() <= 2 * word.len()
        && word.len() <= 2 * candidate.len()
}

/// Whether the lengths of two words alone put them too far apart: their distance takes more time.
fn differ_in_length(word: &str, candidate: &str) -> bool
    ensures { result ≡ true → is_near word.now candidate.now ≡ false }
{
    character_count(word).abs_diff(character_count(candidate)) > word.len().max(candidate.len()) / 3
}

/// How many characters a word has.
fn character_count(word: &str) -> usize
    ensures { result ≡ length (chars word.now) }
{
    word.chars().count()
}
