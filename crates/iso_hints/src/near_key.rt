//! The known key that is nearest to one that is unknown.
ghost use Rattle.std.specs.Prelude.{◌≡◌, ◌<◌, ◌+◌, IfOk, IfSome, MatchOption, None, Some, cond, length, map, option_map};
ghost use Rattle.std.specs.List.{position_or_len};
ghost use Rattle.iso_hints.specs.NearKeys.{is_dot, key_distance, lacks_segment, measured, nearer, nearest_from, rest_distance, rests};

use crate::nearest::{Near, distance_if_near};
use std::alloc::{AllocError, Global};

/// Of known keys the nearest to a key, of several the first, if one is near enough.
pub(crate) fn nearest_known<'a>(
    alloc: Global,
    key: &str,
    known: &[&'a str],
) -> Result<Option<Near<'a>>, AllocError>
    ensures { IfOk result (λ near. option_map measured near
        ≡ nearest_from key.now None (map (λ k. k.now) known.now)) }
{
    let mut best = None;
    for other in known {
        let distance = key_distance(alloc, key, other)?;
        best = nearer(best, other, distance);
    }
    Ok(best)
}

/// Of a key and one more with its distance the nearer, of equal ones the first.
fn nearer<'a>(best: Option<Near<'a>>, known: &'a str, distance: Option<usize>) -> Option<Near<'a>>
    ensures { option_map measured result
        ≡ nearer (option_map measured best.entry) known.now distance }
{
    match (best, distance) {
        (_, None) => best,
        (Some(near), Some(distance)) if near.distance <= distance => best,
        (_, Some(distance)) => Some(Near {
            word: known,
            distance,
        }),
    }
}

/// How far a key is from a known one, if it is near enough, by what both have behind the last dot
/// up to which they are the same.
fn key_distance(alloc: Global, key: &str, known: &str) -> Result<Option<usize>, AllocError>
    ensures { IfOk result (λ d. d ≡ key_distance key.now known.now) }
{
    let (key, known) = rests(key, known);
    rest_distance(alloc, key, known)
}

/// What two keys have behind the last dot up to which they are the same: all of both where there is
/// none.
fn rests<'a, 'b>(key: &'a str, known: &'b str) -> (&'a str, &'b str)
    ensures { (result.0.now, result.1.now) ≡ rests key.now known.now }
{
    let mut rests = (key, known);
    'segments: while let Some(behind) = behind_segment(rests.0, rests.1) {
        rests = behind;
    }
    rests
}

/// What two keys have behind their first dots, where they are the same up to there.
fn behind_segment<'a, 'b>(key: &'a str, known: &'b str) -> Option<(&'a str, &'b str)>
    ensures rests { MatchOption result (rests key.now known.now ≡ (key.now, known.now))
        (λ behind. rests key.now known.now ≡ rests behind.0.now behind.1.now) }
    ensures shorter { IfSome result (λ behind. length behind.0.now < length key.now) }
{
    let (segment, rest) = key.split_once('.')?;
    let (known_segment, known_rest) = known.split_once('.')?;
    if segment == known_segment {
        Some((rest, known_rest))
    } else {
        None
    }
}

/// How far a key is from a known one, if it is near enough: as many bytes as are left out, or by
/// the distance of words.
fn rest_distance(alloc: Global, key: &str, known: &str) -> Result<Option<usize>, AllocError>
    ensures { IfOk result (λ d. d ≡ rest_distance key.now known.now) }
{
    match left_out(key, known) {
        Some(bytes) => Ok(Some(bytes)),
        None => distance_if_near(alloc, key, known),
    }
}

/// How many bytes are left out, where a known key is a segment, a dot and this key.
fn left_out(key: &str, known: &str) -> Option<usize>
    ensures { result ≡ cond (lacks_segment key.now known.now)
        (Some (position_or_len is_dot known.now + 1)) None }
{
    match known.split_once('.') {
        Some((segment, rest)) if rest == key => Some(segment.len() + 1),
        _ => None,
    }
}
