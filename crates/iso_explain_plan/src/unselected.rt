//! What was meant by a path or a pattern that names nothing.
ghost use Rattle.std.specs.Prelude.{◌≡◌, ◌++◌, ◌∷◌, [], IfOk, Ok, OnOk, codes, cond, filter, map, option_map};
ghost use Rattle.iso_explain_plan.specs.Meant.{did_you_mean};
ghost use Rattle.iso_explain_plan.specs.Unselected.{candidates, class_if_team, first_of_team, has_end, has_near_length, has_star, most_candidates, named_so, near_paths, other_notes, path_note, paths_notes, paths_or, pattern_note, team_note, unselected_notes};
ghost use Rattle.iso_model.specs.ScriptView.{script_of};
ghost use Rattle.iso_tap.specs.Printers.{Prints};

use crate::error::ExplainError;
use crate::meant::did_you_mean;
use crate::note::note;
use crate::part::Part;
use iso_hints::nearest::nearest_three;
use iso_model::script::Script;
use iso_model::text::Text;
use iso_tap::printer::Printer;
use iso_tap::sink::{Sink, SinkFailed};
use std::alloc::{AllocError, Global};

/// How many paths are told at most.
const TOLD: usize = 3;
/// How many paths are compared with a word at most.
const COMPARED: usize = 4_096;
/// How many pairs of bytes are compared at most, if no path is longer than the word.
const PAIRS: usize = 16_777_216;

/// The first class of the first script of this team that has one.
fn first_of_team<'a>(scripts: &'a [Script], team: &str) -> Option<&'a str>
    ensures { option_map (λ c. c.now) result ≡ first_of_team team.now (map script_of scripts.now) }
{
    for script in scripts {
        if let Some(class) = class_if_team(script, team) {
            return Some(class);
        }
    }
    None
}

/// The first class of a script, if it is this team's and has one.
fn class_if_team<'a>(script: &'a Script, team: &str) -> Option<&'a str>
    ensures { option_map (λ c. c.now) result ≡ class_if_team team.now (script_of script.now) }
{
    if script.team.as_str() != team {
        return None;
    }
    match script.classes.first() {
        Some(class) => Some(class.name.as_str()),
        None => None,
    }
}

/// The first three of these paths that end with a dot and a word.
fn named_so<'a>(alloc: Global, paths: &'a [Text], word: &str) -> Result<Vec<&'a str>, AllocError>
    ensures { IfOk result (λ v. map (λ p. p.now) v.items ≡ named_so word.now paths.now) }
{
    let end = dotted(alloc, word)?;
    let mut named = ending(alloc, paths, end.as_str())?;
    named.truncate(TOLD);
    Ok(named)
}

/// A word behind a dot.
fn dotted(alloc: Global, word: &str) -> Result<Text, AllocError>
    ensures { IfOk result (λ t. t ≡ codes "." ++ word.now) }
{
    Ok(Text::new(format!(in alloc; ".{word}")?))
}

/// Those of these paths that end so.
fn ending<'a>(alloc: Global, paths: &'a [Text], end: &str) -> Result<Vec<&'a str>, AllocError>
    ensures { IfOk result (λ v. map (λ p. p.now) v.items ≡ filter (has_end end.now) paths.now) }
{
    let mut ending = Vec::new(alloc);
    for text in paths {
        let path = text.as_str();
        add_if(&mut ending, path, has_end(path, end))?;
    }
    Ok(ending)
}

/// Adds a path, if it passes.
fn add_if<'a>(paths: &mut Vec<&'a str>, path: &'a str, passes: bool) -> Result<(), AllocError>
    ensures { OnOk result (map (λ p. p.now) paths.new.items ≡ map (λ p. p.now) paths.old.items
        ++ cond passes (path.now ∷ []) []) }
{
    if passes {
        paths.push(path)?;
    }
    Ok(())
}

/// Whether a path ends so.
fn has_end(path: &str, end: &str) -> bool
    ensures { result ≡ has_end end.now path.now }
{
    path.as_bytes().ends_with(end.as_bytes())
}

/// Of these paths the three that are nearest to a word, or as many as are near enough.
fn near_paths<'a>(alloc: Global, paths: &'a [Text], word: &str) -> Result<Vec<&'a str>, AllocError>
    ensures { IfOk result (λ v. map (λ p. p.now) v.items ≡ near_paths word.now paths.now) }
{
    let candidates = candidates(alloc, paths, word)?;
    nearest_three(alloc, word, &candidates)
}

/// The first of these paths whose lengths let them be near, as many as are compared.
fn candidates<'a>(alloc: Global, paths: &'a [Text], word: &str) -> Result<Vec<&'a str>, AllocError>
    ensures { IfOk result (λ v. map (λ p. p.now) v.items ≡ candidates word.now paths.now) }
{
    let mut candidates = of_near_length(alloc, paths, word)?;
    candidates.truncate(most_candidates(word));
    Ok(candidates)
}

/// Those of these paths whose lengths let them be near.
fn of_near_length<'a>(
    alloc: Global,
    paths: &'a [Text],
    word: &str,
) -> Result<Vec<&'a str>, AllocError>
    ensures { IfOk result (λ v. map (λ p. p.now) v.items
        ≡ filter (has_near_length word.now) paths.now) }
{
    let mut near = Vec::new(alloc);
    for text in paths {
        let path = text.as_str();
        add_if(&mut near, path, has_near_length(word, path))?;
    }
    Ok(near)
}

/// Whether the lengths of two words let one be near the other.
fn has_near_length(word: &str, path: &str) -> bool
    ensures { result ≡ has_near_length word.now path.now }
{
    path.len() <= 2 * word.len() && word.len() <= 2 * path.len()
}

/// How many paths are compared with a word: fewer with a longer one, so that the time is bounded.
fn most_candidates(word: &str) -> usize
    ensures { result ≡ most_candidates word.now }
{
    let bytes = word.len().max(1);
    (PAIRS / bytes / bytes).min(COMPARED)
}

/// Whether a word has a star, which no path has.
fn has_star(word: &str) -> bool
    ensures { result ≡ has_star word.now }
{
    word.as_bytes().iter().any(|byte| *byte == b'*')
}

/// Writes what was meant by a word, of these scripts with these paths of classes and tests.
pub(crate) fn unselected<W: Sink>(
    alloc: Global,
    scripts: &[Script],
    paths: &[Text],
    word: &str,
    printer: &mut Printer<'_, W>,
) -> Result<(), ExplainError>
    ensures { OnOk result (Prints printer.old printer.new
        (unselected_notes word.now (map script_of scripts.now) paths.now) (Ok tt)) }
{
    match first_of_team(scripts, word) {
        Some(class) => team_told(printer, word, class),
        None => paths_notes(alloc, paths, word, printer),
    }
}

/// Writes that a team is no class.
fn team_told<W: Sink>(
    printer: &mut Printer<'_, W>,
    team: &str,
    class: &str,
) -> Result<(), ExplainError>
    ensures { OnOk result (Prints printer.old printer.new (team_note team.now class.now) (Ok tt)) }
{
    Ok(team_note(printer, team, class)?)
}

/// Writes what was meant by a word that is no team.
fn paths_notes<W: Sink>(
    alloc: Global,
    paths: &[Text],
    word: &str,
    printer: &mut Printer<'_, W>,
) -> Result<(), ExplainError>
    ensures { OnOk result (Prints printer.old printer.new
        (paths_notes word.now paths.now) (Ok tt)) }
{
    let named = named_so(alloc, paths, word)?;
    named_notes(alloc, paths, word, &named, printer)
}

/// The same, where these paths end with it.
fn named_notes<W: Sink>(
    alloc: Global,
    paths: &[Text],
    word: &str,
    named: &[&str],
    printer: &mut Printer<'_, W>,
) -> Result<(), ExplainError>
    ensures { OnOk result (Prints printer.old printer.new
        (paths_or (map (λ p. p.now) named.now) (other_notes word.now paths.now)) (Ok tt)) }
{
    if named.is_empty() {
        other_notes(alloc, paths, word, printer)
    } else {
        named_told(printer, named)
    }
}

/// Writes which paths were meant.
fn named_told<W: Sink>(printer: &mut Printer<'_, W>, named: &[&str]) -> Result<(), ExplainError>
    ensures { OnOk result (Prints printer.old printer.new
        (did_you_mean (map (λ p. p.now) named.now)) (Ok tt)) }
{
    Ok(did_you_mean(printer, named)?)
}

/// Writes what was meant by a word with which no path ends.
fn other_notes<W: Sink>(
    alloc: Global,
    paths: &[Text],
    word: &str,
    printer: &mut Printer<'_, W>,
) -> Result<(), ExplainError>
    ensures { OnOk result (Prints printer.old printer.new
        (other_notes word.now paths.now) (Ok tt)) }
{
    if has_star(word) {
        star_told(printer)
    } else {
        near_notes(alloc, paths, word, printer)
    }
}

/// Writes what stars stand for.
fn star_told<W: Sink>(printer: &mut Printer<'_, W>) -> Result<(), ExplainError>
    ensures { OnOk result (Prints printer.old printer.new pattern_note (Ok tt)) }
{
    Ok(pattern_note(printer)?)
}

/// Writes which paths are near, or how a path is written.
fn near_notes<W: Sink>(
    alloc: Global,
    paths: &[Text],
    word: &str,
    printer: &mut Printer<'_, W>,
) -> Result<(), ExplainError>
    ensures { OnOk result (Prints printer.old printer.new
        (paths_or (near_paths word.now paths.now) path_note) (Ok tt)) }
{
    let near = near_paths(alloc, paths, word)?;
    Ok(near_note(printer, &near)?)
}

/// Writes which paths were meant, or how a path is written.
fn near_note<W: Sink>(printer: &mut Printer<'_, W>, near: &[&str]) -> Result<(), SinkFailed>
    ensures { Prints printer.old printer.new
        (paths_or (map (λ p. p.now) near.now) path_note) result }
{
    if near.is_empty() {
        path_note(printer)
    } else {
        did_you_mean(printer, near)
    }
}

/// Writes that a team is no class.
fn team_note<'a, W: Sink>(
    printer: &mut Printer<'_, W>,
    team: &'a str,
    class: &'a str,
) -> Result<(), SinkFailed>
    ensures { Prints printer.old printer.new (team_note team.now class.now) result }
{
    note(
        printer,
        &[
            Part::Shown(team),
            Part::Plain(" is a team: name a class, as "),
            Part::Shown(team),
            Part::Plain("."),
            Part::Shown(class),
            Part::Plain(", or all of it by --match '"),
            Part::Shown(team),
            Part::Plain(".*'"),
        ],
    )
}

/// Writes what stars stand for.
fn pattern_note<W: Sink>(printer: &mut Printer<'_, W>) -> Result<(), SinkFailed>
    ensures { Prints printer.old printer.new pattern_note result }
{
    note(
        printer,
        &[Part::Plain(
            "the whole path has to match a pattern of --match, where * stands for any bytes: begin with * or a team",
        )],
    )
}

/// Writes how a path is written.
pub(crate) fn path_told<W: Sink>(printer: &mut Printer<'_, W>) -> Result<(), ExplainError>
    ensures { OnOk result (Prints printer.old printer.new path_note (Ok tt)) }
{
    Ok(path_note(printer)?)
}

/// Writes how a path is written.
fn path_note<W: Sink>(printer: &mut Printer<'_, W>) -> Result<(), SinkFailed>
    ensures { Prints printer.old printer.new path_note result }
{
    note(
        printer,
        &[Part::Plain(
            "a path is the names of the team, the classes and the test, with dots between: `jtap plan` prints them",
        )],
    )
}
