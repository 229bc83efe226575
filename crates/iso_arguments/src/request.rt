//! What the words of a command line ask for.
ghost use Rattle.std.specs.Prelude.{◌≡◌, [], None, IfOk, IfSome, IsOkAnd, drop, false};
ghost use Rattle.std.specs.Vec.Iter.{into_iter_items};
ghost use Rattle.iso_arguments.specs.RequestBounds.{AsksForNoMore, AsksInBounds, AreInBounds, IsPlainRun, IsShard, IsWithin};

use crate::number::read_number;
use crate::options::command_line;
use crate::processors::{Processors, read_processors};
use crate::shard::{Shard, read_shard};
use crate::written::{Written, check_written};
use crate::wrong_words::{LIST_WITHOUT_SCRIPT, WordsFault, invalid_value, told};
use clap::ArgMatches;
use std::alloc::{AllocGlobal, Global};
use std::env::{self, Args, Env};
use std::io;

/// The files that a run, a plan or a replay is made of, as the words name them, and what is kept of
/// them.
#[derive(Drop)]
pub struct InputFiles<'a> {
    pub settings: Option<&'a str>,
    pub world: Option<&'a str>,
    /// In the order of the words. None: one script is read from standard input.
    pub scripts: Vec<&'a str>,
    /// The paths of classes and tests that are kept, in the order of the words.
    pub only: Vec<&'a str>,
    /// The patterns of the paths of others, in the order of the words.
    pub patterns: Vec<&'a str>,
    /// The file in which the paths of others stand, one a line; `-` is standard input. Without it,
    /// and where no path and no pattern is given, all classes and tests are kept.
    pub only_from: Option<&'a str>,
    /// What part of the top-level classes is kept of these. Without it each is.
    pub shard: Option<Shard>,
    /// Without it one is counted with.
    pub processors: Option<Processors>,
    /// Whether a fault is explained.
    pub explain: bool,
}

impl<'a> InputFiles<'a> {
    /// No file, no path, and no number of processors: a script is read from standard input, and all
    /// of it is kept.
    pub fn none(alloc: Global) -> InputFiles<'a>
        ensures names { (result.settings ≡ None) × (result.world ≡ None)
            × (result.scripts.items ≡ []) }
        ensures all { (result.only.items ≡ []) × (result.patterns.items ≡ [])
            × (result.only_from ≡ None) }
        ensures whole { result.shard ≡ None }
        ensures processors { result.processors ≡ None }
        ensures unexplained { result.explain ≡ false }
    {
        InputFiles {
            settings: None,
            world: None,
            scripts: Vec::new(alloc),
            only: Vec::new(alloc),
            patterns: Vec::new(alloc),
            only_from: None,
            shard: None,
            processors: None,
            explain: false,
        }
    }
}

/// What a summary tells of.
#[derive(Clone, Copy, PartialEq, Eq)]
pub enum Summarized {
    /// The classes and tests that failed.
    Failed,
    /// The tests that were skipped, too.
    All,
}

/// What is asked for besides a report.
#[derive(Clone, Copy)]
pub struct Extras<'a> {
    /// The summary for people on standard error.
    pub summary: Option<Summarized>,
    /// The file into which the paths of the failed classes and tests are written, one a line.
    pub failed: Option<&'a str>,
    /// The file into which the results are written as JUnit's XML.
    pub junit: Option<&'a str>,
    /// The file into which the results are written as a page to look at.
    pub html: Option<&'a str>,
    /// Whether standard error has a line for GitHub Actions of each that failed.
    pub github: bool,
    /// How many of the slowest classes and tests are told on standard error; 0 for all.
    pub durations: Option<u32>,
    /// The file into which the events of a run are written, as a replay takes them.
    pub record: Option<&'a str>,
    /// The file into which it is written when each worker ran what, as a trace.
    pub trace: Option<&'a str>,
    /// Whether standard error tells how busy workers were, and what was waited for.
    pub stats: bool,
    /// Whether standard error, if it is a terminal, shows how far a run has come.
    pub progress: bool,
}

impl Extras<'_> {
    /// Nothing.
    pub fn none() -> Self
        ensures { AsksForNoMore result }
    {
        Extras {
            summary: None,
            failed: None,
            junit: None,
            html: None,
            github: false,
            durations: None,
            record: None,
            trace: None,
            stats: false,
            progress: false,
        }
    }
}

/// What is asked for.
#[derive(Drop)]
pub enum Request<'a> {
    /// A run and its report; `serial` on one thread.
    Run {
        serial: bool,
        extras: Extras<'a>,
        files: InputFiles<'a>,
    },
    /// The printed plan; `tests` of its tests alone, `places` with where each node's name stands,
    /// `why` with what gave it its mode and locks.
    Plan {
        tests: bool,
        places: bool,
        why: bool,
        files: InputFiles<'a>,
    },
    /// The printed keys of a plan, with who takes them.
    Conflicts(InputFiles<'a>),
    /// A replay of the schedule in a file of this name, and its report.
    Replay {
        schedule: &'a str,
        extras: Extras<'a>,
        files: InputFiles<'a>,
    },
    /// What is wrong with files, without a run.
    Check(InputFiles<'a>),
    /// What a change of scripts and a world can alter, which were in the folder `old` by the same
    /// names; `paths` the paths alone.
    Affected {
        old: &'a str,
        paths: bool,
        files: InputFiles<'a>,
    },
    /// What the settings in a file of this name come to, by the number of processors; `explain`
    /// with what mends a fault.
    Settings {
        settings: Option<&'a str>,
        processors: Option<Processors>,
        explain: bool,
    },
    /// A text for standard output: a help page or the version.
    Show(String),
}

/// The words that a program was called with, after its own name. A word that isn't UTF-8 is a wrong
/// word.
pub fn words_of<E: Env + AllocGlobal>(env: &E) -> Result<Vec<String>, WordsFault> {
    let args = match env::args(env) {
        Ok(args) => args,
        Err(error) if error.kind() == io::ErrorKind::InvalidData => {
            return Err(WordsFault::Wrong(String::from_str(
                env.alloc(),
                "error: a word isn't UTF-8\n\nFor more information, try '--help'.\n",
            )?));
        }
        Err(_) => return Err(WordsFault::OutOfMemory),
    };
    after_name(env.alloc(), args)
}

/// The words after the first, which is the program's name, in their order.
fn after_name(alloc: Global, mut args: Args) -> Result<Vec<String>, WordsFault>
    ensures { IfOk result (λ words. words.items ≡ drop 1 (into_iter_items args)) }
{
    let _name = args.next();
    let mut words = Vec::new(alloc);
    for word in args {
        words.push(word)?;
    }
    Ok(words)
}

/// Reads the words after the program's name. No word at all is `run` of a script from standard
/// input.
///
/// A request for help or the version is `Show`. Words that `jtap` doesn't have are `Refused`, with
/// the text that says which.
pub fn read_words<'a>(alloc: Global, words: &'a [String]) -> Result<Request<'a>, WordsFault>
    ensures bounds { IfOk result AsksInBounds }
    ensures no_word { words.now ≡ [] → IsOkAnd result IsPlainRun }
{
    if words.is_empty() {
        return Ok(Request::Run {
            serial: false,
            extras: Extras::none(),
            files: InputFiles::none(alloc),
        });
    }
    let command = command_line(alloc)?;
    match command.try_get_matches_from(words) {
        Ok(matches) => requested(alloc, &matches),
        Err(error) => told(alloc, words, &error),
    }
}

/// What words that were matched ask for.
fn requested<'a>(alloc: Global, matches: &ArgMatches<'a>) -> Result<Request<'a>, WordsFault>
    ensures bounds { IfOk result AsksInBounds }
{
    let Some((name, found)) = matches.subcommand() else {
        return Ok(Request::Run {
            serial: false,
            extras: Extras::none(),
            files: InputFiles::none(alloc),
        });
    };
    if name == "settings" {
        return Ok(Request::Settings {
            settings: found.get_str("settings"),
            processors: processors_of(alloc, found)?,
            explain: found.get_flag("explain"),
        });
    }
    let files = files_of(alloc, found)?;
    match name {
        "plan" if found.get_flag("conflicts") => return Ok(Request::Conflicts(files)),
        "plan" => {
            return Ok(Request::Plan {
                tests: found.get_flag("tests"),
                places: found.get_flag("places"),
                why: found.get_flag("why"),
                files,
            });
        }
        "check" => return Ok(Request::Check(files)),
        "affected" => return affected_of(alloc, found, files),
        _ => {}
    }
    let schedule = found.get_str("schedule");
    let extras = extras_of(alloc, found, schedule, &files)?;
    Ok(match name {
        "replay" => Request::Replay {
            // `--schedule` is required: it has a value.
            schedule: schedule.unwrap_or(""),
            extras,
            files,
        },
        _ => Request::Run {
            serial: found.get_flag("serial"),
            extras,
            files,
        },
    })
}

/// What is asked for of a change of these files. It is a wrong word that names no folder of their
/// older state, or a file by an absolute path: below another folder there is none by that name.
fn affected_of<'a>(
    alloc: Global,
    found: &ArgMatches<'a>,
    files: InputFiles<'a>,
) -> Result<Request<'a>, WordsFault>
    requires bounds { AreInBounds files }
    ensures bounds { IfOk result AsksInBounds }
{
    // `--old` is required: it has a value.
    let old = found.get_str("old").unwrap_or("");
    if old.is_empty() {
        return Err(WordsFault::Wrong(invalid_value(
            alloc,
            old,
            "--old <DIR>",
            "a folder is wanted",
        )?));
    }
    check_relative(alloc, "--world <FILE>", files.world.as_slice())?;
    check_relative(alloc, "<SCRIPT>...", files.scripts.as_slice())?;
    Ok(Request::Affected {
        old,
        paths: found.get_flag("paths"),
        files,
    })
}

/// Refuses the first of these files that is named by an absolute path.
fn check_relative(alloc: Global, option: &str, files: &[&str]) -> Result<(), WordsFault> {
    for file in files {
        if file.starts_with('/') {
            return Err(WordsFault::Wrong(invalid_value(
                alloc,
                file,
                option,
                "a relative path is wanted",
            )?));
        }
    }
    Ok(())
}

/// What is asked for besides the report.
fn extras_of<'a>(
    alloc: Global,
    found: &ArgMatches<'a>,
    schedule: Option<&'a str>,
    files: &InputFiles<'a>,
) -> Result<Extras<'a>, WordsFault> {
    let failed = found.get_str("failed");
    let junit = found.get_str("junit");
    let html = found.get_str("html");
    let record = found.get_str("record");
    let trace = found.get_str("trace");
    let written = [
        Written {
            option: "--failed <FILE>",
            file: failed,
            may_be_list: true,
        },
        Written::new("--junit <FILE>", junit),
        Written::new("--html <FILE>", html),
        Written::new("--record <FILE>", record),
        Written::new("--trace <FILE>", trace),
    ];
    check_written(alloc, &written, schedule, files)?;
    let durations = durations_of(alloc, found)?;
    Ok(Extras {
        summary: summary_of(found),
        failed,
        junit,
        html,
        github: found.get_flag("github"),
        durations,
        record,
        trace,
        stats: found.get_flag("stats"),
        progress: found.get_flag("progress"),
    })
}

/// What `--summary` asks for: its one value is `all`.
fn summary_of(found: &ArgMatches<'_>) -> Option<Summarized> {
    if !found.contains_id("summary") {
        return None;
    }
    Some(match found.get_str("summary") {
        Some(_) => Summarized::All,
        None => Summarized::Failed,
    })
}

/// How many of the slowest are told, if it is asked for. What is no number is a wrong word.
fn durations_of(alloc: Global, found: &ArgMatches<'_>) -> Result<Option<u32>, WordsFault> {
    let Some(word) = found.get_str("durations") else {
        return Ok(None);
    };
    match read_number(word) {
        Some(number) => Ok(Some(number)),
        None => Err(WordsFault::Wrong(invalid_value(
            alloc,
            word,
            "--durations <N>",
            "0 to 4294967295 is wanted",
        )?)),
    }
}

/// The files and paths that a subcommand names.
fn files_of<'a>(alloc: Global, found: &ArgMatches<'a>) -> Result<InputFiles<'a>, WordsFault>
    ensures bounds { IfOk result AreInBounds }
{
    let shard = shard_of(alloc, found)?;
    let processors = processors_of(alloc, found)?;
    let mut files = InputFiles::none(alloc);
    files.shard = shard;
    files.only_from = found.get_str("only-from");
    files.settings = found.get_str("settings");
    files.world = found.get_str("world");
    files.processors = processors;
    files.explain = found.get_flag("explain");
    if let Some(scripts) = found.get_strs("scripts") {
        files.scripts.extend_from_slice(scripts)?;
    }
    if let Some(only) = found.get_strs("only") {
        files.only.extend_from_slice(only)?;
    }
    if let Some(patterns) = found.get_strs("match") {
        files.patterns.extend_from_slice(patterns)?;
    }
    if files.only_from == Some("-") && files.scripts.is_empty() {
        return Err(WordsFault::Wrong(String::from_str(alloc, LIST_WITHOUT_SCRIPT)?));
    }
    Ok(files)
}

/// How many processors are counted with, if it is asked for. What is no such number is a wrong
/// word.
fn processors_of(alloc: Global, found: &ArgMatches<'_>) -> Result<Option<Processors>, WordsFault>
    ensures bounds { IfOk result (λ asked. IfSome asked IsWithin) }
{
    let Some(word) = found.get_str("processors") else {
        return Ok(None);
    };
    match read_processors(word) {
        Some(asked) => Ok(Some(asked)),
        None => Err(WordsFault::Wrong(invalid_value(
            alloc,
            word,
            "--processors <N>",
            "1 to 1024 or `auto` is wanted",
        )?)),
    }
}

/// The shard that is asked for, if one is. One that there can't be is a wrong word.
fn shard_of(alloc: Global, found: &ArgMatches<'_>) -> Result<Option<Shard>, WordsFault>
    ensures bounds { IfOk result IsShard }
{
    let Some(word) = found.get_str("shard") else {
        return Ok(None);
    };
    match read_shard(word) {
        Some(shard) => Ok(Some(shard)),
        None => Err(WordsFault::Wrong(invalid_value(
            alloc,
            word,
            "--shard <I/K>",
            "two numbers are wanted, 1 <= I <= K <= 4095",
        )?)),
    }
}
