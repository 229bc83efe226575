//! The program, over a reader and two sinks.
ghost use Rattle.std.specs.Prelude.{◌≡◌, ◌≤◌, ℕ, List, None, Option, [], IfErr, IfSome, IsErrAnd, MatchResult, OnOk, false, true, option_map};
ghost use Rattle.std.specs.Option.{option_copied};
ghost use Rattle.iso_arguments.specs.RequestBounds.{AreInBounds, AsksInBounds, IsPlainRun, IsShard};
ghost use Rattle.iso_arguments.specs.declared.request.Request.TheVariants.{Replay, Run};
ghost use Rattle.iso_places.specs.declared.site.Site.{Site};
ghost use Rattle.iso_plan.specs.KeptNodes.{texts_of};
ghost use Rattle.iso_run.specs.Besides.{IsQuiet, IsSaid, NamesNone, files_of, parted, parts_of};
ghost use Rattle.iso_run.specs.Courses.{IsUnasked};
ghost use Rattle.iso_run.specs.Commands.{Answered, AnsweredBesides, ArePlaces, AreFor, Did, DidBesides, Ended, IsPrintedFor, IsRefused, IsWrittenFor, RanOn, WereRead, plan_of, shard_asked, way_of};
ghost use Rattle.iso_run.specs.ExitStatuses.{Answers, IfLate, IsEnded, IsFlushed, Refuses, command_end, end_of, exit_status, run_end, words_fault};
ghost use Rattle.iso_run.specs.Runs.{Writes, suite_conflicts, suite_report};
ghost use Rattle.iso_run.specs.declared.inputs.Inputs.{Inputs};
ghost use Rattle.iso_run.specs.declared.way.Way.TheVariants.{Serial};
ghost use Rattle.iso_tap.specs.Sinks.{Wrote};

use crate::affected::{Asked, show_affected};
use crate::afterwards::Afterwards;
use crate::besides::Besides;
use crate::check::check;
use crate::command_fault::CommandFault;
use crate::course::Course;
use crate::error_messages::say;
use crate::exit::{ALL_OK, NOT_ALL_OK};
use crate::files::{InputBytes, lent, read_files};
use crate::filing::filed;
use crate::inputs::Inputs;
use crate::mending::after_fault;
use crate::parts::say_parts;
use crate::plan::{show_conflicts, show_places, show_plan, show_tests, show_why};
use crate::progress::{Progress, Unshown, show as show_progress};
use crate::replay::run_schedule;
use crate::report::Summary;
use crate::run::run_serial_shown;
use crate::run_fault::RunFault;
use crate::script_mending::ScriptMending;
use crate::settings::show_settings;
use crate::warning::looked_over;
use crate::way::Way;
use crate::workers::run_workers_shown;
use iso_arguments::request::{Extras, InputFiles, Request, read_words};
use iso_arguments::shard::Shard as AskedShard;
use iso_arguments::wrong_words::WordsFault;
use iso_lifecycle::gate::OpenGate;
use iso_plan::fault::PlanFault;
use iso_selection::shard::Shard;
use iso_tap::memory::MemorySink;
use iso_tap::sink::Sink;
use iso_tap::text::write_text;
use iso_telling::tells::Tells;
use std::alloc::{AllocGlobal, Global};
use std::fs::Files;
use std::io::{Eprint, IsTerminal, Read};
use std::rt::Clock;
use std::sync::Wait;
use std::thread::Threads;

/// Runs the program: reads the words, then the files that they name in the order settings, world,
/// scripts, schedule, writes a report, a plan or a help page to `output`, and what is asked for
/// besides, or a fault's line, to `errors`. Where no script is named, one is read from `input`.
/// Answers the exit status: 0 where every top-level point is ok, or a plan or help was printed, 1
/// where some top-level point is not ok, 2 for refused input, 3 for out of memory, failed reads
/// and writes, and workers that couldn't be started or lost a receipt. A failed write to `errors`
/// changes nothing. It may wait for the workers of a run. How far a run has come, where that is
/// asked for, is shown on the terminal that standard error is, if it is one.
pub fn command<
    G: AllocGlobal + Clock + Files + Threads + Wait + Copy + Send + Sync + Drop + 'static,
    R: Read,
    W: Sink,
    E: Sink,
    T: Eprint + IsTerminal + Copy + Send + Drop + 'static,
>(rt: &G, words: &[String], input: &mut R, output: &mut W, errors: &mut E, terminal: T) -> u8
    ensures ended { Ended words.now (R.remaining input.old) (W.account output.old)
        (W.account output.new) result }
    // Without words, what was run is the script on the input.
    ensures no_word { words.now ≡ [] → IfSome (R.remaining input.old) (λ script. result ≤ 1
        → RanOn script (W.account output.old) (W.account output.new) result) }
    // Without words the status is 2 only where the script on the input is refused,
    ensures refused { words.now ≡ [] → result ≡ 2 → IsRefused (R.remaining input.old) }
    // and standard error is asked nothing where it was run.
    ensures quiet { words.now ≡ [] → result ≤ 1 → errors.new ≡ errors.old }
{
    match answer(rt, words, input, output, errors, terminal) {
        Ok(true) => ALL_OK,
        Ok(false) => NOT_ALL_OK,
        Err(fault) => {
            say(errors, &fault);
            fault.status()
        }
    }
}

/// Says that memory ran out before the program began, or that a word is wrong, and answers the
/// status.
pub fn refuse_words<E: Sink>(fault: WordsFault, errors: &mut E) -> u8
    ensures { result ≡ exit_status (command_end (words_fault fault)) }
{
    let fault = CommandFault::from(fault);
    say(errors, &fault);
    fault.status()
}

/// Does what the words ask for, and answers whether all is ok.
fn answer<
    'a,
    G: AllocGlobal + Clock + Files + Threads + Wait + Copy + Send + Sync + Drop + 'static,
    R: Read,
    W: Sink,
    E: Sink,
    T: Eprint + IsTerminal + Copy + Send + Drop + 'static,
>(
    rt: &G,
    words: &'a [String],
    input: &mut R,
    output: &mut W,
    errors: &mut E,
    terminal: T,
) -> Result<bool, CommandFault<'a>>
    ensures answers { Answers (Answered words.now (R.remaining input.old) (W.account output.old)
        (W.account output.new))
        (AnsweredBesides words.now (R.remaining input.old) (W.account output.old)
        (W.account output.new))
        (W.account output.old) (W.account output.new) result }
    ensures refused { words.now ≡ [] → IfErr result (λ fault. command_end fault ≡ Refuses
        → IsRefused (R.remaining input.old)) }
    ensures quiet { words.now ≡ [] → errors.new ≡ errors.old }
{
    let request = read_words(rt.alloc(), words)?;
    answer_request(rt, &request, input, output, errors, terminal)
}

/// Does what is asked for, and answers whether all is ok.
fn answer_request<
    'a,
    G: AllocGlobal + Clock + Files + Threads + Wait + Copy + Send + Sync + Drop + 'static,
    R: Read,
    W: Sink,
    E: Sink,
    T: Eprint + IsTerminal + Copy + Send + Drop + 'static,
>(
    rt: &G,
    request: &Request<'a>,
    input: &mut R,
    output: &mut W,
    errors: &mut E,
    terminal: T,
) -> Result<bool, CommandFault<'a>>
    requires { AsksInBounds request.now }
    ensures answers { Answers (Did request.now (R.remaining input.old) (W.account output.old)
        (W.account output.new))
        (DidBesides request.now (R.remaining input.old) (W.account output.old)
        (W.account output.new))
        (W.account output.old) (W.account output.new) result }
    ensures refused { IsPlainRun request.now
        → IfErr result (λ fault. command_end fault ≡ Refuses → IsRefused (R.remaining input.old)) }
    ensures quiet { IsPlainRun request.now → errors.new ≡ errors.old }
{
    match request {
        Request::Show(text) => show(text.as_str(), output),
        Request::Plan {
            tests,
            places,
            why,
            files,
        } => {
            let printed = Printed {
                tests: *tests,
                places: *places,
                why: *why,
            };
            answer_plan(rt, printed, files, input, output, errors)
        }
        Request::Conflicts(files) => answer_conflicts(rt, files, input, output, errors),
        Request::Check(files) => {
            check(rt, files, input, errors)?;
            Ok(true)
        }
        Request::Affected { old, paths, files } => {
            let asked = Asked {
                folder: *old,
                paths: *paths,
            };
            show_affected(rt, asked, files, input, output, errors)
        }
        Request::Settings {
            settings,
            processors,
            explain,
        } => show_settings(rt, *settings, *processors, *explain, output, errors),
        Request::Run {
            serial,
            extras,
            files,
        } => answer_run(rt, *serial, *extras, files, input, output, errors, terminal),
        Request::Replay {
            schedule,
            extras,
            files,
        } => answer_replay(rt, *schedule, *extras, files, input, output, errors),
    }
}

/// Prints the plan for these files.
fn answer_plan<'a, G: AllocGlobal + Files + Threads, R: Read, W: Sink, E: Sink>(
    rt: &G,
    printed: Printed,
    files: &InputFiles<'a>,
    input: &mut R,
    output: &mut W,
    errors: &mut E,
) -> Result<bool, CommandFault<'a>>
    requires { AreInBounds files.now }
    ensures { Answers (IsPrintedFor printed files.now (R.remaining input.old)
        (W.account output.old) (W.account output.new)) ⊥
        (W.account output.old) (W.account output.new) result }
{
    let read = read_files(rt, files, None, input)?;
    let bytes = looked_over(rt.alloc(), read, files, false, errors)?;
    let shown = plan(rt.alloc(), &bytes, printed, &*files, output);
    told(rt, shown, bytes, files, &Besides::nothing(), output, errors)
}

/// Prints who takes which key of the plan for these files.
fn answer_conflicts<'a, G: AllocGlobal + Files + Threads, R: Read, W: Sink, E: Sink>(
    rt: &G,
    files: &InputFiles<'a>,
    input: &mut R,
    output: &mut W,
    errors: &mut E,
) -> Result<bool, CommandFault<'a>>
    requires { AreInBounds files.now }
    ensures { Answers (IsWrittenFor suite_conflicts files.now (R.remaining input.old) Serial
        (W.account output.old) (W.account output.new)) ⊥
        (W.account output.old) (W.account output.new) result }
{
    let read = read_files(rt, files, None, input)?;
    let bytes = looked_over(rt.alloc(), read, files, false, errors)?;
    let shown = conflicts(rt.alloc(), &bytes, &*files, output);
    told(rt, shown, bytes, files, &Besides::nothing(), output, errors)
}

/// Runs the suite for these files on one thread or by workers, and tells what is asked for besides.
fn answer_run<
    'a,
    G: AllocGlobal + Clock + Files + Threads + Wait + Copy + Send + Sync + Drop + 'static,
    R: Read,
    W: Sink,
    E: Sink,
    T: Eprint + IsTerminal + Copy + Send + Drop + 'static,
>(
    rt: &G,
    serial: bool,
    extras: Extras<'a>,
    files: &InputFiles<'a>,
    input: &mut R,
    output: &mut W,
    errors: &mut E,
    terminal: T,
) -> Result<bool, CommandFault<'a>>
    requires { AreInBounds files.now }
    ensures answers { Answers (Did (Run serial extras.entry files.now) (R.remaining input.old)
        (W.account output.old) (W.account output.new))
        (DidBesides (Run serial extras.entry files.now) (R.remaining input.old)
        (W.account output.old) (W.account output.new))
        (W.account output.old) (W.account output.new) result }
    ensures refused { IsPlainRun (Run serial extras.entry files.now)
        → IfErr result (λ fault. command_end fault ≡ Refuses → IsRefused (R.remaining input.old)) }
    ensures quiet { IsPlainRun (Run serial extras.entry files.now) → errors.new ≡ errors.old }
{
    let read = read_files(rt, files, None, input)?;
    let bytes = looked_over(rt.alloc(), read, files, extras.github, errors)?;
    let mut besides = Besides::new(rt.alloc(), extras, &*files, bytes.processors);
    let mut course = Course::asked(rt.alloc(), extras);
    let ran = run_shown(
        rt,
        &bytes,
        asked_way(serial),
        &*files,
        extras.progress,
        terminal,
        &mut besides.tells,
        &mut course,
        output,
    );
    besides.course = course;
    told(rt, ran, bytes, files, &besides, output, errors)
}

/// Runs the suite for these files on one thread after the schedule of this name, and tells what is
/// asked for besides.
fn answer_replay<
    'a,
    G: AllocGlobal + Clock + Files + Threads + Wait + Sync,
    R: Read,
    W: Sink,
    E: Sink,
>(
    rt: &G,
    schedule: &'a str,
    extras: Extras<'a>,
    files: &InputFiles<'a>,
    input: &mut R,
    output: &mut W,
    errors: &mut E,
) -> Result<bool, CommandFault<'a>>
    requires { AreInBounds files.now }
    ensures { Answers (Did (Replay schedule.entry extras.entry files.now) (R.remaining input.old)
        (W.account output.old) (W.account output.new))
        (DidBesides (Replay schedule.entry extras.entry files.now) (R.remaining input.old)
        (W.account output.old) (W.account output.new))
        (W.account output.old) (W.account output.new) result }
{
    let read = read_files(rt, files, Some(schedule), input)?;
    let bytes = looked_over(rt.alloc(), read, files, extras.github, errors)?;
    let mut besides = Besides::new(rt.alloc(), extras, &*files, bytes.processors);
    let ran = run(
        rt,
        &bytes,
        Way::BySchedule(&bytes.schedule),
        &*files,
        &mut Unshown,
        &mut besides.tells,
        &mut Course::nothing(),
        output,
    );
    told(rt, ran, bytes, files, &besides, output, errors)
}

/// Writes a text.
fn show<W: Sink>(text: &str, output: &mut W) -> Result<bool, CommandFault<'static>>
    ensures { Answers (λ ok. (ok ≡ true)
        × Wrote (W.account output.old) (W.account output.new) text.now) ⊥
        (W.account output.old) (W.account output.new) result }
{
    if write_text(text, output).is_err() {
        return Err(CommandFault::Unwritten);
    }
    flushed(true, output)
}

/// The way of a run, which is asked for with `--serial` or without.
fn asked_way(serial: bool) -> Way<'static>
    ensures { result ≡ way_of serial }
{
    if serial { Way::Serial } else { Way::ByWorkers }
}

/// Runs what these bytes are as `run` does, and shows on the terminal how far the run has come, if
/// that is asked for and it is one.
fn run_shown<
    'b,
    G: AllocGlobal + Clock + Threads + Wait + Copy + Send + Sync + Drop + 'static,
    T: Eprint + IsTerminal + Copy + Send + Drop + 'static,
    W: Sink,
>(
    rt: &G,
    bytes: &'b InputBytes,
    way: Way<'_>,
    files: &'b InputFiles<'b>,
    asked: bool,
    terminal: T,
    tells: &mut Tells<'_>,
    course: &mut Course,
    output: &mut W,
) -> Result<Summary, RunFault>
    requires bounds { AreInBounds files.now }
    requires counted { 1 ≤ bytes.now.processors }
    ensures report { (input : Option (List ℕ)) → WereRead files.now input bytes.now
        → (inputs : Inputs) × AreFor files.now input inputs
        × Writes (λ s. s.all_ok) suite_report inputs way.entry (W.account output.old)
        (W.account output.new) result }
    ensures quiet { IsQuiet tells.old → OnOk result (IsQuiet tells.new) }
    ensures unasked { IsUnasked course.old → OnOk result (IsUnasked course.new) }
{
    let shown = asked && terminal.is_terminal();
    let mut progress = show_progress(*rt, rt.alloc(), terminal, shown);
    let ran = run(rt, bytes, way, files, &mut progress, tells, course, output);
    // The inputs may have been refused before the run.
    progress.ends();
    ran
}

/// Runs in some way what these bytes are, as it is asked for with these files, and writes its
/// report.
fn run<'b, G: AllocGlobal + Clock + Threads + Wait + Sync, P: Progress, W: Sink>(
    rt: &G,
    bytes: &'b InputBytes,
    way: Way<'_>,
    files: &'b InputFiles<'b>,
    progress: &mut P,
    tells: &mut Tells<'_>,
    course: &mut Course,
    output: &mut W,
) -> Result<Summary, RunFault>
    requires bounds { AreInBounds files.now }
    requires counted { 1 ≤ bytes.now.processors }
    ensures report { (input : Option (List ℕ)) → WereRead files.now input bytes.now
        → (inputs : Inputs) × AreFor files.now input inputs
        × Writes (λ s. s.all_ok) suite_report inputs way.entry (W.account output.old)
        (W.account output.new) result }
    ensures quiet { IsQuiet tells.old → OnOk result (IsQuiet tells.new) }
    ensures unasked { IsUnasked course.old → OnOk result (IsUnasked course.new) }
{
    let shard = shard_of(files.shard);
    let scripts = lent(rt.alloc(), &bytes.scripts)?;
    let inputs = inputs_of(bytes, &scripts, files, shard);
    match way {
        Way::Serial => run_serial_shown(
            rt,
            rt.alloc(),
            inputs,
            Afterwards::Leave,
            progress,
            tells,
            course,
            output,
        ),
        Way::ByWorkers => run_workers_shown(
            rt,
            rt.alloc(),
            inputs,
            Afterwards::Leave,
            &OpenGate,
            progress,
            tells,
            course,
            output,
        ),
        Way::BySchedule(schedule) => run_schedule(rt.alloc(), inputs, schedule, tells, output),
    }
}

/// What is printed of a plan: its tests alone, its places, and why its modes and locks are so.
#[derive(Clone, Copy)]
pub(crate) struct Printed {
    pub tests: bool,
    pub places: bool,
    pub why: bool,
}

/// Prints who takes which key of what these bytes are, as it is asked for with these files.
fn conflicts<'b, W: Sink>(
    alloc: Global,
    bytes: &'b InputBytes,
    files: &'b InputFiles<'b>,
    output: &mut W,
) -> Result<Summary, RunFault>
    requires bounds { AreInBounds files.now }
    requires counted { 1 ≤ bytes.now.processors }
    ensures { (input : Option (List ℕ)) → WereRead files.now input bytes.now → (inputs : Inputs)
        × AreFor files.now input inputs
        × Writes (λ s. s.all_ok) suite_conflicts inputs Serial (W.account output.old)
        (W.account output.new) result }
{
    let shard = shard_of(files.shard);
    let scripts = lent(alloc, &bytes.scripts)?;
    let inputs = inputs_of(bytes, &scripts, files, shard);
    match show_conflicts(alloc, inputs, output) {
        Ok(()) => Ok(Summary { all_ok: true }),
        Err(fault) => Err(fault),
    }
}

/// Prints the plan of what these bytes are, as it is asked for with these files.
fn plan<'b, W: Sink>(
    alloc: Global,
    bytes: &'b InputBytes,
    printed: Printed,
    files: &'b InputFiles<'b>,
    output: &mut W,
) -> Result<Summary, RunFault>
    requires bounds { AreInBounds files.now }
    requires counted { 1 ≤ bytes.now.processors }
    ensures { (input : Option (List ℕ)) → WereRead files.now input bytes.now → (inputs : Inputs)
        × AreFor files.now input inputs
        × ((sites : List Site) × IfLate (end_of (λ s. s.all_ok) run_end result)
        (ArePlaces printed.places inputs sites)
        × Writes (λ s. s.all_ok) (plan_of printed (texts_of files.now.scripts.items) sites) inputs
        Serial (W.account output.old) (W.account output.new) result) }
{
    let shard = shard_of(files.shard);
    let scripts = lent(alloc, &bytes.scripts)?;
    let inputs = inputs_of(bytes, &scripts, files, shard);
    match print_plan(alloc, inputs, printed, &files.scripts, output) {
        Ok(()) => Ok(Summary { all_ok: true }),
        Err(fault) => Err(fault),
    }
}

/// Prints the plan of inputs, or its tests alone, without the places of their names or with them.
/// The names are those of the scripts.
fn print_plan<W: Sink>(
    alloc: Global,
    inputs: Inputs<'_>,
    printed: Printed,
    names: &[&str],
    output: &mut W,
) -> Result<(), RunFault>
    requires { 1 ≤ inputs.processors }
    ensures { (sites : List Site) × IfLate (end_of (λ _. true) run_end result)
        (ArePlaces printed.places inputs.entry sites)
        × Writes (λ _. true) (plan_of printed (texts_of names.now) sites) inputs.entry Serial
        (W.account output.old) (W.account output.new) result }
{
    let Printed { tests, places, why } = printed;
    if why {
        show_why(alloc, inputs, tests, places, names, output)
    } else if places {
        show_places(alloc, inputs, tests, names, output)
    } else if tests {
        show_tests(alloc, inputs, output)
    } else {
        show_plan(alloc, inputs, output)
    }
}

/// The inputs that these bytes are, whose scripts are lent, as they are asked for with these files
/// and this shard.
pub(crate) fn inputs_of<'b>(
    bytes: &'b InputBytes,
    scripts: &'b [&'b [u8]],
    files: &'b InputFiles<'b>,
    shard: Option<Shard>,
) -> Inputs<'b>
    ensures scripts { result.scripts.now ≡ scripts.now }
    ensures settings { result.settings.now ≡ bytes.now.settings.items }
    ensures world { result.world.now ≡ bytes.now.world.items }
    ensures only { result.only.now ≡ files.now.only.items }
    ensures patterns { result.patterns.now ≡ files.now.patterns.items }
    ensures listed { option_copied result.listed ≡ option_map (λ v. v.items) bytes.now.listed }
    ensures shard { result.shard ≡ shard }
    ensures processors { result.processors ≡ bytes.now.processors }
{
    Inputs {
        scripts,
        settings: &bytes.settings,
        world: &bytes.world,
        only: &files.only,
        patterns: &files.patterns,
        listed: bytes.listed.as_deref(),
        shard,
        processors: bytes.processors,
    }
}

/// The shard that the words ask for.
pub(crate) fn shard_of(asked: Option<AskedShard>) -> Option<Shard>
    requires { IsShard asked }
    ensures { option_map shard_asked result ≡ asked }
{
    match asked {
        Some(shard) => Shard::new(shard.number, shard.of),
        None => None,
    }
}

/// Answers a run whose report was written, once the output is flushed, what is asked for besides is
/// told and the files besides are written; or why it has none.
fn told<'a, G: AllocGlobal + Files, W: Sink, E: Sink>(
    rt: &G,
    ran: Result<Summary, RunFault>,
    bytes: InputBytes,
    files: &InputFiles<'a>,
    besides: &Besides<'_, 'a>,
    output: &mut W,
    errors: &mut E,
) -> Result<bool, CommandFault<'a>>
    requires bounds { AreInBounds files.now }
    requires counted { 1 ≤ bytes.processors }
    ensures answer { MatchResult ran
        (λ s. IsEnded s.all_ok (files_of besides.now) (W.account output.old)
        (W.account output.new) result)
        (λ fault. (W.account output.new ≡ W.account output.old)
        × IsErrAnd result (λ told. command_end told ≡ run_end fault)) }
    ensures said { OnOk result
        (IsSaid (parted false (parts_of files.now bytes.processors besides.now))
        (E.account errors.old) (E.account errors.new)) }
    ensures quiet { OnOk ran (IsQuiet besides.now.tells) → OnOk ran (IsUnasked besides.now.course)
        → NamesNone besides.now → errors.new ≡ errors.old }
{
    match ran {
        Ok(summary) => {
            let ok = flushed(summary.all_ok, output)?;
            let after = say_parts(besides, files, bytes.processors, errors);
            filed(rt, ok, besides, after, errors)
        }
        Err(fault) => {
            let github = besides.tells.github.is_some();
            let mending = ScriptMending::unasked();
            Err(named(rt.alloc(), fault, mending, bytes, files, github))
        }
    }
}

/// Flushes the output, and answers whether all is ok.
pub(crate) fn flushed<W: Sink>(ok: bool, output: &mut W) -> Result<bool, CommandFault<'static>>
    ensures { IsFlushed ok (W.account output.old) (W.account output.new) result }
{
    if output.flush().is_err() {
        return Err(CommandFault::Unwritten);
    }
    Ok(ok)
}

/// A fault of a run, with the word that it is of: the name of a script, where one is named, or what
/// names no class or test; and with what is told after it, also for GitHub, where that is asked for
/// and memory is left.
pub(crate) fn named<'a>(
    alloc: Global,
    fault: RunFault,
    mending: ScriptMending,
    bytes: InputBytes,
    files: &InputFiles<'a>,
    github: bool,
) -> CommandFault<'a>
    requires bounds { AreInBounds files.now }
    requires counted { 1 ≤ bytes.processors }
    ensures { command_end result ≡ run_end fault }
{
    let text = after_fault(alloc, &fault, mending, &bytes, files, github);
    match fault {
        RunFault::Plan(PlanFault::NotSelected(index)) => not_selected(index, bytes, files, text),
        RunFault::Script(index, _) => {
            CommandFault::Run(fault, files.scripts.get(index).copied(), text)
        }
        _ => CommandFault::Run(fault, None, text),
    }
}

/// The fault of a path or a pattern that names nothing, by its number among those of the words, and
/// after them those of the file; with what mends it, where that is known.
fn not_selected<'a>(
    index: usize,
    bytes: InputBytes,
    files: &InputFiles<'a>,
    text: Option<MemorySink>,
) -> CommandFault<'a>
    ensures { command_end result ≡ Refuses }
{
    let (only, patterns) = (files.only.len(), files.patterns.len());
    let word = if index < only {
        files.only.get(index).copied()
    } else {
        files.patterns.get(index - only).copied()
    };
    let InputBytes { listed, .. } = bytes;
    match listed {
        Some(file) if word.is_none() => CommandFault::NotListed(
            file,
            index.saturating_sub(only + patterns),
            text,
        ),
        _ => CommandFault::Run(RunFault::Plan(PlanFault::NotSelected(index)), word, text),
    }
}
