//! The subcommands and options, as `clap` reads and explains them.
use clap::{Arg, ArgAction, Command};
use std::alloc::{AllocError, Global};

static ABOUT: &str =
    "Runs scripted test classes in parallel, each as if alone, and reports in TAP 14.

Without any word, `jtap` is `jtap run`, and reads a script from standard input.";

static FIRST_PAGE_END: &str = "Example:
  jtap run --settings junit.toml --world start.toml cart.jtap desk.jtap

Exit status:
  0  every top-level point is ok, or a plan, a help or a version was printed
  1  some top-level point is not ok
  2  refused input: words, settings, world, scripts, plan or schedule
  3  out of memory, a file that can't be read, a failed write, or a worker
     that can't be started";

static RUN_END: &str = "Examples:
  jtap run --settings junit.toml --world start.toml cart.jtap desk.jtap
  jtap run --only shop.Cart.adds --only shop.Desk cart.jtap desk.jtap
  jtap run --match '*.adds*' --shard 2/3 cart.jtap desk.jtap";

static PLAN_END: &str = "Examples:
  jtap plan --settings junit.toml cart.jtap
  jtap plan --tests --match 'shop.*' cart.jtap
  jtap plan --tests --places cart.jtap
  jtap plan --why --only shop.Cart.adds cart.jtap
  jtap plan --conflicts --settings junit.toml cart.jtap desk.jtap";

static REPLAY_END: &str = "Example:
  jtap replay --schedule cart.schedule --settings junit.toml cart.jtap";

static CHECK_END: &str = "Example:
  jtap check --explain --settings junit.toml cart.jtap desk.jtap";

static AFFECTED_END: &str = "Examples:
  jtap affected --old ../base --world start.toml cart.jtap desk.jtap
  jtap affected --old ../base --paths cart.jtap desk.jtap > first.txt";

static SETTINGS_END: &str = "Example:
  jtap settings --settings junit.toml --processors auto";

static PROCESSORS: &str = "Processors to count with, 1 to 1024, or `auto`
for those of the machine [default: 1]";

static EXPLAIN: &str = "Tell after a fault's line what mends it";

static ONLY: &str = "Class or test to keep, with all in it, by its path as
`jtap plan` prints it; may be repeated [default: all]";

static MATCH: &str = "Keep each class or test whose whole path this matches,
where `*` stands for any bytes; may be repeated";

static ONLY_FROM: &str = "Keep the classes and tests whose paths stand in FILE,
one a line; `-` is standard input";

static SHARD: &str = "Keep every K-th top-level class of those kept,
beginning with the I-th";

static PLACES: &str = "Add to each line where the name stands,
as FILE:LINE:COLUMN";

static WHY: &str = "Tell below each line what gave the mode, and which
nodes gave each lock";

static CONFLICTS: &str = "Print who takes each key, and how many tests wait
for one another, in place of nodes";

static SUMMARY: &str = "Tell on standard error what failed, with file and
line; with `=all` what was skipped, too";

static OLD: &str = "Folder of the older state, below which each SCRIPT
and the world stand by the same names";

static PATHS: &str = "Print the paths of changed and new classes and tests
alone, one a line, for `--only-from`";

/// The value that `--summary` may have.
static SUMMARIZED: &[&str] = &["all"];

static FAILED: &str = "Write the paths of failed classes and tests to
FILE, one a line, for `--only-from`";

static JUNIT: &str = "Write the results to FILE as JUnit's XML, which
Jenkins and GitLab show";

static HTML: &str = "Write the results to FILE as a page to look at,
with what ran beside what";

static GITHUB: &str = "Tell GitHub Actions, on standard error, at which
lines classes and tests failed";

static DURATIONS: &str = "Tell on standard error the N slowest classes and
tests, with their times; with 0 all";

static RECORD: &str = "Write the events of the run to FILE, one a line, for
`jtap replay --schedule`";

static TRACE: &str = "Write to FILE when each worker ran what, as a trace
that Perfetto and Chrome show";

static STATS: &str = "Tell on standard error how busy the workers were,
and for which key tests waited longest";

static PROGRESS: &str = "Show on standard error how far the run has come,
if that is a terminal";

/// The whole command line. The words begin with the subcommand's name.
pub(crate) fn command_line<'a>(alloc: Global) -> Result<Command<'a>, AllocError> {
    let command = with_subcommand(first_page(alloc), run(alloc));
    let command = with_subcommand(command, plan(alloc));
    let command = with_subcommand(command, replay(alloc));
    let command = with_subcommand(command, check(alloc));
    let command = with_subcommand(command, affected(alloc));
    with_subcommand(command, show_settings(alloc))
}

/// What there is without a subcommand.
fn first_page<'a>(alloc: Global) -> Result<Command<'a>, AllocError> {
    Command::new(alloc, "jtap")
        .no_binary_name(true)
        .version("0.2.13")
        .about(ABOUT)
        .after_help(FIRST_PAGE_END)
        .disable_help_subcommand(true)
        .bin_name("jtap")
}

/// A command with one more subcommand, if both could be made.
fn with_subcommand<'a>(
    command: Result<Command<'a>, AllocError>,
    subcommand: Result<Command<'a>, AllocError>,
) -> Result<Command<'a>, AllocError> {
    command?.subcommand(subcommand?)
}

/// The subcommand that runs scripts.
fn run<'a>(alloc: Global) -> Result<Command<'a>, AllocError> {
    let about = "Run scripts, and write their report in TAP 14 to standard output";
    let command = subcommand(alloc, "run", about, RUN_END);
    let command = with_inputs(alloc, command.arg(serial(alloc)));
    with_observations(alloc, with_extras(alloc, command))
}

/// The subcommand that prints the plan.
fn plan<'a>(alloc: Global) -> Result<Command<'a>, AllocError> {
    let about = "Print how scripts would run: workers, and each node's mode and locks";
    let command = subcommand(alloc, "plan", about, PLAN_END);
    let command = command.arg(tests(alloc))?.arg(places(alloc))?;
    let command = command.arg(why(alloc))?.arg(conflicts(alloc)?);
    with_inputs(alloc, command)
}

/// The subcommand that replays a schedule.
fn replay<'a>(alloc: Global) -> Result<Command<'a>, AllocError> {
    let about = "Replay a recorded schedule, and write the report as `run` does";
    let command = subcommand(alloc, "replay", about, REPLAY_END);
    with_extras(alloc, with_inputs(alloc, command.arg(schedule(alloc))))
}

/// The subcommand that tells what is wrong.
fn check<'a>(alloc: Global) -> Result<Command<'a>, AllocError> {
    let about = "Tell on standard error what is wrong with each file, and run nothing";
    with_inputs(alloc, Ok(subcommand(alloc, "check", about, CHECK_END)))
}

/// The subcommand that tells what a change can alter.
fn affected<'a>(alloc: Global) -> Result<Command<'a>, AllocError> {
    let about = "Print which classes and tests a change can alter, and why";
    subcommand(alloc, "affected", about, AFFECTED_END)
        .arg(old(alloc))?
        .arg(world(alloc))?
        .arg(paths(alloc))?
        .arg(explain(alloc))?
        .arg(scripts_of_both(alloc))
}

/// The subcommand that prints settings.
fn show_settings<'a>(alloc: Global) -> Result<Command<'a>, AllocError> {
    let about = "Print what settings come to: each key's value, and how many workers";
    subcommand(alloc, "settings", about, SETTINGS_END)
        .arg(settings(alloc))?
        .arg(processors(alloc))?
        .arg(explain(alloc))
}

/// A subcommand without options.
fn subcommand<'a>(alloc: Global, name: &'a str, about: &'a str, end: &'a str) -> Command<'a> {
    Command::new(alloc, name).about(about).after_help(end)
}

/// A command with the options for what is told besides a report, if it could be made.
fn with_extras<'a>(
    alloc: Global,
    command: Result<Command<'a>, AllocError>,
) -> Result<Command<'a>, AllocError> {
    command?
        .arg(summary(alloc))?
        .arg(file(alloc, "failed", FAILED))?
        .arg(file(alloc, "junit", JUNIT))?
        .arg(file(alloc, "html", HTML))?
        .arg(github(alloc))
}

/// A command with the options for what can be told of a run alone, if it could be made.
fn with_observations<'a>(
    alloc: Global,
    command: Result<Command<'a>, AllocError>,
) -> Result<Command<'a>, AllocError> {
    command?
        .arg(durations(alloc))?
        .arg(file(alloc, "record", RECORD))?
        .arg(file(alloc, "trace", TRACE))?
        .arg(stats(alloc))?
        .arg(progress(alloc))
}

/// A command with the options for what it reads, if it could be made.
fn with_inputs<'a>(
    alloc: Global,
    command: Result<Command<'a>, AllocError>,
) -> Result<Command<'a>, AllocError> {
    let command = with_selection(alloc, with_start(alloc, command));
    command?.arg(explain(alloc))?.arg(scripts(alloc))
}

/// A command with the options for what a run begins with, if it could be made.
fn with_start<'a>(
    alloc: Global,
    command: Result<Command<'a>, AllocError>,
) -> Result<Command<'a>, AllocError> {
    command?
        .arg(settings(alloc))?
        .arg(world(alloc))?
        .arg(processors(alloc))
}

/// A command with the options for which classes and tests are kept, if it could be made.
fn with_selection<'a>(
    alloc: Global,
    command: Result<Command<'a>, AllocError>,
) -> Result<Command<'a>, AllocError> {
    command?
        .arg(only(alloc))?
        .arg(pattern(alloc))?
        .arg(only_from(alloc))?
        .arg(shard(alloc))
}

fn serial<'a>(alloc: Global) -> Arg<'a> {
    Arg::new(alloc, "serial")
        .long("serial")
        .action(ArgAction::SetTrue)
        .help("Run every class and test in order on one thread")
}

fn tests<'a>(alloc: Global) -> Arg<'a> {
    Arg::new(alloc, "tests")
        .long("tests")
        .action(ArgAction::SetTrue)
        .help("Print the lines of tests alone")
}

fn places<'a>(alloc: Global) -> Arg<'a> {
    Arg::new(alloc, "places")
        .long("places")
        .action(ArgAction::SetTrue)
        .help(PLACES)
}

fn why<'a>(alloc: Global) -> Arg<'a> {
    Arg::new(alloc, "why")
        .long("why")
        .action(ArgAction::SetTrue)
        .help(WHY)
}

fn conflicts<'a>(alloc: Global) -> Result<Arg<'a>, AllocError> {
    Arg::new(alloc, "conflicts")
        .long("conflicts")
        .action(ArgAction::SetTrue)
        .help(CONFLICTS)
        .conflicts_with("tests")?
        .conflicts_with("places")?
        .conflicts_with("why")
}

fn schedule<'a>(alloc: Global) -> Arg<'a> {
    file(alloc, "schedule", "Events to replay, one a line").required(true)
}

fn old<'a>(alloc: Global) -> Arg<'a> {
    Arg::new(alloc, "old")
        .long("old")
        .value_name("DIR")
        .required(true)
        .help(OLD)
}

fn paths<'a>(alloc: Global) -> Arg<'a> {
    Arg::new(alloc, "paths")
        .long("paths")
        .action(ArgAction::SetTrue)
        .help(PATHS)
}

fn summary<'a>(alloc: Global) -> Arg<'a> {
    Arg::new(alloc, "summary")
        .long("summary")
        .value_name("WHAT")
        .num_args(0..=1)
        .require_equals(true)
        .value_parser(SUMMARIZED)
        .hide_possible_values(true)
        .help(SUMMARY)
}

fn github<'a>(alloc: Global) -> Arg<'a> {
    Arg::new(alloc, "github")
        .long("github")
        .action(ArgAction::SetTrue)
        .help(GITHUB)
}

fn durations<'a>(alloc: Global) -> Arg<'a> {
    Arg::new(alloc, "durations")
        .long("durations")
        .value_name("N")
        .help(DURATIONS)
}

fn stats<'a>(alloc: Global) -> Arg<'a> {
    Arg::new(alloc, "stats")
        .long("stats")
        .action(ArgAction::SetTrue)
        .help(STATS)
}

fn progress<'a>(alloc: Global) -> Arg<'a> {
    Arg::new(alloc, "progress")
        .long("progress")
        .action(ArgAction::SetTrue)
        .help(PROGRESS)
}

fn settings<'a>(alloc: Global) -> Arg<'a> {
    file(
        alloc,
        "settings",
        "Settings in TOML, by JUnit's keys [default: none set]",
    )
}

fn world<'a>(alloc: Global) -> Arg<'a> {
    file(
        alloc,
        "world",
        "Starting values, in TOML [default: none set]",
    )
}

/// An option that names a file.
fn file<'a>(alloc: Global, name: &'a str, help: &'a str) -> Arg<'a> {
    Arg::new(alloc, name)
        .long(name)
        .value_name("FILE")
        .help(help)
}

fn processors<'a>(alloc: Global) -> Arg<'a> {
    Arg::new(alloc, "processors")
        .long("processors")
        .value_name("N")
        .help(PROCESSORS)
}

fn explain<'a>(alloc: Global) -> Arg<'a> {
    Arg::new(alloc, "explain")
        .long("explain")
        .action(ArgAction::SetTrue)
        .help(EXPLAIN)
}

fn only<'a>(alloc: Global) -> Arg<'a> {
    Arg::new(alloc, "only")
        .long("only")
        .value_name("PATH")
        .action(ArgAction::Append)
        .help(ONLY)
}

fn pattern<'a>(alloc: Global) -> Arg<'a> {
    Arg::new(alloc, "match")
        .long("match")
        .value_name("PATTERN")
        .action(ArgAction::Append)
        .help(MATCH)
}

fn only_from<'a>(alloc: Global) -> Arg<'a> {
    file(alloc, "only-from", ONLY_FROM)
}

fn shard<'a>(alloc: Global) -> Arg<'a> {
    Arg::new(alloc, "shard")
        .long("shard")
        .value_name("I/K")
        .help(SHARD)
}

fn scripts<'a>(alloc: Global) -> Arg<'a> {
    Arg::new(alloc, "scripts")
        .value_name("SCRIPT")
        .num_args(0..)
        .action(ArgAction::Append)
        .help("Scripts to read, in this order [default: standard input]")
}

fn scripts_of_both<'a>(alloc: Global) -> Arg<'a> {
    Arg::new(alloc, "scripts")
        .value_name("SCRIPT")
        .required(true)
        .num_args(1..)
        .action(ArgAction::Append)
        .help("Scripts to read, in this order, here and below DIR")
}
