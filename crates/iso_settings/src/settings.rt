ghost use Rattle.std.specs.Prelude.{◌≡◌, ◌≤◌, ◌↔◌, IfOk, IfSome, IsTrue};
ghost use Rattle.std.specs.Int.{IsInRange};
ghost use Rattle.toml.specs.Parse.{parse_document};
ghost use Rattle.toml.specs.View.{table_view};
ghost use Rattle.iso_settings.specs.Leaves.{leaves};
ghost use Rattle.iso_settings.specs.Readings.{Gives};
ghost use Rattle.iso_settings.specs.Settings.{settings_in, settings_of, workers};

use crate::fault::{SettingsError, SettingsFault};
use crate::rules::{count, flag, lifecycle, mode, strategy};
use crate::table::read_table;
use iso_model::limits::WORKERS;
use iso_model::script::Mode;
use std::alloc::Global;
use toml::Table;

/// Settings of a run, by JUnit 5's configuration parameters of parallel execution.
#[derive(Clone, Copy)]
pub struct Settings {
    /// Whether parallel execution is on.
    pub parallel: bool,
    /// The execution mode of a node without a mark that is no top-level class.
    pub default_mode: Mode,
    /// The execution mode of a top-level class without a mark.
    pub classes_default_mode: Mode,
    /// The number of workers, 1 to 64.
    pub worker_count: u32,
}

impl Settings {
    /// The number of workers of the run.
    pub fn workers(self) -> u32
        ensures { result ≡ self.worker_count }
    {
        self.worker_count
    }

    /// Whether two settings are the same.
    pub fn same(self, other: Settings) -> bool
        ensures { IsTrue result ↔ (self ≡ other) }
    {
        self.parallel == other.parallel
            && self.default_mode == other.default_mode
            && self.classes_default_mode == other.classes_default_mode
            && self.worker_count == other.worker_count
    }
}

/// How the number of workers is chosen.
#[derive(Clone, Copy)]
pub(crate) enum Strategy {
    /// By the number of processors and a factor.
    Dynamic,
    /// By the parallelism.
    Fixed,
}

/// Reads settings from a TOML document, on a machine of `processors` processors.
pub fn read_settings(alloc: Global, text: &str, processors: u32) -> Result<Settings, SettingsError>
    requires { 1 ≤ processors }
    ensures exact { Gives (settings_in (parse_document text.now) processors) result }
    ensures within { IfOk result (λ settings. IsInRange 1 64 settings.worker_count) }
{
    let table = read_table(alloc, text)?;
    settings_of(alloc, &table, processors)
}

/// The settings of a table.
fn settings_of(alloc: Global, table: &Table, processors: u32) -> Result<Settings, SettingsError>
    requires { 1 ≤ processors }
    ensures exact { Gives (settings_of (leaves (table_view table.now)) processors) result }
    ensures within { IfOk result (λ settings. IsInRange 1 64 settings.worker_count) }
{
    let parallel = flag(alloc, table, "junit.jupiter.execution.parallel.enabled")?.unwrap_or(false);
    let default_mode = mode(
        alloc,
        table,
        "junit.jupiter.execution.parallel.mode.default",
    )?
    .unwrap_or(Mode::SameThread);
    let classes_default_mode = mode(
        alloc,
        table,
        "junit.jupiter.execution.parallel.mode.classes.default",
    )?
    .unwrap_or(default_mode);
    let strategy = strategy(
        alloc,
        table,
        "junit.jupiter.execution.parallel.config.strategy",
    )?
    .unwrap_or(Strategy::Dynamic);
    let factor = count(
        alloc,
        table,
        "junit.jupiter.execution.parallel.config.dynamic.factor",
    )?
    .unwrap_or(1);
    let parallelism = count(
        alloc,
        table,
        "junit.jupiter.execution.parallel.config.fixed.parallelism",
    )?;
    lifecycle(alloc, table, "junit.jupiter.testinstance.lifecycle.default")?;
    Ok(Settings {
        parallel,
        default_mode,
        classes_default_mode,
        worker_count: worker_count(parallel, strategy, factor, parallelism, processors)?,
    })
}

/// How many workers a run has.
fn worker_count(
    parallel: bool,
    strategy: Strategy,
    factor: u32,
    parallelism: Option<u32>,
    processors: u32,
) -> Result<u32, SettingsError>
    requires processors { 1 ≤ processors }
    requires factor { IsInRange 1 64 factor }
    requires parallelism { IfSome parallelism (IsInRange 1 64) }
    ensures exact { Gives (workers parallel strategy factor parallelism processors) result }
    ensures within { IfOk result (IsInRange 1 64) }
{
    match (parallel, strategy, parallelism) {
        (false, _, _) => Ok(1),
        (true, Strategy::Dynamic, _) => Ok(processors.saturating_mul(factor).min(WORKERS)),
        (true, Strategy::Fixed, Some(parallelism)) => Ok(parallelism),
        (true, Strategy::Fixed, None) => Err(SettingsError::Fault(
            SettingsFault::MissingParallelism,
        )),
    }
}
