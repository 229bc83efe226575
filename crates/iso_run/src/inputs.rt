//! What a run is given, read as a suite.
ghost use Rattle.std.specs.Int.{IsInRange};
ghost use Rattle.std.specs.Prelude.{◌≡◌, ◌≤◌, ◌++◌, ◌∷◌, [], IfErr, IfOk, List, MatchResult, map, true};
ghost use Rattle.iso_model.specs.ScriptView.{script_of};
ghost use Rattle.iso_script.specs.NoScript.{HasScriptFault, UnlessMemory};
ghost use Rattle.iso_script.specs.Grammar.{Reads, ReadsPlaced};
ghost use Rattle.iso_script.specs.declared.place.NodePlace as P;
ghost use Rattle.iso_run.specs.Runs.{IsRead};
ghost use Rattle.iso_places.specs.Sites.{places_in};
ghost use Rattle.iso_telling.specs.Written.{ArePlaced};
ghost use Rattle.iso_run.specs.Suites.{AreRead, AreSet, NoSuite, settings_from, texts, world_from};
ghost use Rattle.iso_settings.specs.Readings.{Gives};

use crate::kept::plan_kept;
use crate::run_fault::RunFault;
use crate::script_mending::ScriptMending;
use iso_model::script::Script;
use iso_plan::fault::PlanError;
use iso_plan::plan::Plan;
use iso_script::explain::{Unread, read_or_why};
use iso_script::fault::ScriptError;
use iso_script::place::NodePlace;
use iso_script::reader::{PlacedScript, read_placed, read_script};
use iso_selection::shard::Shard;
use iso_settings::fault::{SettingsError, SettingsFault};
use iso_settings::settings::{Settings, read_settings};
use iso_settings::world::{World, read_world};
use std::alloc::Global;

/// What a run is given: the bytes of each script, of the settings and of the world, what is kept of
/// the scripts, and how many processors there are, at least 1.
#[derive(Clone, Copy)]
pub struct Inputs<'a> {
    pub scripts: &'a [&'a [u8]],
    pub settings: &'a [u8],
    pub world: &'a [u8],
    /// The paths of classes and tests that are kept.
    pub only: &'a [&'a str],
    /// The patterns of the paths of others.
    pub patterns: &'a [&'a str],
    /// The bytes of a file in which the paths of others stand, one a line. Without it, and where no
    /// path and no pattern is given, all classes and tests are kept.
    pub listed: Option<&'a [u8]>,
    /// What part of the top-level classes is kept of these. Without it each is.
    pub shard: Option<Shard>,
    pub processors: u32,
}

/// What inputs are: scripts, settings, the values that resources start with, and the plan of what
/// is kept of the scripts under the settings.
#[derive(Drop)]
pub struct Suite {
    pub scripts: Vec<Script>,
    /// Where the classes and tests of each script stand, in written order, where their places are
    /// kept.
    pub places: Vec<Vec<NodePlace>>,
    pub settings: Settings,
    pub world: World,
    pub plan: Plan,
}

/// Reads inputs as a suite: the settings, the world and the scripts in turn, and plans what is kept
/// of the scripts. The first fault in this order is answered. Settings or a world that isn't UTF-8
/// is `NotToml`. Where places are asked for, those of the classes and tests of each script are
/// kept. Out of memory may be answered at each growth.
pub fn read_inputs(alloc: Global, inputs: Inputs<'_>, places: bool) -> Result<Suite, RunFault>
    requires { 1 ≤ inputs.processors }
    ensures { MatchResult result (IsRead inputs.entry places) (NoSuite inputs.entry) }
{
    read_explained(alloc, inputs, places, &mut ScriptMending::unasked())
}

/// Reads inputs as `read_inputs` does. Where places are asked for, it is told what mends the first
/// script that is none, if that is asked for.
pub(crate) fn read_explained(
    alloc: Global,
    inputs: Inputs<'_>,
    places: bool,
    mending: &mut ScriptMending,
) -> Result<Suite, RunFault>
    requires { 1 ≤ inputs.processors }
    ensures { MatchResult result (IsRead inputs.entry places) (NoSuite inputs.entry) }
{
    let settings = match settings_from(alloc, inputs.settings, inputs.processors) {
        Ok(settings) => settings,
        Err(SettingsError::Fault(fault)) => {
            return Err(RunFault::Settings(fault));
        }
        Err(SettingsError::OutOfMemory) => return Err(RunFault::Memory),
    };
    let world = match world_from(alloc, inputs.world) {
        Ok(world) => world,
        Err(SettingsError::Fault(fault)) => {
            return Err(RunFault::World(fault));
        }
        Err(SettingsError::OutOfMemory) => return Err(RunFault::Memory),
    };
    let read = read_scripts(alloc, inputs, places, mending)?;
    match plan_kept(alloc, &read.scripts, &settings, inputs) {
        Ok(plan) => Ok(Suite {
            scripts: read.scripts,
            places: read.places,
            settings,
            world,
            plan,
        }),
        Err(PlanError::OutOfMemory) => Err(RunFault::Memory),
        Err(PlanError::Fault(fault)) => Err(RunFault::Plan(fault)),
    }
}

/// Reads settings, on a machine of `processors` processors.
pub(crate) fn settings_from(
    alloc: Global,
    bytes: &[u8],
    processors: u32,
) -> Result<Settings, SettingsError>
    requires { 1 ≤ processors }
    ensures exact { Gives (settings_from bytes.now processors) result }
    ensures within { IfOk result (λ settings. IsInRange 1 64 settings.worker_count) }
{
    match str::from_utf8(bytes) {
        Ok(text) => read_settings(alloc, text, processors),
        Err(_) => Err(SettingsError::Fault(SettingsFault::NotToml)),
    }
}

/// Reads a world.
pub(crate) fn world_from(alloc: Global, bytes: &[u8]) -> Result<World, SettingsError>
    ensures { Gives (world_from bytes.now) result }
{
    match str::from_utf8(bytes) {
        Ok(text) => read_world(alloc, text),
        Err(_) => Err(SettingsError::Fault(SettingsFault::NotToml)),
    }
}

/// Scripts that were read, and the places of what stands in each, where they are kept.
#[derive(Drop)]
struct ReadScripts {
    scripts: Vec<Script>,
    places: Vec<Vec<NodePlace>>,
}

/// Reads the scripts of inputs in turn, up to the first that is none, and keeps places, if it is
/// to. Settings and world are read before.
fn read_scripts(
    alloc: Global,
    inputs: Inputs<'_>,
    keeps: bool,
    mending: &mut ScriptMending,
) -> Result<ReadScripts, RunFault>
    requires { AreSet inputs }
    ensures scripts { MatchResult result
        (λ r. AreRead (texts inputs.entry.scripts.now) (map script_of r.scripts.items))
        (NoSuite inputs.entry) }
    ensures places { IfOk result (λ r. keeps ≡ true
        → ArePlaced (texts inputs.entry.scripts.now) (map script_of r.scripts.items)
        (places_in r.places.items)) }
{
    let mut read = ReadScripts {
        scripts: Vec::new(alloc),
        places: Vec::new(alloc),
    };
    for (index, bytes) in inputs.scripts.iter().enumerate() {
        match read_one(alloc, bytes, keeps, &mut read.places, mending) {
            Ok(script) => read.scripts.push(script)?,
            Err(ScriptError::Fault(fault)) => {
                return Err(RunFault::Script(index, fault));
            }
            Err(ScriptError::OutOfMemory) => return Err(RunFault::Memory),
        }
    }
    Ok(read)
}

/// Reads a script, and adds the places of its classes and tests, where they are kept. Of bytes that
/// are none it is told what mends them, where that is asked for.
fn read_one(
    alloc: Global,
    bytes: &[u8],
    keeps: bool,
    places: &mut Vec<Vec<NodePlace>>,
    mending: &mut ScriptMending,
) -> Result<Script, ScriptError>
    ensures found { IfOk result (λ s. Reads bytes.now (script_of s)) }
    ensures fault { IfErr result (UnlessMemory (HasScriptFault bytes.now)) }
    ensures places { keeps ≡ true
        → IfOk result (λ s. (more : List P.NodePlace) × ReadsPlaced bytes.now (script_of s) more
        × (places_in places.new.items ≡ places_in places.old.items ++ more ∷ [])) }
{
    if !keeps {
        return read_script(alloc, bytes);
    }
    let PlacedScript {
        script,
        places: more,
    } = placed(alloc, bytes, mending)?;
    places.push(more)?;
    Ok(script)
}

/// Reads a script with the places of its classes and tests. Of bytes that are none it is told what
/// mends them, where that is asked for.
pub(crate) fn placed(
    alloc: Global,
    bytes: &[u8],
    mending: &mut ScriptMending,
) -> Result<PlacedScript, ScriptError>
    ensures found { IfOk result (λ p. ReadsPlaced bytes.now (script_of p.script) p.places.items) }
    ensures fault { IfErr result (UnlessMemory (HasScriptFault bytes.now)) }
{
    if !mending.is_asked() {
        return read_placed(alloc, bytes);
    }
    match read_or_why(alloc, bytes, true) {
        Ok(placed) => Ok(placed),
        Err(Unread::OutOfMemory) => Err(ScriptError::OutOfMemory),
        Err(Unread::Refused(explained)) => {
            mending.explain(alloc, bytes, &explained);
            Err(ScriptError::Fault(explained.fault))
        }
    }
}
