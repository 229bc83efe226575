//! One of the two states that a change is told of.
ghost use Rattle.std.specs.Prelude.{◌≡◌, ◌≤◌, IfErr, IfOk, List, Option, map, ℕ};
ghost use Rattle.iso_affected_text.specs.Changes.{IsSide};
ghost use Rattle.iso_arguments.specs.RequestBounds.{AreInBounds};
ghost use Rattle.iso_places.specs.LineStarts.{line_starts};
ghost use Rattle.iso_plan.specs.KeptNodes.{texts_of};
ghost use Rattle.iso_run.specs.Commands.{AreFor, IsReady, IsStateOf, WereRead};
ghost use Rattle.iso_run.specs.ExitStatuses.{ComesEarly};
ghost use Rattle.iso_run.specs.declared.inputs.Inputs.{Inputs};

use crate::command::named;
use crate::command_fault::CommandFault;
use crate::files::InputBytes;
use crate::inputs::Suite;
use crate::mending::suite_of;
use crate::plan::sites_of;
use crate::script_mending::ScriptMending;
use iso_affected_text::change::Side;
use iso_affected_text::paths::plan_paths;
use iso_arguments::request::InputFiles;
use iso_model::text::Text;
use iso_places::lines::LineTable;
use iso_places::site::Sites;
use std::alloc::{AllocError, Global};

/// A suite with the bytes that it was read from, its nodes' places in these bytes and their paths,
/// and the tables of its scripts' lines.
#[derive(Drop)]
pub(crate) struct State {
    pub bytes: InputBytes,
    pub suite: Suite,
    pub sites: Sites,
    pub paths: Vec<Text>,
    pub tables: Vec<LineTable>,
}

/// The state that these bytes are, or the first fault of the inputs.
pub(crate) fn state_of<'a>(
    alloc: Global,
    bytes: InputBytes,
    files: &InputFiles<'a>,
) -> Result<State, CommandFault<'a>>
    requires bounds { AreInBounds files.now }
    requires counted { 1 ≤ bytes.processors }
    ensures read { (input : Option (List ℕ)) → WereRead files.now input bytes
        → IfOk result (λ state. (inputs : Inputs)
        × AreFor files.now input inputs × IsStateOf inputs state) }
    ensures early { IfErr result ComesEarly }
    ensures ready { IfOk result IsReady }
{
    let mut mending = ScriptMending::new(files.explain);
    match suite_of(alloc, &bytes, &*files, &mut mending) {
        Ok(suite) => {
            let Ok(sites) = sites_of(alloc, &suite) else {
                return Err(CommandFault::out_of_memory());
            };
            Ok(State {
                sites,
                paths: plan_paths(alloc, &suite.plan)?,
                tables: tables_of(alloc, &bytes.scripts)?,
                bytes,
                suite,
            })
        }
        Err(fault) => Err(named(alloc, fault, mending, bytes, files, false)),
    }
}

/// The tables of the lines of scripts.
fn tables_of(alloc: Global, scripts: &[Vec<u8>]) -> Result<Vec<LineTable>, AllocError>
    ensures { IfOk result (λ tables. tables.items
        ≡ map line_starts (map (λ v. v.items) scripts.now)) }
{
    let mut tables = Vec::new(alloc);
    for script in scripts {
        tables.push(LineTable::new(alloc, script)?)?;
    }
    Ok(tables)
}

impl State {
    /// The state, lent as one of two suites with the bytes of its scripts.
    pub fn side<'s>(&'s self, texts: &'s [&'s [u8]]) -> Side<'s>
        requires ready { IsReady self.now }
        requires texts { texts_of texts.now ≡ map (λ v. v.items) self.now.bytes.scripts.items }
        ensures side { IsSide result }
        ensures plan { result.plan.now ≡ self.now.suite.plan }
        ensures sites { result.sites.now ≡ self.now.sites }
        ensures texts { result.texts.now ≡ texts.now }
    {
        Side {
            plan: &self.suite.plan,
            sites: &self.sites,
            paths: &self.paths,
            texts,
            tables: &self.tables,
        }
    }
}
