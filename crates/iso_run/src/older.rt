//! The files of an older state, which stand by the same names below a folder.
ghost use Rattle.std.specs.Prelude.{◌≡◌, [], IfErr, IfOk, None, length, map};
ghost use Rattle.std.specs.Option.{option_copied, option_map};
ghost use Rattle.iso_arguments.specs.RequestBounds.{AreInBounds};
ghost use Rattle.iso_plan.specs.KeptNodes.{texts_of};
ghost use Rattle.iso_run.specs.Alterations.{AreBelow, below};
ghost use Rattle.iso_run.specs.Commands.{WereRead};
ghost use Rattle.iso_run.specs.ExitStatuses.{ComesEarly, GaveUp};

use crate::command_fault::CommandFault;
use crate::files::{InputBytes, read_limited, unread};
use iso_arguments::request::InputFiles;
use iso_model::limits::FILE_BYTES;
use iso_model::text::Text;
use std::alloc::{AllocError, AllocGlobal, Global};
use std::fs::{File, Files};
use std::io;

/// A script without classes. It stands for one that isn't there, so that those behind it keep their
/// numbers.
const NO_SCRIPT: &str = "team gone\n";

/// The names of files below a folder.
#[derive(Drop)]
pub(crate) struct OlderNames {
    pub scripts: Vec<Text>,
    pub world: Option<Text>,
}

/// The names below a folder of these scripts and this world.
pub(crate) fn names_below(
    alloc: Global,
    folder: &str,
    files: &InputFiles<'_>,
) -> Result<OlderNames, AllocError>
    ensures scripts { IfOk result (λ names. names.scripts.items
        ≡ map (below folder.now) (texts_of files.now.scripts.items)) }
    ensures world { IfOk result (λ names. names.world
        ≡ option_map (below folder.now) (option_copied files.now.world)) }
{
    let scripts = all_below(alloc, folder, &files.scripts)?;
    let world = match files.world {
        Some(name) => Some(name_below(alloc, folder, name)?),
        None => None,
    };
    Ok(OlderNames { scripts, world })
}

/// Names below a folder.
fn all_below(alloc: Global, folder: &str, names: &[&str]) -> Result<Vec<Text>, AllocError>
    ensures { IfOk result (λ all. all.items ≡ map (below folder.now) (texts_of names.now)) }
{
    let mut all = Vec::new(alloc);
    for name in names {
        all.push(name_below(alloc, folder, name)?)?;
    }
    Ok(all)
}

/// A name below a folder.
fn name_below(alloc: Global, folder: &str, name: &str) -> Result<Text, AllocError>
    ensures { IfOk result (λ text. text ≡ below folder.now name.now) }
{
    Ok(Text::new(format!(in alloc; "{folder}/{name}")?))
}

/// The files of these names, of which nothing else is asked.
pub(crate) fn older_files<'n>(
    alloc: Global,
    names: &'n OlderNames,
    explain: bool,
) -> Result<InputFiles<'n>, AllocError>
    ensures scripts { IfOk result (λ files. texts_of files.scripts.items
        ≡ names.now.scripts.items) }
    ensures world { IfOk result (λ files. option_copied files.world ≡ names.now.world) }
    ensures all { IfOk result (λ files. (files.only.items ≡ []) × (files.patterns.items ≡ [])
        × (files.only_from ≡ None)) }
    ensures whole { IfOk result (λ files. (files.shard ≡ None) × (files.processors ≡ None)) }
    ensures bounds { IfOk result AreInBounds }
{
    let world = match &names.world {
        Some(name) => Some(name.as_str()),
        None => None,
    };
    Ok(InputFiles {
        settings: None,
        world,
        scripts: lent_texts(alloc, &names.scripts)?,
        only: Vec::new(alloc),
        patterns: Vec::new(alloc),
        only_from: None,
        shard: None,
        processors: None,
        explain,
    })
}

/// Texts, lent.
fn lent_texts<'n>(alloc: Global, names: &'n [Text]) -> Result<Vec<&'n str>, AllocError>
    ensures { IfOk result (λ lent. texts_of lent.items ≡ names.now) }
{
    let mut lent = Vec::new(alloc);
    for name in names {
        lent.push(name.as_str())?;
    }
    Ok(lent)
}

/// What was read of an older state, and how many of its files weren't there.
#[derive(Drop)]
pub(crate) struct Older {
    pub bytes: InputBytes,
    pub missing: u32,
}

/// Reads the world and the scripts of an older state. One that isn't there is empty, or a script
/// without classes.
pub(crate) fn read_older<'n, G: AllocGlobal + Files>(
    rt: &G,
    files: &InputFiles<'n>,
) -> Result<Older, CommandFault<'n>>
    ensures early { IfErr result ComesEarly }
    ensures read { files.now.only_from ≡ None → files.now.processors ≡ None
        → IfOk result (λ older. WereRead files.now None older.bytes) }
    ensures counted { IfOk result (λ older. older.bytes.processors ≡ 1) }
{
    let mut missing = 0;
    let world = match files.world {
        Some(name) => read_older_world(rt, name, &mut missing)?,
        None => Vec::new(rt.alloc()),
    };
    let scripts = read_older_scripts(rt, &files.scripts, &mut missing)?;
    Ok(Older {
        bytes: InputBytes {
            scripts,
            settings: Vec::new(rt.alloc()),
            world,
            schedule: Vec::new(rt.alloc()),
            listed: None,
            processors: 1,
        },
        missing,
    })
}

/// Reads scripts, and counts those that aren't there.
fn read_older_scripts<'n, G: AllocGlobal + Files>(
    rt: &G,
    names: &[&'n str],
    missing: &mut u32,
) -> Result<Vec<Vec<u8>>, CommandFault<'n>>
    ensures gave_up { IfErr result GaveUp }
    ensures each { IfOk result (λ scripts. length scripts.items ≡ length names.now) }
{
    let mut scripts = Vec::new(rt.alloc());
    for name in names {
        scripts.push(read_or(rt, name, NO_SCRIPT, missing)?)?;
    }
    Ok(scripts)
}

/// Reads a world, and counts one that isn't there.
fn read_older_world<'n, G: AllocGlobal + Files>(
    rt: &G,
    name: &'n str,
    missing: &mut u32,
) -> Result<Vec<u8>, CommandFault<'n>>
    ensures early { IfErr result ComesEarly }
{
    let bytes = read_or(rt, name, "", missing)?;
    if bytes.len() > FILE_BYTES as usize {
        return Err(CommandFault::TooLarge(name));
    }
    Ok(bytes)
}

/// Reads a file; of one that isn't there, which is counted, the text that stands for it.
fn read_or<'n, G: AllocGlobal + Files>(
    rt: &G,
    name: &'n str,
    text: &str,
    missing: &mut u32,
) -> Result<Vec<u8>, CommandFault<'n>>
    ensures gave_up { IfErr result GaveUp }
{
    match File::open(rt, name) {
        Ok(mut file) => read_limited(rt.alloc(), &mut file, name, FILE_BYTES),
        Err(error) if error.kind() == io::ErrorKind::NotFound => {
            *missing = missing.saturating_add(1);
            let mut bytes = Vec::new(rt.alloc());
            bytes.extend_from_slice(text.as_bytes())?;
            Ok(bytes)
        }
        Err(error) => Err(unread(&error, name)),
    }
}
