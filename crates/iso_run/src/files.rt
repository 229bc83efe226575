//! The files that a command is made of.
ghost use Rattle.std.specs.Prelude.{◌≡◌, ◌≤◌, ◌+◌, [], ◌∷◌, IfErr, IfOk, IfSome, IsOkAnd, None, Some, codes, is_some, length, map, option_map, take, Option, ℕ, List, Ok};
ghost use Rattle.std.specs.Option.{option_copied};
ghost use Rattle.std.specs.IoError.{error_kind};
ghost use Rattle.std.specs.declared.io.ErrorKind.TheVariants.{OutOfMemory};
ghost use Rattle.iso_arguments.specs.RequestBounds.{IsWithin, NamesNothing};
ghost use Rattle.iso_model.specs.declared.limits.TheConstants.{FILE_BYTES};
ghost use Rattle.iso_selection.specs.declared.list.TheConstants.{LIST_BYTES};
ghost use Rattle.iso_run.specs.Suites.{texts};
ghost use Rattle.iso_arguments.specs.declared.request.InputFiles as I;
ghost use Rattle.iso_run.specs.Commands.{AreReads, IsOneRead, WereRead};
ghost use Rattle.iso_run.specs.ExitStatuses.{ComesEarly, GaveUp};
ghost use Rattle.iso_run.specs.declared.command_fault.CommandFault.TheVariants.{Run, Unreadable};
ghost use Rattle.iso_run.specs.declared.run_fault.RunFault.TheVariants.{Memory};

use crate::command_fault::CommandFault;
use crate::error_messages::STDIN;
use crate::processors::counted;
use iso_arguments::request::InputFiles;
use iso_model::limits::FILE_BYTES;
use iso_selection::list::LIST_BYTES;
use std::alloc::{AllocError, AllocGlobal, Global};
use std::fs::{File, Files};
use std::io::{self, Read, Write};
use std::thread::Threads;

/// The bytes of the files that a command is made of.
#[derive(Drop)]
pub(crate) struct InputBytes {
    pub scripts: Vec<Vec<u8>>,
    pub settings: Vec<u8>,
    pub world: Vec<u8>,
    /// The schedule, where one is named.
    pub schedule: Vec<u8>,
    /// The file in which paths stand, where one is named.
    pub listed: Option<Vec<u8>>,
    /// How many processors are counted with.
    pub processors: u32,
}

/// Counts the processors, and reads the settings, the world, the scripts in turn, or a script from
/// standard input where none is named, the schedule, and the file in which the paths of what is
/// kept stand. Settings, a world or a schedule that isn't named counts as an empty file.
pub(crate) fn read_files<'a, G: AllocGlobal + Files + Threads, R: Read>(
    rt: &G,
    files: &InputFiles<'a>,
    schedule: Option<&'a str>,
    input: &mut R,
) -> Result<InputBytes, CommandFault<'a>>
    requires { IfSome files.now.processors IsWithin }
    ensures early { IfErr result ComesEarly }
    ensures read { IfOk result (WereRead files.now (R.remaining input.old)) }
    ensures counted { IfOk result (λ bytes. 1 ≤ bytes.processors) }
    ensures unnamed { NamesNothing files.now → schedule.entry ≡ None → IfErr result GaveUp }
{
    let processors = counted(rt, files.processors)?;
    let settings = read_document(rt, files.settings)?;
    let world = read_document(rt, files.world)?;
    let scripts = read_script_files(rt, &files.scripts, input)?;
    let schedule = match schedule {
        Some(name) => read_file(rt, name)?,
        None => Vec::new(rt.alloc()),
    };
    Ok(InputBytes {
        scripts,
        settings,
        world,
        schedule,
        listed: read_list(rt, files.only_from, input)?,
        processors,
    })
}

/// Each file that a command is made of, or why it wasn't read.
#[derive(Drop)]
pub(crate) struct FileReads<'a> {
    pub scripts: Vec<Result<Vec<u8>, CommandFault<'a>>>,
    pub settings: Result<Vec<u8>, CommandFault<'a>>,
    pub world: Result<Vec<u8>, CommandFault<'a>>,
    pub listed: Result<Option<Vec<u8>>, CommandFault<'a>>,
    pub processors: u32,
}

/// Reads each file as `read_files` does, but no schedule, and goes on after one that can't be read.
pub(crate) fn read_each<'a, G: AllocGlobal + Files + Threads, R: Read>(
    rt: &G,
    files: &InputFiles<'a>,
    input: &mut R,
) -> Result<FileReads<'a>, CommandFault<'a>>
    requires { IfSome files.now.processors IsWithin }
    ensures gave_up { IfErr result GaveUp }
    ensures read { IfOk result (AreReads files.now (R.remaining input.old)) }
    ensures counted { IfOk result (λ reads. 1 ≤ reads.processors) }
{
    let processors = counted(rt, files.processors)?;
    let settings = read_document(rt, files.settings);
    let world = read_document(rt, files.world);
    let scripts = read_each_script(rt, &files.scripts, input)?;
    Ok(FileReads {
        scripts,
        settings,
        world,
        listed: read_list(rt, files.only_from, input),
        processors,
    })
}

/// Reads each script of these names, or one from standard input where there is none.
fn read_each_script<'a, G: AllocGlobal + Files, R: Read>(
    rt: &G,
    names: &[&'a str],
    input: &mut R,
) -> Result<Vec<Result<Vec<u8>, CommandFault<'a>>>, CommandFault<'a>>
    ensures gave_up { IfErr result GaveUp }
    ensures standard_input { names.now ≡ []
        → IfOk result (λ reads. IsOneRead (R.remaining input.old) reads.items) }
    ensures each { (names.now ≡ [] → ⊥)
        → IfOk result (λ reads. length reads.items ≡ length names.now) }
    ensures unread { (names.now ≡ [] → ⊥) → R.remaining input.new ≡ R.remaining input.old }
{
    let mut reads = Vec::new(rt.alloc());
    if names.is_empty() {
        reads.push(read_limited(rt.alloc(), input, STDIN, FILE_BYTES))?;
        return Ok(reads);
    }
    for name in names {
        reads.push(read_file(rt, name))?;
    }
    Ok(reads)
}

/// The bytes of all files, or why the first that wasn't read wasn't.
pub(crate) fn all_of<'a>(
    alloc: Global,
    reads: FileReads<'a>,
) -> Result<InputBytes, CommandFault<'a>>
    ensures read { (files : I.InputFiles) (input : Option (List ℕ))
        → AreReads files input reads.entry → IfOk result (WereRead files input) }
    ensures counted { IfOk result (λ bytes. bytes.processors ≡ reads.entry.processors) }
{
    let FileReads {
        scripts,
        settings,
        world,
        listed,
        processors,
    } = reads;
    Ok(InputBytes {
        settings: settings?,
        world: world?,
        scripts: all_scripts(alloc, scripts)?,
        schedule: Vec::new(alloc),
        listed: listed?,
        processors,
    })
}

/// The bytes of all scripts, or why the first that wasn't read wasn't.
fn all_scripts<'a>(
    alloc: Global,
    reads: Vec<Result<Vec<u8>, CommandFault<'a>>>,
) -> Result<Vec<Vec<u8>>, CommandFault<'a>>
    ensures { IfOk result (λ scripts. map Ok scripts.items ≡ reads.entry.items) }
{
    let mut scripts = Vec::new(alloc);
    for read in reads {
        scripts.push(read?)?;
    }
    Ok(scripts)
}

/// Reads the file in which paths stand, where one is named; `-` is standard input.
fn read_list<'a, G: AllocGlobal + Files, R: Read>(
    rt: &G,
    name: Option<&'a str>,
    input: &mut R,
) -> Result<Option<Vec<u8>>, CommandFault<'a>>
    ensures early { IfErr result ComesEarly }
    ensures some { IfOk result (λ listed. is_some listed ≡ is_some name.entry) }
    ensures piped { option_copied name.entry ≡ Some (codes "-")
        → IfSome (R.remaining input.old) (λ bytes.
        IfOk result (λ listed. option_map (λ v. v.items) listed ≡ Some bytes)) }
    ensures unnamed { name.entry ≡ None → IsOkAnd result (λ listed. listed ≡ None) }
{
    let Some(name) = name else {
        return Ok(None);
    };
    if name == "-" {
        let bytes = read_limited(rt.alloc(), input, STDIN, LIST_BYTES)?;
        return listed_in(bytes, STDIN);
    }
    let bytes = read_up_to(rt, name, LIST_BYTES)?;
    listed_in(bytes, name)
}

/// A list of paths, where it isn't above the limit.
fn listed_in<'a>(bytes: Vec<u8>, name: &'a str) -> Result<Option<Vec<u8>>, CommandFault<'a>>
    ensures early { IfErr result ComesEarly }
    ensures whole { IfOk result (λ listed. (listed ≡ Some bytes)
        × (length bytes.items ≤ LIST_BYTES)) }
{
    if bytes.len() > LIST_BYTES as usize {
        return Err(CommandFault::TooLarge(name));
    }
    Ok(Some(bytes))
}

/// Reads settings or a world.
pub(crate) fn read_document<'a, G: AllocGlobal + Files>(
    rt: &G,
    name: Option<&'a str>,
) -> Result<Vec<u8>, CommandFault<'a>>
    ensures early { IfErr result ComesEarly }
    ensures unnamed { name.entry ≡ None → IsOkAnd result (λ bytes. bytes.items ≡ []) }
{
    let Some(name) = name else {
        return Ok(Vec::new(rt.alloc()));
    };
    let bytes = read_file(rt, name)?;
    if bytes.len() > FILE_BYTES as usize {
        return Err(CommandFault::TooLarge(name));
    }
    Ok(bytes)
}

/// Reads the scripts of these names, or one from standard input where there is none.
fn read_script_files<'a, G: AllocGlobal + Files, R: Read>(
    rt: &G,
    names: &[&'a str],
    input: &mut R,
) -> Result<Vec<Vec<u8>>, CommandFault<'a>>
    ensures gave_up { IfErr result GaveUp }
    ensures standard_input { names.now ≡ [] → IfSome (R.remaining input.old) (λ bytes.
        IfOk result (λ scripts. map (λ v. v.items) scripts.items
        ≡ take (FILE_BYTES + 1) bytes ∷ [])) }
    ensures each { (names.now ≡ [] → ⊥)
        → IfOk result (λ scripts. length scripts.items ≡ length names.now) }
    ensures unread { (names.now ≡ [] → ⊥) → R.remaining input.new ≡ R.remaining input.old }
{
    if names.is_empty() {
        return one_script(
            rt.alloc(),
            read_limited(rt.alloc(), input, STDIN, FILE_BYTES)?,
        );
    }
    let mut scripts = Vec::new(rt.alloc());
    for name in names {
        scripts.push(read_file(rt, name)?)?;
    }
    Ok(scripts)
}

/// The bytes of a script alone.
fn one_script<'a>(alloc: Global, bytes: Vec<u8>) -> Result<Vec<Vec<u8>>, CommandFault<'a>>
    ensures gave_up { IfErr result GaveUp }
    ensures bytes { IfOk result (λ scripts. map (λ v. v.items) scripts.items ≡ bytes.items ∷ []) }
{
    let mut scripts = Vec::new(alloc);
    scripts.push(bytes)?;
    Ok(scripts)
}

/// Reads a settings, world, script or schedule file.
fn read_file<'a, G: AllocGlobal + Files>(rt: &G, name: &'a str) -> Result<Vec<u8>, CommandFault<'a>>
    ensures gave_up { IfErr result GaveUp }
{
    read_up_to(rt, name, FILE_BYTES)
}

/// Reads a file of at most `most` bytes, and of a longer one one byte more.
fn read_up_to<'a, G: AllocGlobal + Files>(
    rt: &G,
    name: &'a str,
    most: u32,
) -> Result<Vec<u8>, CommandFault<'a>>
    ensures gave_up { IfErr result GaveUp }
{
    match File::open(rt, name) {
        Ok(mut file) => read_limited(rt.alloc(), &mut file, name, most),
        Err(error) => Err(unread(&error, name)),
    }
}

/// Reads what a reader has left, at most one byte past a limit.
pub(crate) fn read_limited<'a, R: Read>(
    alloc: Global,
    reader: &mut R,
    name: &'a str,
    most: u32,
) -> Result<Vec<u8>, CommandFault<'a>>
    ensures gave_up { IfErr result GaveUp }
    ensures bytes { IfSome (R.remaining reader.old) (λ bytes.
        IfOk result (λ read. read.items ≡ take (most + 1) bytes)) }
{
    let mut bytes = Vec::new(alloc);
    let mut limited = reader.take(u64::from(most) + 1);
    match limited.read_to_end(&mut bytes) {
        Ok(_) => Ok(bytes),
        Err(error) => Err(unread(&error, name)),
    }
}

/// Writes a file, which is made, or emptied before.
pub(crate) fn write_file<G: Files>(rt: &G, name: &str, bytes: &[u8]) -> io::Result<()> {
    let mut file = File::create(rt, name)?;
    file.write_all(bytes)
}

/// Why a file was not read.
pub(crate) fn unread<'a>(error: &io::Error, name: &'a str) -> CommandFault<'a>
    ensures memory { error_kind error.now ≡ OutOfMemory → result ≡ Run Memory None None }
    ensures other { (error_kind error.now ≡ OutOfMemory → ⊥) → result ≡ Unreadable name.entry }
{
    if error.kind() == io::ErrorKind::OutOfMemory {
        CommandFault::out_of_memory()
    } else {
        CommandFault::Unreadable(name)
    }
}

/// The bytes of scripts, lent.
pub(crate) fn lent<'a>(alloc: Global, scripts: &'a [Vec<u8>]) -> Result<Vec<&'a [u8]>, AllocError>
    ensures { IfOk result (λ lent. texts lent.items ≡ map (λ v. v.items) scripts.now) }
{
    let mut lent = Vec::new(alloc);
    for script in scripts {
        lent.push(script.as_slice())?;
    }
    Ok(lent)
}
