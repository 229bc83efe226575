//! Checks of files, without a run.
ghost use Rattle.std.specs.Prelude.{◌≤◌, IfErr, IfOk, Option, ℕ, List};
ghost use Rattle.iso_arguments.specs.RequestBounds.{AreInBounds};
ghost use Rattle.iso_run.specs.Commands.{AreReads, IsAcceptedFor};
ghost use Rattle.iso_run.specs.ExitStatuses.{ComesEarly};

use crate::command::named;
use crate::command_fault::CommandFault;
use crate::error_messages::say;
use crate::exit::FAILED;
use crate::files::{FileReads, all_of, read_each};
use crate::inputs::{placed, settings_from, world_from};
use crate::mending::{settings_mending, suite_of, world_mending};
use crate::run_fault::RunFault;
use crate::script_mending::ScriptMending;
use crate::warning::say_warnings;
use iso_arguments::request::InputFiles;
use iso_script::fault::ScriptError;
use iso_settings::fault::SettingsError;
use iso_tap::sink::Sink;
use std::alloc::{AllocGlobal, Global};
use std::fs::Files;
use std::io::Read;
use std::thread::Threads;

/// Tells the first fault of each file, one after another, and where none has one that of their
/// plan; or else what was likely meant otherwise. Nothing is run.
pub(crate) fn check<'a, G: AllocGlobal + Files + Threads, R: Read, E: Sink>(
    rt: &G,
    files: &InputFiles<'a>,
    input: &mut R,
    errors: &mut E,
) -> Result<(), CommandFault<'a>>
    requires { AreInBounds files.now }
    ensures accepted { IfOk result (λ _. IsAcceptedFor files.now (R.remaining input.old)) }
    ensures early { IfErr result ComesEarly }
{
    let reads = read_each(rt, files, input)?;
    let told = Tally::of(rt.alloc(), &reads, files, errors);
    match accept_reads(rt.alloc(), reads, files, told, errors) {
        Ok(()) if told.failed => Err(CommandFault::Told(true)),
        Ok(()) => Ok(()),
        Err(fault) => Err(CommandFault::Told(told.fails(&fault, errors))),
    }
}

/// Whether the inputs that were read are a suite, or why they are none. Of a suite it tells what
/// was likely meant otherwise. A fault is explained only where none was told before.
fn accept_reads<'a, E: Sink>(
    alloc: Global,
    reads: FileReads<'a>,
    files: &InputFiles<'a>,
    told: Tally,
    errors: &mut E,
) -> Result<(), CommandFault<'a>>
    requires bounds { AreInBounds files.now }
    requires counted { 1 ≤ reads.processors }
    ensures { (input : Option (List ℕ)) → AreReads files.now input reads.entry
        → IfOk result (λ _. IsAcceptedFor files.now input) }
{
    let bytes = all_of(alloc, reads)?;
    let mut mending = ScriptMending::unasked();
    match suite_of(alloc, &bytes, &*files, &mut mending) {
        Ok(suite) => {
            say_warnings(alloc, &bytes, &suite, &*files, errors);
            Ok(())
        }
        Err(fault) if told.is_empty() => Err(named(alloc, fault, mending, bytes, files, false)),
        Err(fault) => Err(CommandFault::Run(fault, None, None)),
    }
}

/// What was told of files: whether something is refused, and whether a file couldn't be read or
/// memory ran out.
#[derive(Clone, Copy)]
struct Tally {
    refused: bool,
    failed: bool,
}

impl Tally {
    /// Tells the first fault of each file.
    fn of<E: Sink>(
        alloc: Global,
        reads: &FileReads<'_>,
        files: &InputFiles<'_>,
        errors: &mut E,
    ) -> Tally
        requires { 1 ≤ reads.now.processors }
    {
        let mut tally = Tally {
            refused: false,
            failed: false,
        };
        tally.tell_settings(alloc, &reads.settings, reads.processors, files, errors);
        tally.tell_world(alloc, &reads.world, files, errors);
        for (number, read) in reads.scripts.iter().enumerate() {
            tally.tell_script(alloc, number, read, files, errors);
        }
        if let Err(fault) = &reads.listed {
            tally.tell(fault, errors);
        }
        tally
    }

    /// Tells the fault of settings, or why they weren't read, if either is so.
    fn tell_settings<E: Sink>(
        &mut self,
        alloc: Global,
        read: &Result<Vec<u8>, CommandFault<'_>>,
        processors: u32,
        files: &InputFiles<'_>,
        errors: &mut E,
    )
        requires { 1 ≤ processors }
    {
        match read {
            Ok(bytes) => match settings_from(alloc, bytes, processors) {
                Ok(_) => {}
                Err(SettingsError::Fault(fault)) => {
                    let text = settings_mending(alloc, &fault, bytes, files);
                    self.tell(
                        &CommandFault::Run(RunFault::Settings(fault), None, text),
                        errors,
                    );
                }
                Err(SettingsError::OutOfMemory) => {
                    self.tell(&CommandFault::out_of_memory(), errors);
                }
            },
            Err(fault) => self.tell(fault, errors),
        }
    }

    /// Tells the fault of a world, or why it wasn't read, if either is so.
    fn tell_world<E: Sink>(
        &mut self,
        alloc: Global,
        read: &Result<Vec<u8>, CommandFault<'_>>,
        files: &InputFiles<'_>,
        errors: &mut E,
    ) {
        match read {
            Ok(bytes) => match world_from(alloc, bytes) {
                Ok(_) => {}
                Err(SettingsError::Fault(fault)) => {
                    let text = world_mending(alloc, &fault, bytes, files);
                    self.tell(
                        &CommandFault::Run(RunFault::World(fault), None, text),
                        errors,
                    );
                }
                Err(SettingsError::OutOfMemory) => {
                    self.tell(&CommandFault::out_of_memory(), errors);
                }
            },
            Err(fault) => self.tell(fault, errors),
        }
    }

    /// Tells the fault of the script with this number, or why it wasn't read, if either is so.
    fn tell_script<E: Sink>(
        &mut self,
        alloc: Global,
        number: usize,
        read: &Result<Vec<u8>, CommandFault<'_>>,
        files: &InputFiles<'_>,
        errors: &mut E,
    ) {
        let bytes = match read {
            Ok(bytes) => bytes,
            Err(fault) => {
                self.tell(fault, errors);
                return;
            }
        };
        let mut mending = ScriptMending::new(files.explain);
        match placed(alloc, bytes, &mut mending) {
            Ok(_) => {}
            Err(ScriptError::Fault(fault)) => {
                let name = files.scripts.get(number).copied();
                let text = mending.into_text();
                self.tell(
                    &CommandFault::Run(RunFault::Script(number, fault), name, text),
                    errors,
                );
            }
            Err(ScriptError::OutOfMemory) => self.tell(&CommandFault::out_of_memory(), errors),
        }
    }

    /// Whether nothing was told.
    fn is_empty(self) -> bool {
        !self.refused && !self.failed
    }

    /// Tells a fault.
    fn tell<E: Sink>(&mut self, fault: &CommandFault<'_>, errors: &mut E) {
        say(errors, fault);
        if fault.status() == FAILED {
            self.failed = true;
        } else {
            self.refused = true;
        }
    }

    /// Whether something failed, also where this fault is the last one. It is told, if nothing was
    /// told before.
    fn fails<E: Sink>(self, fault: &CommandFault<'_>, errors: &mut E) -> bool {
        if self.is_empty() {
            say(errors, fault);
        }
        self.failed || fault.status() == FAILED
    }
}
