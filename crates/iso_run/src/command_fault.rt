//! Why a command ends with status 2 or 3.
ghost use Rattle.std.specs.Prelude.{◌≡◌, None};
ghost use Rattle.iso_run.specs.ExitStatuses.{command_end, exit_status, words_fault};
ghost use Rattle.iso_run.specs.declared.command_fault.CommandFault.TheVariants.{Run};
ghost use Rattle.iso_run.specs.declared.run_fault.RunFault.TheVariants.{Memory};

use crate::exit::{FAILED, WRONG_INPUT};
use crate::run_fault::RunFault;
use iso_arguments::wrong_words::WordsFault;
use iso_tap::memory::MemorySink;
use std::alloc::{AllocError, AllocFailed};

/// Why a command ends with status 2 or 3. It shows as what is written to standard error, without
/// the last line feed.
#[derive(Drop)]
pub(crate) enum CommandFault<'a> {
    /// Wrong words, and what is said of them.
    Words(String),
    /// A file of this name, or standard input, can't be read.
    Unreadable(&'a str),
    /// A settings or world file of this name is above the limit.
    TooLarge(&'a str),
    /// The output failed.
    Unwritten,
    /// A file of this name can't be written.
    Unwritable(&'a str),
    /// The system doesn't tell how many processors there are.
    Uncounted,
    /// The faults of a check were told; whether one of them is other than that of refused input.
    Told(bool),
    /// The path with this number of those that this file lists, counted from 0, names no class or
    /// test; and what mends it, where it is told.
    NotListed(Vec<u8>, usize, Option<MemorySink>),
    /// A fault of the run; the word that it is of: the name of a script, where one was named, or a
    /// path; and what mends it, where it is told.
    Run(RunFault, Option<&'a str>, Option<MemorySink>),
}

impl CommandFault<'_> {
    /// Memory ran out.
    pub fn out_of_memory() -> Self
        ensures { result ≡ Run Memory None None }
    {
        CommandFault::Run(RunFault::Memory, None, None)
    }

    /// The exit status: 2 where the input is refused, else 3.
    pub fn status(&self) -> u8
        ensures { result ≡ exit_status (command_end self.now) }
    {
        match self {
            CommandFault::Words(_) | CommandFault::TooLarge(_) | CommandFault::NotListed(..) =>
                WRONG_INPUT,
            CommandFault::Unreadable(_)
            | CommandFault::Unwritten
            | CommandFault::Unwritable(_)
            | CommandFault::Uncounted => FAILED,
            CommandFault::Told(failed) => if *failed { FAILED } else { WRONG_INPUT },
            CommandFault::Run(fault, _, _) => fault.status(),
        }
    }
}

impl From<WordsFault> for CommandFault<'_> {
    ghost from_gives = { λ words fault. fault ≡ words_fault words };

    fn from(fault: WordsFault) -> Self {
        match fault {
            WordsFault::Wrong(text) => CommandFault::Words(text),
            WordsFault::OutOfMemory => CommandFault::out_of_memory(),
        }
    }
}

impl From<AllocError> for CommandFault<'_> {
    ghost from_gives = { λ _ fault. fault ≡ Run Memory None None };

    fn from(_error: AllocError) -> Self {
        CommandFault::out_of_memory()
    }
}

impl<T: Drop> From<AllocFailed<T>> for CommandFault<'_> {
    ghost from_gives = { λ _ fault. fault ≡ Run Memory None None };

    fn from(_error: AllocFailed<T>) -> Self {
        CommandFault::out_of_memory()
    }
}
