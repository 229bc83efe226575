//! How many processors a command counts with.
ghost use Rattle.std.specs.Prelude.{◌≤◌, IfErr, IfOk, IfSome};
ghost use Rattle.iso_arguments.specs.RequestBounds.{IsWithin};
ghost use Rattle.iso_run.specs.Commands.{IsCountedAs};
ghost use Rattle.iso_run.specs.ExitStatuses.{GaveUp};

use crate::command_fault::CommandFault;
use iso_arguments::processors::Processors;
use std::thread::{self, Threads};

/// How many processors are counted with: as many as is asked for, those of the machine, but no more
/// than may be asked for, or one.
pub(crate) fn counted<'a, T: Threads>(
    rt: &T,
    asked: Option<Processors>,
) -> Result<u32, CommandFault<'a>>
    requires { IfSome asked IsWithin }
    ensures gave_up { IfErr result GaveUp }
    ensures counted { IfOk result (IsCountedAs asked) }
    ensures bounds { IfOk result (λ n. 1 ≤ n) }
{
    match asked {
        None => Ok(1),
        Some(Processors::Count(count)) => Ok(count),
        Some(Processors::Auto) => match thread::available_parallelism(rt) {
            Ok(count) => Ok(count.get().clamp(1, 1024) as u32),
            Err(_) => Err(CommandFault::Uncounted),
        },
    }
}
