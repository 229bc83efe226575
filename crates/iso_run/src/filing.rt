//! The files that a command writes besides its report.
ghost use Rattle.std.specs.Prelude.{◌≡◌, None, OnOk};
ghost use Rattle.iso_run.specs.Besides.{files_of};
ghost use Rattle.iso_run.specs.ExitStatuses.{IsFiled, IsOneOf};

use crate::besides::Besides;
use crate::command_fault::CommandFault;
use crate::error_messages::say;
use crate::files::write_file;
use crate::parts::{page_bytes, text_bytes};
use iso_tap::printer::Printer;
use iso_tap::sink::Sink;
use std::fs::Files;

/// Writes what is asked for to the files that are named for it, each though another one can't be
/// written, and answers whether all is ok. The last of the files that can't be written is answered,
/// and each other one is told at once. Something was told before, or not.
pub(crate) fn filed<'a, G: Files, E: Sink>(
    rt: &G,
    ok: bool,
    besides: &Besides<'_, 'a>,
    after: bool,
    errors: &mut E,
) -> Result<bool, CommandFault<'a>>
    ensures filed { IsFiled ok (files_of besides.now) result }
    ensures quiet { OnOk result (errors.new ≡ errors.old) }
{
    let failed = text_bytes(&besides.tells.failed);
    let junit = text_bytes(&besides.tells.junit);
    let html = page_bytes(&besides.tells.html);
    let schedule = text_bytes(&besides.course.schedule);
    let trace = text_bytes(&besides.course.trace);
    let lost = unwritten(rt, None, after, besides.failed, failed, errors);
    let lost = unwritten(rt, lost, after, besides.junit, junit, errors);
    let lost = unwritten(rt, lost, after, besides.html, html, errors);
    let lost = unwritten(rt, lost, after, besides.schedule, schedule, errors);
    match unwritten(rt, lost, after, besides.trace, trace, errors) {
        Some(name) => Err(CommandFault::Unwritable(name)),
        None => Ok(ok),
    }
}

/// Writes a text to a file, if one is named for it. Answers the file's name where it can't be
/// written, else that of the one that was lost before, which is told where another one is. A line
/// that comes after parts has an empty line before it.
fn unwritten<'a, G: Files, E: Sink>(
    rt: &G,
    lost: Option<&'a str>,
    after: bool,
    file: Option<&'a str>,
    text: &[u8],
    errors: &mut E,
) -> Option<&'a str>
    ensures one { IsOneOf lost.entry file.entry result }
    ensures quiet { result ≡ None → errors.new ≡ errors.old }
{
    let Some(name) = file else {
        return lost;
    };
    if write_file(rt, name, text).is_ok() {
        return lost;
    }
    match lost {
        Some(earlier) => say(errors, &CommandFault::Unwritable(earlier)),
        None => say_gap(after, errors),
    }
    Some(name)
}

/// Writes the empty line between parts and what comes after them, where there are any.
fn say_gap<E: Sink>(after: bool, errors: &mut E) {
    if after {
        let _ = Printer::new(errors).bytes(b"\n");
    }
}
