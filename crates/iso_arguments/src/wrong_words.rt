//! What is said of words that aren't those of `jtap`.
ghost use Rattle.std.specs.Prelude.{IfOk};
ghost use Rattle.iso_arguments.specs.RequestBounds.{AsksInBounds};

use crate::options::command_line;
use crate::request::Request;
use clap::Error;
use clap::error::ErrorKind;
use std::alloc::{AllocError, AllocFailed, Global};

/// Why words ask for nothing.
#[derive(Drop)]
pub enum WordsFault {
    /// They aren't those of `jtap`. The text, which ends in a line feed, says what is wrong.
    Wrong(String),
    OutOfMemory,
}

impl<T: Drop> From<AllocFailed<T>> for WordsFault {
    fn from(_error: AllocFailed<T>) -> WordsFault {
        WordsFault::OutOfMemory
    }
}

impl From<AllocError> for WordsFault {
    fn from(_error: AllocError) -> WordsFault {
        WordsFault::OutOfMemory
    }
}

/// What is said where standard input would be the list of paths and the script.
pub(crate) static LIST_WITHOUT_SCRIPT: &str =
    "error: '--only-from -' reads the paths from standard input, so a SCRIPT has to be named

For more information, try '--help'.
";

/// What words come to that `clap` answers with an error. It tells of them as they stand, so it is
/// asked again with each of them on one line: no word can forge a line of its own.
pub(crate) fn told<'a>(
    alloc: Global,
    words: &[String],
    error: &Error,
) -> Result<Request<'a>, WordsFault>
    ensures bounds { IfOk result AsksInBounds }
{
    let told = on_one_line(alloc, words)?;
    match command_line(alloc)?.try_get_matches_from(told.as_slice()) {
        Ok(_) => shown(alloc, error),
        Err(error) => shown(alloc, &error),
    }
}

/// The words, in which `\n` stands for each line feed.
fn on_one_line(alloc: Global, words: &[String]) -> Result<Vec<String>, AllocError> {
    let mut told = Vec::new(alloc);
    for word in words {
        told.push(word.replace(alloc, '\n', "\\n")?)?;
    }
    Ok(told)
}

/// What an error of `clap` comes to: help and the version are no faults.
fn shown<'a>(alloc: Global, error: &Error) -> Result<Request<'a>, WordsFault>
    ensures bounds { IfOk result AsksInBounds }
{
    match error.kind() {
        ErrorKind::OutOfMemory => Err(WordsFault::OutOfMemory),
        ErrorKind::DisplayHelp | ErrorKind::DisplayVersion => {
            Ok(Request::Show(format!(in alloc; "{error}")?))
        }
        _ => Err(WordsFault::Wrong(format!(in alloc; "{error}")?)),
    }
}

/// What is said of a value that an option doesn't take, as `clap` says it of others.
pub(crate) fn invalid_value(
    alloc: Global,
    value: &str,
    option: &str,
    why: &str,
) -> Result<String, AllocError> {
    let value = value.replace(alloc, '\n', "\\n")?;
    format!(in alloc;
        "error: invalid value '{value}' for '{option}': {why}

For more information, try '--help'.
"
    )
}
