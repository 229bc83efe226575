//! Files that are written besides a report.
use crate::request::InputFiles;
use crate::wrong_words::{WordsFault, invalid_value};
use std::alloc::Global;

/// An option that names a file to be written, and the file, where it is given.
#[derive(Clone, Copy)]
pub(crate) struct Written<'a> {
    /// The option, as `clap` tells of it.
    pub(crate) option: &'a str,
    pub(crate) file: Option<&'a str>,
    /// Whether this may be the file of `--only-from`: its paths are read before.
    pub(crate) may_be_list: bool,
}

impl<'a> Written<'a> {
    /// One whose file may be none that is read.
    pub(crate) fn new(option: &'a str, file: Option<&'a str>) -> Written<'a> {
        Written {
            option,
            file,
            may_be_list: false,
        }
    }
}

/// Refuses the first of these files that can't be written: standard output, one that is read, or
/// one that an option before it names.
pub(crate) fn check_written(
    alloc: Global,
    written: &[Written<'_>],
    schedule: Option<&str>,
    files: &InputFiles<'_>,
) -> Result<(), WordsFault> {
    for (index, one) in written.iter().enumerate() {
        let Some(file) = one.file else {
            continue;
        };
        let wrong = if file == "-" {
            "a file is wanted"
        } else if is_read(file, one.may_be_list, schedule, files) {
            "this file is read"
        } else if written
            .iter()
            .take(index)
            .any(|before| before.file == one.file)
        {
            "another option writes this file"
        } else {
            continue;
        };
        return Err(WordsFault::Wrong(invalid_value(alloc, file, one.option, wrong)?));
    }
    Ok(())
}

/// Whether a word names a script, the settings, the world, the schedule or, unless it may, the file
/// of paths.
fn is_read(name: &str, may_be_list: bool, schedule: Option<&str>, files: &InputFiles<'_>) -> bool {
    let named = Some(name);
    named == files.settings
        || named == files.world
        || named == schedule
        || files.scripts.contains(&name)
        || (!may_be_list && named == files.only_from)
}
