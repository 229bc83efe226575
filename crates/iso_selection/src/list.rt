//! Files that list paths.
ghost use Rattle.std.specs.Prelude.{◌≡◌, ◌++◌, [], ◌∷◌, IfOk, OnOk, filter};
ghost use Rattle.std.specs.Str.Lines.{strip_carriage_return};
ghost use Rattle.iso_plan.specs.KeptNodes.{texts_of};
ghost use Rattle.iso_selection.specs.Lists.{has_bytes, listed};

use std::alloc::{AllocError, Global};

/// Bytes of a file that lists paths.
pub const LIST_BYTES: u32 = 4_194_304;

/// The paths that a file lists, one a line, in its order: lines end with LF or CR LF, and empty
/// ones count for nothing. They are parts of the file, and may be none of any node, as one that
/// isn't UTF-8.
pub fn listed<'a>(alloc: Global, file: &'a [u8]) -> Result<Vec<&'a [u8]>, AllocError>
    ensures { IfOk result (λ v. texts_of v.items ≡ listed file.now) }
{
    let mut paths = Vec::new(alloc);
    let mut begin = 0;
    'bytes: for at in 0..file.len() {
        if file[at] == b'\n' {
            add(&mut paths, without_return(&file[begin..at]))?;
            begin = at + 1;
        }
    }
    add(&mut paths, &file[begin..])?;
    Ok(paths)
}

/// A line without the CR at its end, if it has one.
fn without_return(line: &[u8]) -> &[u8]
    ensures { result.now ≡ strip_carriage_return line.now }
{
    if !line.is_empty() && line[line.len() - 1] == b'\r' {
        return &line[..line.len() - 1];
    }
    line
}

/// Adds a line, if it isn't empty.
fn add<'a>(paths: &mut Vec<&'a [u8]>, line: &'a [u8]) -> Result<(), AllocError>
    ensures { OnOk result (texts_of paths.new.items ≡ texts_of paths.old.items
        ++ filter has_bytes (line.now ∷ [])) }
{
    if !line.is_empty() {
        paths.push(line)?;
    }
    Ok(())
}
