//! What is asked for.
ghost use Rattle.std.specs.Prelude.{◌≡◌, ◌++◌, IfOk, OnOk, map};
ghost use Rattle.std.specs.Option.{option_copied, option_map};
ghost use Rattle.iso_plan.specs.KeptNodes.{texts_of};
ghost use Rattle.iso_selection.specs.Lists.{listed};
ghost use Rattle.iso_selection.specs.Wishes.{all_wishes, path, wish_of};

use crate::list::listed;
use std::alloc::{AllocError, Global};

/// What is asked to be kept.
#[derive(Clone, Copy)]
pub enum Wanted<'a> {
    /// The nodes with this path.
    Path(&'a [u8]),
    /// The nodes whose paths this pattern takes in.
    Pattern(&'a [u8]),
}

/// All that is asked for: these paths, then these patterns, then the paths that a file lists. Where
/// there is none of these, nothing is; a file that lists no path asks for no node.
pub fn all_wanted<'a>(
    alloc: Global,
    only: &[&'a str],
    patterns: &[&'a str],
    file: Option<&'a [u8]>,
) -> Result<Option<Vec<Wanted<'a>>>, AllocError>
    ensures { IfOk result (λ w. option_map (λ v. map wish_of v.items) w
        ≡ all_wishes (texts_of only.now) (texts_of patterns.now) (option_copied file.entry)) }
{
    if only.is_empty() && patterns.is_empty() && file.is_none() {
        return Ok(None);
    }
    let mut wanted = Vec::new(alloc);
    'only: for path in only {
        wanted.push(Wanted::Path(path.as_bytes()))?;
    }
    'patterns: for pattern in patterns {
        wanted.push(Wanted::Pattern(pattern.as_bytes()))?;
    }
    if let Some(file) = file {
        add_listed(alloc, &mut wanted, file)?;
    }
    Ok(Some(wanted))
}

/// Adds the paths that a file lists.
fn add_listed<'a>(
    alloc: Global,
    wanted: &mut Vec<Wanted<'a>>,
    file: &'a [u8],
) -> Result<(), AllocError>
    ensures { OnOk result (map wish_of wanted.new.items ≡ map wish_of wanted.old.items
        ++ map path (listed file.now)) }
{
    let paths = listed(alloc, file)?;
    'paths: for path in &paths {
        wanted.push(Wanted::Path(*path))?;
    }
    Ok(())
}
