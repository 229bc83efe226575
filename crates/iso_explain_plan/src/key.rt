//! The keys that scripts declare.
use crate::size::Size;
use iso_model::heads::Mark;
use iso_model::script::{Class, Member, Script};
use std::alloc::{AllocError, Global};
use std::collections::BTreeSet;

/// How many different keys scripts declare.
pub(crate) fn key_count(alloc: Global, scripts: &[Script]) -> Result<usize, AllocError> {
    let mut keys = BTreeSet::new(alloc);
    'scripts: for script in scripts {
        add_all(&mut keys, &script.classes)?;
    }
    Ok(keys.len())
}

/// The top-level classes with how many different keys each declares; the paths are those of these
/// sizes, in the same order.
pub(crate) fn key_sizes<'a>(
    alloc: Global,
    scripts: &[Script],
    sizes: &[Size<'a>],
) -> Result<Vec<Size<'a>>, AllocError> {
    let mut keyed = Vec::with_capacity(alloc, sizes.len())?;
    'scripts: for script in scripts {
        add_sizes(alloc, &mut keyed, &script.classes, sizes)?;
    }
    Ok(keyed)
}

/// Adds these classes with how many different keys each declares.
fn add_sizes<'a>(
    alloc: Global,
    keyed: &mut Vec<Size<'a>>,
    classes: &[Class],
    sizes: &[Size<'a>],
) -> Result<(), AllocError> {
    'classes: for class in classes {
        let count = class_key_count(alloc, class)?;
        if let Some(size) = sizes.get(keyed.len()) {
            keyed.push(Size {
                path: size.path,
                count,
            })?;
        }
    }
    Ok(())
}

/// How many different keys a class declares, with its descendants.
fn class_key_count(alloc: Global, class: &Class) -> Result<usize, AllocError> {
    let mut keys = BTreeSet::new(alloc);
    add_class(&mut keys, class)?;
    Ok(keys.len())
}

/// Adds the keys of classes.
fn add_all<'a>(keys: &mut BTreeSet<&'a str>, classes: &'a [Class]) -> Result<(), AllocError> {
    'classes: for class in classes {
        add_class(keys, class)?;
    }
    Ok(())
}

/// Adds the keys of a class and of its descendants. It calls itself once for each class around
/// the innermost one.
#[cycle(keys)]
fn add_class<'a>(keys: &mut BTreeSet<&'a str>, class: &'a Class) -> Result<(), AllocError> {
    add_marks(keys, class.head.marks.as_slice())?;
    'members: for member in &class.members {
        add_member(keys, member)?;
    }
    Ok(())
}

/// Adds the keys of a member.
#[cycle(keys)]
fn add_member<'a>(keys: &mut BTreeSet<&'a str>, member: &'a Member) -> Result<(), AllocError> {
    match member {
        Member::Class(class) => add_class(keys, class),
        Member::Test(test) => add_marks(keys, test.head.marks.as_slice()),
    }
}

/// Adds the keys of marks.
fn add_marks<'a>(keys: &mut BTreeSet<&'a str>, marks: &'a [Mark]) -> Result<(), AllocError> {
    'marks: for mark in marks {
        keys.insert(mark.key.as_str())?;
    }
    Ok(())
}
