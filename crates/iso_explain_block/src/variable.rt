//! The statics and fields of classes.
ghost use Rattle.std.specs.Prelude.{◌≡◌, OnOk, map};
ghost use Rattle.iso_explain_block.specs.Variables.{heads_of, with_fields, with_statics, with_variables};

use iso_model::heads::{ClassHead, Variable};
use std::alloc::AllocError;
use std::sync::Arc;

/// Adds the names of the statics of classes.
pub(crate) fn add_statics<'a>(
    names: &mut Vec<&'a str>,
    classes: &'a [Arc<ClassHead>],
) -> Result<(), AllocError>
    ensures { OnOk result (map (λ n. n.now) names.new.items
        ≡ with_statics (heads_of classes.now) (map (λ n. n.now) names.old.items)) }
{
    for class in classes {
        add_variables(names, &class.contents.statics)?;
    }
    Ok(())
}

/// Adds the names of the fields of classes.
pub(crate) fn add_fields<'a>(
    names: &mut Vec<&'a str>,
    classes: &'a [Arc<ClassHead>],
) -> Result<(), AllocError>
    ensures { OnOk result (map (λ n. n.now) names.new.items
        ≡ with_fields (heads_of classes.now) (map (λ n. n.now) names.old.items)) }
{
    for class in classes {
        add_variables(names, &class.contents.fields)?;
    }
    Ok(())
}

/// Adds the names of statics or fields.
fn add_variables<'a>(names: &mut Vec<&'a str>, variables: &'a [Variable]) -> Result<(), AllocError>
    ensures { OnOk result (map (λ n. n.now) names.new.items
        ≡ with_variables variables.now (map (λ n. n.now) names.old.items)) }
{
    for variable in variables {
        names.push(variable.name.as_str())?;
    }
    Ok(())
}
