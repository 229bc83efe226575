//! The names that a body begins with.
ghost use Rattle.std.specs.Prelude.{◌≡◌, ◌++◌, IfOk, OnOk, drop, length, ◌≤◌};
ghost use Rattle.iso_model.specs.Names.{at_literals, bound, frozen};
ghost use Rattle.iso_model.specs.Openings.{statics_of};
ghost use Rattle.iso_lifecycle.specs.Subjects.{frames_of, names_seen};

use crate::frame::Frame;
use iso_model::bindings::Bindings;
use iso_model::data::Data;
use iso_model::heads::Variable;
use iso_model::names::{Binding, Sort};
use iso_model::shared_names::SharedNames;
use iso_model::text::Text;
use std::alloc::{AllocError, Global};

/// The statics of opened classes, outermost first.
pub(crate) fn statics_of(alloc: Global, frames: &[Frame]) -> Result<Bindings, AllocError>
    ensures { IfOk result (λ names. names ≡ statics_of (frames_of frames.now)) }
{
    let mut names = Bindings::new(alloc, Vec::new(alloc));
    'frames: for frame in frames {
        add_shared(alloc, &mut names, frame.names())?;
    }
    Ok(names)
}

/// The names that a test begins with in the classes with these frames: of each, outermost first,
/// its statics, and its fields at their literals. Tests share them with the frames.
pub(crate) fn test_names(alloc: Global, frames: &[Frame]) -> Result<Bindings, AllocError>
    ensures { IfOk result (λ names. names ≡ names_seen frames.now) }
{
    let mut names = Bindings::new(alloc, Vec::new(alloc));
    'frames: for frame in frames {
        add_shared(alloc, &mut names, frame.names())?;
        add_shared(alloc, &mut names, frame.fields())?;
    }
    Ok(names)
}

/// Adds shared names. Where there is none, as in most classes, no call is made.
#[inline(always)]
fn add_shared(alloc: Global, names: &mut Bindings, shared: &SharedNames) -> Result<(), AllocError>
    ensures { OnOk result (names.new ≡ names.old ++ shared.now) }
{
    if shared.is_empty() {
        return Ok(());
    }
    add_layer(alloc, names, shared)
}

/// Adds shared names as a layer.
#[inline(never)]
fn add_layer(alloc: Global, names: &mut Bindings, shared: &SharedNames) -> Result<(), AllocError>
    ensures { OnOk result (names.new ≡ names.old ++ shared.now) }
{
    names.append(alloc, Bindings::shared(alloc, shared.share()?)?)
}

/// An equal name with an equal value, of this sort.
fn copied(alloc: Global, name: &Text, value: &Data, sort: Sort) -> Result<Binding, AllocError>
    ensures { IfOk result (λ b. b ≡ bound sort name.now value.now) }
{
    Ok(Binding {
        name: name.copy(alloc)?,
        value: value.copy(alloc)?,
        sort,
    })
}

/// The names past the first `count`, as they are once nothing may assign them.
pub(crate) fn frozen_past(
    alloc: Global,
    names: &Bindings,
    count: usize,
) -> Result<Vec<Binding>, AllocError>
    requires { count ≤ length names.now }
    ensures { IfOk result (λ past. past.items ≡ frozen (drop count names.now)) }
{
    frozen(alloc, &names.copies_past(alloc, count)?)
}

/// These names as they are once nothing may assign them.
fn frozen(alloc: Global, bindings: &[Binding]) -> Result<Vec<Binding>, AllocError>
    ensures { IfOk result (λ names. names.items ≡ frozen bindings.now) }
{
    let mut names = Vec::new(alloc);
    'bindings: for binding in bindings {
        names.push(copied(alloc, &binding.name, &binding.value, Sort::Frozen)?)?;
    }
    Ok(names)
}

/// Adds variables at their literals, as names of this sort.
pub(crate) fn add_variables(
    alloc: Global,
    names: &mut Bindings,
    variables: &[Variable],
    sort: Sort,
) -> Result<(), AllocError>
    ensures { OnOk result (names.new ≡ names.old ++ at_literals sort variables.now) }
{
    'variables: for variable in variables {
        names.push(copied(alloc, &variable.name, &variable.value, sort)?)?;
    }
    Ok(())
}

/// Variables at their literals, as names of this sort.
pub(crate) fn at_literals(
    alloc: Global,
    variables: &[Variable],
    sort: Sort,
) -> Result<Vec<Binding>, AllocError>
    ensures { IfOk result (λ names. names.items ≡ at_literals sort variables.now) }
{
    let mut names = Vec::new(alloc);
    'variables: for variable in variables {
        names.push(copied(alloc, &variable.name, &variable.value, sort)?)?;
    }
    Ok(names)
}
