//! The blocks of a test, in its class chain.
ghost use Rattle.std.specs.Prelude.{◌≡◌, ◌<◌, ◌≤◌, ◌+◌, Some, length, min, take, drop, IfOk, OnOk};
ghost use Rattle.iso_model.specs.Disabled.{acts_unless};
ghost use Rattle.iso_model.specs.ScriptView.{class_head_of};
ghost use Rattle.iso_model.specs.SyntaxView.{block_of};
ghost use Rattle.iso_model.specs.Tests.{names_in};
ghost use Rattle.iso_lifecycle.specs.JobPlaces.{IsPlaced, head_at, job_at, outside};
ghost use Rattle.iso_lifecycle.specs.Heads.{heads_in};

use crate::job::Job;
use iso_model::bindings::Bindings;
use iso_model::heads::{ClassContents, ClassHead};
use iso_model::tree::Stmt;
use std::alloc::{AllocError, Global};
use std::mem;
use std::sync::Arc;

/// The statements of a job's block.
pub(crate) fn statements<'a>(
    classes: &'a [Arc<ClassHead>],
    body: &'a [Stmt],
    job: Job,
) -> &'a [Stmt]
    requires { IsPlaced (length classes.now) (Some job) }
    ensures { block_of result.now ≡ (job_at (heads_in classes.now) (block_of body.now) job).acts }
{
    match job {
        Job::BeforeEach(depth) => &head(classes, depth).contents.before_each,
        Job::Test => body,
        Job::AfterEach(depth) => &head(classes, depth).contents.after_each,
    }
}

/// The statements of a class's `after_all`; none where the class is disabled.
pub(crate) fn closing_statements(class: &ClassContents) -> &[Stmt]
    ensures { block_of result.now ≡ acts_unless class.now.disabled
        (block_of class.now.after_all.items) }
{
    match class.disabled {
        Some(_) => &[],
        None => &class.after_all,
    }
}

/// The head of the class at a depth.
pub(crate) fn head(classes: &[Arc<ClassHead>], depth: usize) -> &ClassHead
    requires { depth < length classes.now }
    ensures { class_head_of result.now ≡ head_at (heads_in classes.now) depth }
{
    &classes[depth]
}

/// How many of `names` names are of the `outermost` outermost classes.
pub(crate) fn names_of(classes: &[Arc<ClassHead>], outermost: usize, names: usize) -> usize
    requires { outermost ≤ length classes.now }
    ensures { result ≡ min (names_in (outside (heads_in classes.now) outermost)) names }
{
    if names == 0 {
        // As in most tests: then no class is looked at.
        return 0;
    }
    let mut count = 0;
    for depth in 0..outermost {
        count = more(head(classes, depth), count, names);
    }
    count
}

/// A number of names, and those of one class more, but at most `most`.
fn more(class: &ClassHead, count: usize, most: usize) -> usize
    requires { count ≤ most }
    ensures { result ≡ min (count + length (class_head_of class.now).statics
        + length (class_head_of class.now).fields) most }
{
    let contents = &class.contents;
    sum(
        sum(count, contents.statics.len(), most),
        contents.fields.len(),
        most,
    )
}

/// A sum, but at most `most`.
fn sum(count: usize, by: usize, most: usize) -> usize
    requires { count ≤ most }
    ensures sum { result ≡ min (count + by) most }
    ensures within { result ≤ most }
{
    if by < most - count { count + by } else { most }
}

/// Takes the first `count` names, and leaves the others. The innermost blocks see all names, which
/// then move at once.
pub(crate) fn part(
    alloc: Global,
    names: &mut Bindings,
    count: usize,
) -> Result<Bindings, AllocError>
    requires { count ≤ length names.old }
    ensures taken { IfOk result (λ taken. taken ≡ take count names.old) }
    ensures left { OnOk result (names.new ≡ drop count names.old) }
{
    if count == names.len() {
        let none = Bindings::new(alloc, Vec::new(alloc));
        return Ok(mem::replace(names, none));
    }
    let left = names.split_off(alloc, count)?;
    Ok(mem::replace(names, left))
}
