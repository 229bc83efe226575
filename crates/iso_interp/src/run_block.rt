//! A block from its beginning to its end.
ghost use Rattle.std.specs.Prelude.{◌≡◌, IfOk, OnOk};
ghost use Rattle.iso_model.specs.Blocks.{block};
ghost use Rattle.iso_model.specs.Rights.{access_in};
ghost use Rattle.iso_model.specs.SyntaxView.{block_of};
ghost use Rattle.iso_model.specs.Touch.{HasKeys};
ghost use Rattle.iso_interp.specs.Runs.{end_state};

use crate::run::{BlockEnd, BlockRun};
use iso_model::names::Names;
use iso_model::rights::Rights;
use iso_model::touch::Touch;
use iso_model::tree::Stmt;
use std::alloc::{AllocError, Global};

/// For a runner of one's own: runs a block to its end. Out of memory is the only error; it leaves
/// the resources as they were after some step.
pub fn run_block<T: Touch>(
    alloc: Global,
    statements: &[Stmt],
    names: Names,
    rights: &Rights,
    touch: &mut T,
) -> Result<BlockEnd, AllocError>
    requires { HasKeys (access_in rights.now) (T.content touch.old) (T.writes touch.old) }
    ensures whole { IfOk result (λ e. end_state e (T.content touch.new)
        ≡ block (access_in rights.now) (block_of statements.now) names (T.content touch.old)) }
    ensures keys { OnOk result (HasKeys (access_in rights.now) (T.content touch.new)
        (T.writes touch.new)) }
    ensures goes_on { T.goes_on touch.old touch.new }
{
    let mut run = BlockRun::new(alloc, statements, names, rights);
    while !run.is_ended() {
        run.step(touch)?;
    }
    Ok(run.finish())
}
