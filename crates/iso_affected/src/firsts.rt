//! Where two lists of statements, or of variables, differ first.
ghost use Rattle.std.specs.Prelude.{◌≡◌, map};
ghost use Rattle.iso_affected.specs.Firsts.{AreRowsApart, IsFirst, row_in};
ghost use Rattle.iso_model.specs.SyntaxView.{stmt_of};

use iso_model::heads::Variable;
use iso_model::same::heads::same_variable;
use iso_model::same::statements::same_stmt;
use iso_model::tree::Stmt;

/// The rows of what stands in two blocks at the first place where they differ: none of a block that
/// has ended there.
#[derive(Clone, Copy, PartialEq, Eq)]
pub struct RowsApart {
    pub before: Option<u32>,
    pub now: Option<u32>,
}

/// The rows of what stands in two blocks at the first place where they differ, if they do.
pub(crate) fn rows_apart(was: &[Stmt], now: &[Stmt]) -> Option<RowsApart>
    ensures { AreRowsApart (map stmt_of was.now) (map stmt_of now.now) result }
{
    match first_statement(was, now) {
        Some(place) => Some(RowsApart {
            before: row_at(was, place),
            now: row_at(now, place),
        }),
        None => None,
    }
}

/// The row of the statement at a place, if there is one.
fn row_at(block: &[Stmt], place: usize) -> Option<u32>
    ensures { result ≡ row_in (map stmt_of block.now) place }
{
    if place < block.len() {
        Some(block[place].row)
    } else {
        None
    }
}

/// The first place where two blocks differ. A statement with all that is nested in it counts as
/// one.
fn first_statement(was: &[Stmt], now: &[Stmt]) -> Option<usize>
    ensures { IsFirst (map stmt_of was.now) (map stmt_of now.now) result }
{
    let both = was.len().min(now.len());
    'statements: for place in 0..both {
        if !same_stmt(&was[place], &now[place]) {
            return Some(place);
        }
    }
    if was.len() == now.len() {
        None
    } else {
        Some(both)
    }
}

/// The first place where two lists of statics, or of fields, differ.
pub(crate) fn first_variable(was: &[Variable], now: &[Variable]) -> Option<usize>
    ensures { IsFirst was.now now.now result }
{
    let both = was.len().min(now.len());
    'variables: for place in 0..both {
        if !same_variable(&was[place], &now[place]) {
            return Some(place);
        }
    }
    if was.len() == now.len() {
        None
    } else {
        Some(both)
    }
}
