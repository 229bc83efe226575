//! The names that a block has given before a row.
ghost use Rattle.std.specs.Prelude.{◌≡◌, OnOk, map};
ghost use Rattle.iso_explain_block.specs.Lets.{act_lets, lets, reaches};
ghost use Rattle.iso_model.specs.SyntaxView.{block_of, stmt_of};

use iso_model::tree::{Form, Stmt};
use std::alloc::AllocError;

/// Adds the names that `let` gave before a row and that are visible there, of a body.
#[cycle(lets)]
pub(crate) fn add_lets<'a>(
    names: &mut Vec<&'a str>,
    row: u32,
    statements: &'a [Stmt],
) -> Result<(), AllocError>
    ensures { OnOk result (map (λ n. n.now) names.new.items
        ≡ lets row (block_of statements.now) (map (λ n. n.now) names.old.items)) }
{
    for i in 0..statements.len() {
        add_let(names, row, &statements[i], &statements[i + 1..])?;
    }
    Ok(())
}

/// The same of a statement, with those after it.
#[cycle(lets)]
fn add_let<'a>(
    names: &mut Vec<&'a str>,
    row: u32,
    statement: &'a Stmt,
    rest: &[Stmt],
) -> Result<(), AllocError>
    ensures { OnOk result (map (λ n. n.now) names.new.items ≡
        act_lets row (stmt_of statement.now).0 (stmt_of statement.now).1 (block_of rest.now)
        (map (λ n. n.now) names.old.items)) }
{
    if statement.row > row {
        return Ok(());
    }
    let ended = reaches(row, rest);
    match &statement.form {
        Form::Let(name, _) => {
            if ended || statement.row < row {
                names.push(name.as_str())?;
            }
            Ok(())
        }
        Form::If(_, body) | Form::Repeat(_, body) => {
            if ended {
                return Ok(());
            }
            add_lets(names, row, body)
        }
        Form::IfElse(_, bodies) => {
            if ended {
                return Ok(());
            }
            if reaches(row, &bodies.second) {
                return add_lets(names, row, &bodies.second);
            }
            add_lets(names, row, &bodies.first)
        }
        Form::Assign(_, _)
        | Form::One(_, _)
        | Form::Two(_, _, _)
        | Form::Assume(_, _)
        | Form::Fail(_) => Ok(()),
    }
}

/// Whether statements begin on a row or before it.
fn reaches(row: u32, statements: &[Stmt]) -> bool
    ensures { result ≡ reaches row (block_of statements.now) }
{
    match statements.first() {
        Some(statement) => statement.row <= row,
        None => false,
    }
}
