ghost use Rattle.std.specs.Prelude.{◌≡◌, ◌↔◌, IsTrue, map};
ghost use Rattle.iso_model.specs.SyntaxView.{block_of, form_of, stmt_of};

use crate::same::expressions::same_expr;
use crate::tree::{Form, OneOperand, Stmt, TwoOperands};

/// Whether two statements of one expression have one form.
fn same_one(a: OneOperand, b: OneOperand) -> bool
    ensures { IsTrue result ↔ (a ≡ b) }
{
    a as u8 == b as u8
}

/// Whether two statements of two expressions have one form.
fn same_two(a: TwoOperands, b: TwoOperands) -> bool
    ensures { IsTrue result ↔ (a ≡ b) }
{
    a as u8 == b as u8
}

/// Whether two statements do the same.
#[cycle(statement)]
fn same_form(a: &Form, b: &Form) -> bool
    ensures { IsTrue result ↔ (form_of a.now ≡ form_of b.now) }
{
    match (a, b) {
        (Form::Let(x, e), Form::Let(y, f))
        | (Form::Assign(x, e), Form::Assign(y, f))
        | (Form::Assume(e, x), Form::Assume(f, y)) => x.as_str() == y.as_str() && same_expr(e, f),
        (Form::One(p, e), Form::One(q, f)) => same_one(*p, *q) && same_expr(e, f),
        (Form::Two(p, c, e), Form::Two(q, d, f)) => {
            same_two(*p, *q) && same_expr(c, d) && same_expr(e, f)
        }
        (Form::Fail(x), Form::Fail(y)) => x.as_str() == y.as_str(),
        (Form::If(e, xs), Form::If(f, ys)) => same_expr(e, f) && same_stmts(xs, ys),
        (Form::IfElse(e, xs), Form::IfElse(f, ys)) => {
            same_expr(e, f)
                && same_stmts(&xs.first, &ys.first)
                && same_stmts(&xs.second, &ys.second)
        }
        (Form::If(e, xs), Form::IfElse(f, ys)) => {
            same_expr(e, f) && same_stmts(xs, &ys.first) && ys.second.is_empty()
        }
        (Form::IfElse(e, xs), Form::If(f, ys)) => {
            same_expr(e, f) && same_stmts(&xs.first, ys) && xs.second.is_empty()
        }
        (Form::Repeat(e, xs), Form::Repeat(f, ys)) => same_expr(e, f) && same_stmts(xs, ys),
        _ => false,
    }
}

/// Whether two statements stand on one row of their blocks and do the same. Takes no memory, and
/// recurses down their nesting alone.
#[cycle(statement)]
pub fn same_stmt(a: &Stmt, b: &Stmt) -> bool
    ensures { IsTrue result ↔ (stmt_of a.now ≡ stmt_of b.now) }
{
    a.row == b.row && same_form(&a.form, &b.form)
}

/// Whether two lists of statements say the same.
#[cycle(statement)]
fn same_stmts(a: &[Stmt], b: &[Stmt]) -> bool
    ensures { IsTrue result ↔ (map stmt_of a.now ≡ map stmt_of b.now) }
{
    if a.len() != b.len() {
        return false;
    }
    'stmts: for i in 0..a.len() {
        if !same_stmt(&a[i], &b[i]) {
            return false;
        }
    }
    true
}

/// Whether two blocks say the same, on the same rows. Takes no memory, and recurses down their
/// nesting alone.
pub fn same_block(a: &[Stmt], b: &[Stmt]) -> bool
    ensures { IsTrue result ↔ (block_of a.now ≡ block_of b.now) }
{
    same_stmts(a, b)
}
