ghost use Rattle.std.specs.Prelude.{◌≡◌, ◌↔◌, IsTrue, map};
ghost use Rattle.iso_model.specs.SyntaxView.{term_of};

use crate::data::Data;
use crate::tree::{Comparison, Expr, Function, Operator};

/// Whether two values are equal. Takes no memory.
pub fn same_data(a: &Data, b: &Data) -> bool
    ensures { IsTrue result ↔ (a.now ≡ b.now) }
{
    match (a, b) {
        (Data::Whole(x), Data::Whole(y)) => x == y,
        (Data::Flag(x), Data::Flag(y)) => x == y,
        (Data::Text(x), Data::Text(y)) => x.as_str() == y.as_str(),
        _ => false,
    }
}

/// Whether two operators are one.
fn same_operator(a: Operator, b: Operator) -> bool
    ensures { IsTrue result ↔ (a ≡ b) }
{
    a as u8 == b as u8
}

/// Whether two comparisons are one.
fn same_comparison(a: Comparison, b: Comparison) -> bool
    ensures { IsTrue result ↔ (a ≡ b) }
{
    a as u8 == b as u8
}

/// Whether two functions are one.
fn same_function(a: Function, b: Function) -> bool
    ensures { IsTrue result ↔ (a ≡ b) }
{
    a as u8 == b as u8
}

/// Whether two expressions say the same.
#[cycle(expression)]
pub(crate) fn same_expr(a: &Expr, b: &Expr) -> bool
    ensures { IsTrue result ↔ (term_of a.now ≡ term_of b.now) }
{
    match (a, b) {
        (Expr::Whole(x), Expr::Whole(y)) => x == y,
        (Expr::Flag(x), Expr::Flag(y)) => x == y,
        (Expr::Text(x), Expr::Text(y)) | (Expr::Name(x), Expr::Name(y)) => {
            x.as_str() == y.as_str()
        }
        (Expr::Chain(p, x), Expr::Chain(q, y)) => {
            same_operator(*p, *q) && same_expr(&x.first, &y.first) && same_exprs(&x.rest, &y.rest)
        }
        (Expr::Compare(p, x, u), Expr::Compare(q, y, v)) => {
            same_comparison(*p, *q) && same_expr(x, y) && same_expr(u, v)
        }
        (Expr::Call(f, x), Expr::Call(g, y)) => same_function(*f, *g) && same_expr(x, y),
        (Expr::Locale, Expr::Locale) => true,
        _ => false,
    }
}

/// Whether two lists of expressions say the same.
#[cycle(expression)]
fn same_exprs(a: &[Expr], b: &[Expr]) -> bool
    ensures { IsTrue result ↔ (map term_of a.now ≡ map term_of b.now) }
{
    if a.len() != b.len() {
        return false;
    }
    'exprs: for i in 0..a.len() {
        if !same_expr(&a[i], &b[i]) {
            return false;
        }
    }
    true
}
