//! The statements of a body, lent. A proof that meets a block spells out its name alone, where a
//! slice of statements would have it spell out their whole tree.
ghost use Rattle.std.specs.Prelude.{◌≡◌, MatchOption};
ghost use Rattle.iso_model.specs.Syntax.{act, no_acts};
ghost use Rattle.iso_model.specs.SyntaxView.{block_of, stmt_of};
ghost use Rattle.iso_interp.specs.Blocks.{is_empty};

use iso_model::tree::Stmt;
use std::marker::Model;

/// The statements of a body, lent: all of them, or those that are left.
#[derive(Drop)]
pub struct Block<'a> {
    statements: &'a [Stmt],
}

impl<'a> Model for Block<'a> {
    ghost use Rattle.iso_model.specs.Syntax.{Acts};
    ghost use Rattle.iso_model.specs.SyntaxCodes.{acts_code};
    ghost use Rattle.iso_model.specs.SyntaxView.{block_of};

    ghost Value = { Acts };

    ghost coded = { acts_code };

    ghost view = { λ b. block_of b.statements.now };
}

impl<'a> Block<'a> {
    /// All of these statements.
    pub fn of(statements: &'a [Stmt]) -> Block<'a>
        ensures { result ≡ block_of statements.now }
    {
        Block { statements }
    }

    /// The same statements, lent once more.
    pub fn again(&self) -> Block<'a>
        ensures { result ≡ self.now }
    {
        Block {
            statements: self.statements,
        }
    }

    /// The statements themselves.
    pub fn statements(&self) -> &'a [Stmt]
        ensures { block_of result.now ≡ self.now }
    {
        self.statements
    }

    /// Whether there is no statement.
    pub fn is_empty(&self) -> bool
        ensures { result ≡ is_empty self.now }
    {
        self.statements.is_empty()
    }

    /// The first statement, and the block of those after it.
    pub fn split_first(&self) -> Option<(&'a Stmt, Block<'a>)>
        ensures { MatchOption result (self.now ≡ no_acts)
            (λ p. self.now ≡ act (stmt_of p.0.now).0 (stmt_of p.0.now).1 p.1) }
    {
        let (first, rest) = self.statements.split_first()?;
        Some((first, Block { statements: rest }))
    }
}
