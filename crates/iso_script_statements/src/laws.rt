//! Laws of the grammar, each a function whose contract it is.
ghost use Rattle.std.specs.Prelude.{◌≡◌, List};
ghost use Rattle.iso_script_lexer.specs.Piece.{Piece};
ghost use Rattle.iso_model.specs.Syntax.{Acts};
ghost use Rattle.iso_script_statements.specs.Statements.{IsBlock};

/// Pieces are one block at most, and what follows it.
pub fn blocks_are_unique()
    ensures { (a b : Acts) (ps qs rs : List Piece) → IsBlock a ps qs → IsBlock b ps rs
        → (a ≡ b) × (qs ≡ rs) }
{}
