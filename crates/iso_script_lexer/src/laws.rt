//! Laws of the lexical grammar, each a function whose contract it is.
ghost use Rattle.iso_script_lexer.specs.LexicalGrammar.{PiecesAreUnique};

/// Bytes have one list of pieces at most.
pub fn pieces_are_unique()
    ensures { PiecesAreUnique }
{}
