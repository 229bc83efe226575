//! Laws of the grammar, each a function whose contract it is.
ghost use Rattle.std.specs.Prelude.{◌≡◌, ◌≤◌, ◌+◌, ◌-◌, ℕ, List, ◌∷◌, ◌++◌, Option};
ghost use Rattle.iso_model.specs.Scripts.{Script};
ghost use Rattle.iso_script.specs.Blocks.{Blocks, IsBlocks};
ghost use Rattle.iso_script.specs.Displays.{IsDisplayed};
ghost use Rattle.iso_script.specs.Grammar.{Reads, ReadsPlaced};
ghost use Rattle.iso_script.specs.Marks.{IsMarks, Marks};
ghost use Rattle.iso_script.specs.Variables.{IsVariables, Variables};
ghost use Rattle.iso_script.specs.declared.place.NodePlace.{NodePlace};
ghost use Rattle.iso_model.specs.Syntax.{Act, Acts, act};
ghost use Rattle.iso_script_lexer.specs.LexicalGrammar.{ArePiecesOf};
ghost use Rattle.iso_script_lexer.specs.Piece.{Piece, symbol_at};
ghost use Rattle.iso_script_lexer.specs.declared.symbol.Symbol.TheVariants.{OpenBrace};
ghost use Rattle.iso_script_lexer.specs.declared.token.Position.{Position};
ghost use Rattle.iso_script_statements.specs.Pieces.{line_of};
ghost use Rattle.iso_script_statements.specs.Statements.{IsStatements};

/// Pieces are the marks of one class or test at most, and what follows them.
pub fn marks_are_unique()
    ensures { (a b : Marks) (ps qs rs : List Piece) → IsMarks a ps qs → IsMarks b ps rs
        → (a ≡ b) × (qs ≡ rs) }
{}

/// Pieces are one display text at most, or none, and what follows it.
pub fn display_texts_are_unique()
    ensures { (a b : Option (List ℕ)) (ps qs rs : List Piece) → IsDisplayed a ps qs
        → IsDisplayed b ps rs
        → (a ≡ b) × (qs ≡ rs) }
{}

/// Pieces are the lifecycle blocks of one class at most, and what follows them.
pub fn blocks_are_unique()
    ensures { (a b : Blocks) (ps qs rs : List Piece) → IsBlocks a ps qs → IsBlocks b ps rs
        → (a ≡ b) × (qs ≡ rs) }
{}

/// Pieces are the statics and fields of one class at most, and what follows them.
pub fn variables_are_unique()
    ensures { (taken : List (List ℕ)) (a b : Variables) (ps qs rs : List Piece)
        → IsVariables taken a ps qs
        → IsVariables taken b ps rs → (a ≡ b) × (qs ≡ rs) }
{}

/// Bytes are one script at most.
pub fn scripts_are_unique()
    ensures { (bytes : List ℕ) (s t : Script) → Reads bytes s → Reads bytes t → s ≡ t }
{}

/// The nodes of a script have one list of places at most.
pub fn places_are_unique()
    ensures { (bytes : List ℕ) (s t : Script) (places others : List NodePlace)
        → ReadsPlaced bytes s places
        → ReadsPlaced bytes t others → (s ≡ t) × (places ≡ others) }
{}

/// Lines count from 1, so that no block has line 0.
pub fn lines_count_from_one()
    ensures { (bytes : List ℕ) (before ps : List Piece) (p : Piece)
        → ArePiecesOf bytes (before ++ p ∷ ps) → 1 ≤ line_of p }
{}

/// Where statements stand in a block, at any depth, the line of its opening brace and the row of
/// the first of them say on which line this one's first token is: row 1 is the line of the brace.
pub fn rows_count_lines_from_the_brace()
    ensures { (bytes : List ℕ) (before within ps qs : List Piece) (b : Position) (p : Piece)
        (d row : ℕ) (a : Act) (more : Acts)
        → ArePiecesOf bytes (before ++ symbol_at b OpenBrace ∷ (within ++ p ∷ ps))
        → IsStatements d (b.line - 1) (act row a more) (p ∷ ps) qs → b.line + row - 1 ≡ line_of p }
{}
