//! Names that have to be new.
ghost use Rattle.std.specs.Prelude.{◌≡◌, ℕ, List, [], ◌∷◌, ◌++◌, IfErr, IfOk, None, Some, false, not, true};
ghost use Rattle.iso_script_lexer.specs.Piece.{Piece};
ghost use Rattle.iso_script_statements.specs.Faults.{IsFaultOf, IsMemory, IsMemoryOr, IsUnexpected};
ghost use Rattle.iso_model.specs.NameSets.{is_among};
ghost use Rattle.iso_script_statements.specs.Pieces.{name_next};
ghost use Rattle.iso_script_statements.specs.SeenNames.{HasSeen};

use crate::fault::{ScriptError, ScriptFaultKind};
use crate::parser::Parser;
use crate::seen_names::SeenNames;
use crate::wanted::Wanted;
use iso_script_lexer::token::Token;

impl<'a> Parser<'a> {
    /// A name that is none of those seen, and is one of them then. Where it is one of them already,
    /// the fault has this kind.
    pub fn new_name(
        &mut self,
        seen: &mut SeenNames<'a>,
        kind: ScriptFaultKind,
    ) -> Result<&'a str, ScriptError>
        ensures found { IfOk result (λ n. name_next self.old.lexer ≡ Some (n.now, self.new.lexer)) }
        ensures fresh { (names : List (List ℕ)) → HasSeen seen.old names
            → IfOk result (λ n. (is_among names n.now ≡ false)
            × HasSeen seen.new (names ++ n.now ∷ [])) }
        ensures only { (names : List (List ℕ)) → HasSeen seen.old names
            → (n : List ℕ) (rest : List Piece) → name_next self.old.lexer ≡ Some (n, rest)
            → is_among names n ≡ false → IfErr result IsMemory }
        ensures taken { (names : List (List ℕ)) → HasSeen seen.old names
            → (n : List ℕ) (rest : List Piece) → name_next self.old.lexer ≡ Some (n, rest)
            → is_among names n ≡ true → IfErr result (IsMemoryOr kind) }
        ensures unexpected { name_next self.old.lexer ≡ None
            → IfErr result (IsFaultOf (IsUnexpected self.old.lexer)) }
    {
        let Token::Name(name) = self.lexer.peek().0 else {
            return Err(self.unexpected(Wanted::Name));
        };
        if !seen.claim(name)? {
            return Err(self.fault_here(kind));
        }
        self.lexer.advance();
        Ok(name)
    }
}
