//! The fault at a token that the grammar doesn't allow where it stands.
ghost use Rattle.std.specs.Prelude.{◌≡◌};
ghost use Rattle.iso_script_statements.specs.Faults.{IsFaultOf, IsUnexpected};
ghost use Rattle.iso_script_statements.specs.Reasons.{Tells};
ghost use Rattle.iso_script_statements.specs.Wanted.{IsUnmet};

use crate::fault::{ScriptError, ScriptFault, ScriptFaultKind};
use crate::parser::Parser;
use crate::reason::Reason;
use crate::unmet::Unmet;
use crate::wanted::Wanted;
use iso_script_lexer::token::Token;

impl<'a> Parser<'a> {
    /// The fault at the token that is next, where this is wanted, which it is not. What is no token
    /// has a kind of its own, and so has 2^63, which only the minus of a literal may precede.
    pub fn unexpected(&mut self, wanted: Wanted) -> ScriptError
        requires { IsUnmet wanted self.old.lexer }
        ensures fault { IsFaultOf (IsUnexpected self.old.lexer) result }
        ensures told { Tells wanted self.new.reason }
    {
        let (found, place) = self.lexer.peek();
        self.reason = Reason::Unmet(Unmet { wanted, found });
        let kind = match found {
            Token::Bad(fault) => ScriptFaultKind::from(fault),
            Token::Number(number) if i64::try_from(number).is_err() =>
                ScriptFaultKind::NumberTooBig,
            Token::End => ScriptFaultKind::EndOfInput,
            _ => ScriptFaultKind::Expected,
        };
        ScriptError::Fault(ScriptFault::at(kind, place))
    }
}
