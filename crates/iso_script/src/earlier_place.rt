//! Where a name, a mark or a block that stands a second time stood first.
ghost use Rattle.std.specs.Prelude.{◌≤◌, length};
ghost use Rattle.iso_model.specs.declared.limits.TheConstants.{FILE_BYTES};

use crate::context::is_reached;
use iso_script_lexer::lexer::Lexer;
use iso_script_lexer::symbol::Symbol;
use iso_script_lexer::token::{Position, Token};
use iso_script_lexer::word::Word;
use iso_script_statements::fault::ScriptFaultKind;
use std::alloc::{AllocError, Global};

/// What stands a second time.
#[derive(Clone, Copy)]
pub(crate) enum Twice<'a> {
    /// A lifecycle block of this word.
    Block(Word),
    /// A mark of this word, or another mode.
    Mark(Word),
    /// A test or class of this name.
    Member(&'a str),
    /// A static or field of this name.
    Variable(&'a str),
}

impl<'a> Twice<'a> {
    /// What a fault of this kind at this token says.
    pub fn of(kind: ScriptFaultKind, found: Token<'a>) -> Option<Twice<'a>> {
        match (kind, found) {
            (ScriptFaultKind::DoubleBlock, Token::Word(word)) => Some(Twice::Block(word)),
            (ScriptFaultKind::DoubleMember, Token::Word(word)) => Some(Twice::Mark(word)),
            (ScriptFaultKind::DoubleMember, Token::Name(name)) => Some(Twice::Member(name)),
            (ScriptFaultKind::NameTaken, Token::Name(name)) => Some(Twice::Variable(name)),
            _ => None,
        }
    }

    /// Whether this token, after that word, is the same.
    fn is(self, before: Option<Word>, token: Token<'_>) -> bool {
        match (self, token) {
            (Twice::Block(word), Token::Word(other)) => word.is(other),
            (Twice::Mark(word), Token::Word(other)) => word.is(other)
                || is_mode(word) && is_mode(other),
            (Twice::Member(name), Token::Name(other)) => name == other
                && matches!(before, Some(Word::Test | Word::Class)),
            (Twice::Variable(name), Token::Name(other)) => name == other
                && matches!(before, Some(Word::Static | Word::Field)),
            _ => false,
        }
    }
}

/// Whether a mark of this word says how to run.
fn is_mode(word: Word) -> bool {
    matches!(word, Word::SameThread | Word::Concurrent)
}

/// Where something stood first: at the top, and in each brace that is open, outside the braces in
/// it.
#[derive(Drop)]
struct Seen {
    places: Vec<Option<Position>>,
    before: Option<Word>,
}

impl Seen {
    /// Goes past a token, which stands at this position.
    fn pass(
        &mut self,
        twice: Twice<'_>,
        token: Token<'_>,
        position: Position,
    ) -> Result<(), AllocError> {
        if let Token::Symbol(symbol) = token {
            self.pass_symbol(twice, symbol)?;
        }
        if twice.is(self.before, token)
            && let Some(place) = self.places.last_mut()
            && place.is_none()
        {
            *place = Some(position);
        }
        self.before = match token {
            Token::Word(word) => Some(word),
            _ => None,
        };
        Ok(())
    }

    /// Goes past a symbol. Marks stand together, with no symbol between them.
    fn pass_symbol(&mut self, twice: Twice<'_>, symbol: Symbol) -> Result<(), AllocError> {
        match symbol {
            Symbol::OpenBrace => self.places.push(None)?,
            Symbol::CloseBrace => {
                self.places.pop();
            }
            _ => {}
        }
        if matches!(twice, Twice::Mark(_))
            && let Some(place) = self.places.last_mut()
        {
            *place = None;
        }
        Ok(())
    }

    /// The place of what stands a second time in a brace that is open: that of the innermost for a
    /// member, a mark and a block, and of any for a static or field.
    fn first(&self, twice: Twice<'_>) -> Option<Position> {
        match twice {
            Twice::Variable(_) => self.places.iter().copied().flatten().next(),
            _ => self.places.last().copied().flatten(),
        }
    }
}

/// Where it stands first, of what stands a second time at this position of a script.
pub(crate) fn first_of(
    alloc: Global,
    bytes: &[u8],
    at: Position,
    twice: Twice<'_>,
) -> Result<Option<Position>, AllocError>
    requires { length bytes.now ≤ FILE_BYTES }
{
    let mut lexer = Lexer::new(bytes);
    let mut seen = Seen {
        places: vec![in alloc; None]?,
        before: None,
    };
    'tokens: while !is_reached(&lexer, at) {
        let (token, position) = lexer.peek();
        seen.pass(twice, token, position)?;
        lexer.advance();
    }
    Ok(seen.first(twice))
}
