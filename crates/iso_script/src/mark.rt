//! Marks.
ghost use Rattle.std.specs.List.{list_any};
ghost use Rattle.std.specs.Prelude.{◌≡◌, ℕ, List, MatchResult, Some};
ghost use Rattle.iso_model.specs.Targets.{is_for_children};
ghost use Rattle.iso_script.specs.Marks as S;
ghost use Rattle.iso_script.specs.Marks.{Adds, IsKeyText, IsMarking, IsMarks, IsTarget, Marking, fits_test, key_fault, mark_next, mark_word, marks_of};
ghost use Rattle.iso_script.specs.Wants.{after_class_marks, after_marks, after_target, is_unmarked};
ghost use Rattle.iso_script_lexer.specs.Piece.{Piece};
ghost use Rattle.iso_script_statements.specs.Faults.{IsFaultOf, IsMemory};
ghost use Rattle.iso_script_statements.specs.Parsing.{Parses};
ghost use Rattle.iso_script_statements.specs.Wanted.{IsUnmet};
ghost use Rattle.iso_script_statements.specs.declared.wanted.Wanted.TheVariants as W;

use iso_model::access::Access;
use iso_model::heads::{Mark, Target};
use iso_model::key::Key;
use iso_model::limits::KEY_BYTES;
use iso_model::script::Mode;
use iso_model::text::Text;
use iso_script_lexer::token::Token;
use iso_script_lexer::word::Word;
use iso_script_statements::fault::{ScriptError, ScriptFaultKind};
use iso_script_statements::parser::Parser;
use iso_script_statements::reason::Limit;
use iso_script_statements::wanted::Wanted;

/// The marks of a class or test.
#[derive(Drop)]
pub(crate) struct Marks {
    pub mode: Option<Mode>,
    pub isolated: bool,
    /// Why it is disabled, if it is.
    pub disabled: Option<Text>,
    /// The keys that are declared, as they are written.
    pub keys: Vec<Mark>,
}

impl Marks {
    /// Whether a test may have these marks: none isolates it, and none is for the children of a
    /// class.
    pub fn fits_test(&self) -> bool
        ensures { result ≡ fits_test (marks_of self.now) }
    {
        !self.isolated && !any_for_children(&self.keys)
    }

    /// Whether there is none.
    fn are_none(&self) -> bool
        ensures { result ≡ is_unmarked (marks_of self.now) }
    {
        self.mode.is_none() && !self.isolated && self.disabled.is_none() && self.keys.is_empty()
    }

    /// What is wanted after these marks, where no top-level class is next.
    pub fn wanted_of_a_class(&self) -> Wanted
        ensures { result ≡ after_class_marks (marks_of self.now) }
    {
        if self.are_none() {
            Wanted::TopClass
        } else {
            Wanted::MarkedClass
        }
    }

    /// What is wanted after these marks, where no member of a class is next. Without a mark, this
    /// is.
    pub fn wanted_of_a_member(&self, place: Wanted) -> Wanted
        ensures { result ≡ after_marks (marks_of self.now) place }
    {
        if self.are_none() {
            place
        } else if self.fits_test() {
            Wanted::MarkedMember
        } else {
            Wanted::MarkedClass
        }
    }
}

/// What a mark is, by its word.
#[derive(Clone, Copy)]
pub(crate) enum MarkWord {
    Mode(Mode),
    Isolated,
    Disabled,
    Access(Access),
}

/// Whether one of the marks is for the children of a class.
fn any_for_children(marks: &[Mark]) -> bool
    ensures { result ≡ list_any is_for_children marks.now }
{
    'marks: for mark in marks {
        if mark.target.is(Target::Children) {
            return true;
        }
    }
    false
}

/// What a word marks.
fn mark_word(word: Word) -> Option<MarkWord>
    ensures { result ≡ mark_word word }
{
    match word {
        Word::SameThread => Some(MarkWord::Mode(Mode::SameThread)),
        Word::Concurrent => Some(MarkWord::Mode(Mode::Concurrent)),
        Word::Isolated => Some(MarkWord::Isolated),
        Word::Disabled => Some(MarkWord::Disabled),
        Word::Read => Some(MarkWord::Access(Access::Read)),
        Word::Write => Some(MarkWord::Access(Access::Write)),
        _ => None,
    }
}

/// What the word that is next marks.
fn mark_next(parser: &Parser<'_>) -> Option<MarkWord>
    ensures { result ≡ mark_next parser.now.lexer }
{
    match parser.lexer.peek().0 {
        Token::Word(word) => mark_word(word),
        _ => None,
    }
}

/// The marks that come next. A second mode, `isolated` or `disabled` is `DoubleMember` at its word.
pub(crate) fn read_marks(parser: &mut Parser<'_>) -> Result<Marks, ScriptError>
    ensures { Parses marks_of IsMarks result parser.old.lexer parser.new.lexer }
{
    let mut marks = Marks {
        mode: None,
        isolated: false,
        disabled: None,
        keys: Vec::new(parser.alloc),
    };
    'marks: while let Some(word) = mark_next(parser) {
        add_mark(parser, word, &mut marks)?;
    }
    Ok(marks)
}

/// Adds the mark that is next, which begins with this word.
fn add_mark(parser: &mut Parser<'_>, word: MarkWord, marks: &mut Marks) -> Result<(), ScriptError>
    requires { mark_next parser.old.lexer ≡ Some word }
    ensures { MatchResult result
        (λ _. (x : Marking) × IsMarking x parser.old.lexer parser.new.lexer
        × Adds x (marks_of marks.old) (marks_of marks.new))
        (λ e. (x : Marking) (rest : List Piece) (more : S.Marks) → IsMarking x parser.old.lexer rest
        → Adds x (marks_of marks.old) more → IsMemory e) }
{
    match word {
        MarkWord::Mode(mode) if marks.mode.is_none() => {
            parser.lexer.advance();
            marks.mode = Some(mode);
        }
        MarkWord::Isolated if !marks.isolated => {
            parser.lexer.advance();
            marks.isolated = true;
        }
        MarkWord::Disabled if marks.disabled.is_none() => {
            parser.lexer.advance();
            let reason = parser.display()?;
            marks.disabled = Some(reason);
        }
        MarkWord::Access(access) => {
            parser.lexer.advance();
            let target = target(parser);
            let key = key(parser, wanted_after(target))?;
            marks.keys.push(Mark {
                access,
                target,
                key,
            })?;
        }
        _ => return Err(parser.fault_here(ScriptFaultKind::DoubleMember)),
    }
    Ok(())
}

/// What a key is declared for: the children of a class, where their word is next.
fn target(parser: &mut Parser<'_>) -> Target
    ensures { IsTarget result parser.old.lexer parser.new.lexer }
{
    if parser.lexer.takes_word(Word::Children) {
        Target::Children
    } else {
        Target::Itself
    }
}

/// What is wanted where no key is next, by what it is declared for.
fn wanted_after(target: Target) -> Wanted
    ensures { result ≡ after_target target }
{
    match target {
        Target::Itself => Wanted::Target,
        Target::Children => Wanted::Key,
    }
}

/// The key of a mark. One that may not be declared is a fault at its quote. Where none is next,
/// this is wanted.
fn key(parser: &mut Parser<'_>, wanted: Wanted) -> Result<Key, ScriptError>
    requires { IsUnmet W.Key parser.old.lexer → IsUnmet wanted parser.old.lexer }
    ensures { Parses (λ (k : List ℕ). k) IsKeyText result parser.old.lexer parser.new.lexer }
{
    let Token::Text(text) = parser.lexer.peek().0 else {
        return Err(parser.unexpected(wanted));
    };
    let key = Key::new(parser.alloc, Text::new(text.decode(parser.alloc)?))?;
    if key.as_str().is_empty() {
        return Err(parser.unexpected(wanted));
    }
    if let Some(kind) = key_fault(key.as_str()) {
        return Err(refused_key(parser, kind));
    }
    parser.lexer.advance();
    Ok(key)
}

/// The fault of a key that may not be declared, which has this kind.
fn refused_key(parser: &mut Parser<'_>, kind: ScriptFaultKind) -> ScriptError
    ensures { IsFaultOf (λ k. k ≡ kind) result }
{
    match kind {
        ScriptFaultKind::TooLong => parser.beyond(Limit::KeyBytes, kind),
        _ => parser.fault_here(kind),
    }
}

/// Why a key may not be declared: it is empty, above 255 bytes, or that of the global lock.
fn key_fault(key: &str) -> Option<ScriptFaultKind>
    ensures { result ≡ key_fault key.now }
{
    if key.is_empty() {
        Some(ScriptFaultKind::Expected)
    } else if key.len() > KEY_BYTES as usize {
        Some(ScriptFaultKind::TooLong)
    } else if key == "iso:global" {
        Some(ScriptFaultKind::GlobalKey)
    } else {
        None
    }
}
