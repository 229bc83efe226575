//! Statics and fields.
ghost use Rattle.std.specs.Prelude.{◌≡◌, ◌++◌, ◌∷◌, [], ℕ, List, IfErr, IfOk, Some, false};
ghost use Rattle.iso_script.specs.Variables.{IsDeclared, IsNew, IsVariables, KnowAll, is_in_any, names_of, variable_next, variable_word, variables_of};
ghost use Rattle.iso_script_lexer.specs.Piece.{Piece};
ghost use Rattle.iso_model.specs.declared.heads.Variable as V;
ghost use Rattle.iso_script_statements.specs.Faults.{IsMemory};
ghost use Rattle.iso_model.specs.NameSets.{Knows, is_among};
ghost use Rattle.iso_script_statements.specs.Parsing.{Parses};
ghost use Rattle.iso_script_statements.specs.Pieces.{name_next};

use iso_model::distinct::claim;
use iso_model::heads::Variable;
use iso_model::text::Text;
use iso_script_lexer::symbol::Symbol;
use iso_script_lexer::token::Token;
use iso_script_lexer::word::Word;
use iso_script_statements::fault::{ScriptError, ScriptFaultKind};
use iso_script_statements::parser::Parser;
use iso_script_statements::wanted::Wanted;
use std::collections::BTreeSet;

/// The statics and fields of a class.
#[derive(Drop)]
pub(crate) struct Variables<'a> {
    pub statics: Vec<Variable>,
    pub fields: Vec<Variable>,
    /// The names of both.
    pub names: BTreeSet<&'a str>,
}

/// What a variable is, by its word.
#[derive(Clone, Copy)]
pub(crate) enum VariableWord {
    Static,
    Field,
}

/// What variable a word begins.
fn variable_word(word: Word) -> Option<VariableWord>
    ensures { result ≡ variable_word word }
{
    match word {
        Word::Static => Some(VariableWord::Static),
        Word::Field => Some(VariableWord::Field),
        _ => None,
    }
}

/// What variable the word that is next begins.
fn variable_next(parser: &Parser<'_>) -> Option<VariableWord>
    ensures { result ≡ variable_next parser.now.lexer }
{
    match parser.lexer.peek().0 {
        Token::Word(word) => variable_word(word),
        _ => None,
    }
}

/// The statics and fields that come next, in a class whose enclosing classes have these names. A
/// name that an earlier one of the class or an enclosing class has is `NameTaken`, at the name.
pub(crate) fn read_variables<'a>(
    parser: &mut Parser<'a>,
    enclosing: &[BTreeSet<&'a str>],
) -> Result<Variables<'a>, ScriptError>
    ensures read { (taken : List (List ℕ)) → KnowAll enclosing.now taken
        → Parses variables_of (IsVariables taken) result parser.old.lexer parser.new.lexer }
    ensures names { IfOk result (λ v. Knows v.names (names_of (variables_of v))) }
{
    let mut variables = Variables {
        statics: Vec::new(parser.alloc),
        fields: Vec::new(parser.alloc),
        names: BTreeSet::new(parser.alloc),
    };
    'written: while let Some(word) = variable_next(parser) {
        let variable = read_variable(parser, word, enclosing, &mut variables.names)?;
        match word {
            VariableWord::Static => variables.statics.push(variable)?,
            VariableWord::Field => variables.fields.push(variable)?,
        }
    }
    Ok(variables)
}

/// The static or field that is next, which begins with this word: its name is none of those of the
/// enclosing classes and of its own, to which it is added.
fn read_variable<'a>(
    parser: &mut Parser<'a>,
    word: VariableWord,
    enclosing: &[BTreeSet<&'a str>],
    own: &mut BTreeSet<&'a str>,
) -> Result<Variable, ScriptError>
    requires { variable_next parser.old.lexer ≡ Some word }
    ensures found { IfOk result
        (λ v. IsDeclared (record { word = word; variable = v }) parser.old.lexer parser.new.lexer) }
    ensures free { (taken : List (List ℕ)) → KnowAll enclosing.now taken
        → IfOk result (λ v. is_among taken v.name ≡ false) }
    ensures fresh { (names : List (List ℕ)) → Knows own.old names
        → IfOk result (λ v. (is_among names v.name ≡ false)
        × Knows own.new (names ++ v.name ∷ [])) }
    ensures only { (taken names : List (List ℕ)) → KnowAll enclosing.now taken → Knows own.old names
        → IfErr result (λ e. (v : V.Variable) (rest : List Piece)
        → IsDeclared (record { word = word; variable = v }) parser.old.lexer rest
        → IsNew taken names v.name → IsMemory e) }
{
    parser.lexer.advance();
    let name = free_name(parser, enclosing, own)?;
    parser.expect(Symbol::Equals)?;
    let value = parser.literal(Wanted::Literal)?;
    parser.expect(Symbol::Semicolon)?;
    Ok(Variable {
        name: Text::copied(parser.alloc, name)?,
        value,
    })
}

/// A name that is none of those of the enclosing classes and of its own, to which it is added.
fn free_name<'a>(
    parser: &mut Parser<'a>,
    enclosing: &[BTreeSet<&'a str>],
    own: &mut BTreeSet<&'a str>,
) -> Result<&'a str, ScriptError>
    ensures found { IfOk result (λ n. name_next parser.old.lexer ≡ Some (n.now, parser.new.lexer)) }
    ensures free { (taken : List (List ℕ)) → KnowAll enclosing.now taken
        → IfOk result (λ n. is_among taken n.now ≡ false) }
    ensures fresh { (names : List (List ℕ)) → Knows own.old names
        → IfOk result (λ n. (is_among names n.now ≡ false) × Knows own.new (names ++ n.now ∷ [])) }
    ensures only { (taken names : List (List ℕ)) → KnowAll enclosing.now taken → Knows own.old names
        → (n : List ℕ) (rest : List Piece) → name_next parser.old.lexer ≡ Some (n, rest)
        → IsNew taken names n → IfErr result IsMemory }
{
    let Token::Name(name) = parser.lexer.peek().0 else {
        return Err(parser.unexpected(Wanted::Name));
    };
    if is_taken(enclosing, name) {
        return Err(parser.fault_here(ScriptFaultKind::NameTaken));
    }
    if !claim(own, name)? {
        return Err(parser.fault_here(ScriptFaultKind::NameTaken));
    }
    parser.lexer.advance();
    Ok(name)
}

/// Whether one of the sets has this name.
fn is_taken<'a>(sets: &[BTreeSet<&'a str>], name: &'a str) -> bool
    ensures { result ≡ is_in_any sets.now name.now }
{
    'sets: for names in sets {
        if names.contains(name) {
            return true;
        }
    }
    false
}
