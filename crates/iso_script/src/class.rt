//! Classes and their members.
ghost use Rattle.std.specs.Prelude.{◌≡◌, ◌≢◌, ℕ, suc, List, [], ◌∷◌, ◌++◌, IfOk, MatchResult, Some, None, is_some, ◌&&◌, if◌then◌else◌, nat_eq};
ghost use Rattle.iso_script.specs.Marks.{fits_test, marks_of};
ghost use Rattle.iso_script.specs.Variables.{KnowAll};
ghost use Rattle.iso_script_lexer.specs.Tokens.{after_word};
ghost use Rattle.iso_script_lexer.specs.declared.word.Word.TheVariants as W;
ghost use Rattle.iso_model.specs.ScriptView.{class_of, member_of};
ghost use Rattle.iso_script.specs.Grammar.{HasMembers, IsClass, IsNewMember, IsTopClass, members_in, name_of};
ghost use Rattle.iso_script_statements.specs.SeenNames.{HasSeen};
ghost use Rattle.iso_script.specs.Places.{ParsesPlaced, kept};
ghost use Rattle.iso_script.specs.Wants.{IsPlace};
ghost use Rattle.iso_script_statements.specs.Wanted.{IsUnmet};
ghost use Rattle.iso_script_statements.specs.declared.wanted.Wanted.TheVariants as V;

use crate::block::read_blocks;
use crate::head::class_head;
use crate::mark::{Marks, read_marks};
use crate::place::Places;
use crate::test::read_test;
use crate::title::{read_display, wanted_after};
use crate::variable::{Variables, read_variables};
use iso_model::limits::CLASS_DEPTH;
use iso_model::script::{Class, Member};
use iso_model::text::Text;
use iso_script_lexer::symbol::Symbol;
use iso_script_lexer::token::Position;
use iso_script_lexer::word::Word;
use iso_script_statements::fault::{ScriptError, ScriptFaultKind};
use iso_script_statements::parser::Parser;
use iso_script_statements::reason::Limit;
use iso_script_statements::seen_names::SeenNames;
use iso_script_statements::wanted::Wanted;
use std::collections::BTreeSet;
use std::sync::Arc;

/// A top-level class.
pub(crate) fn read_top_class(
    parser: &mut Parser<'_>,
    places: &mut Places,
) -> Result<Class, ScriptError>
    requires { parser.old.lexer ≢ [] }
    ensures { ParsesPlaced class_of IsTopClass result parser.old.lexer parser.new.lexer
        (kept places.old) (kept places.new) }
{
    let marks = read_marks(parser)?;
    let wanted = marks.wanted_of_a_class();
    let more = open_class(parser, CLASS_DEPTH, wanted)?;
    let at = parser.lexer.peek().1;
    let name = parser.name()?;
    let mut scopes = Vec::new(parser.alloc);
    read_class(parser, marks, name, at, &mut scopes, more, places)
}

/// Whether a test of these marks may be next: its word is, and the marks fit one.
fn is_at_test(parser: &Parser<'_>, marks: &Marks) -> bool
    ensures { result ≡ (fits_test (marks_of marks.now)
        && is_some (after_word W.Test parser.now.lexer)) }
{
    marks.fits_test() && parser.is_at_word(Word::Test)
}

/// What is wanted where a member is, after `members` members.
fn member_place(members: usize, first: Wanted) -> Wanted
    ensures { result ≡ (if nat_eq members 0 then first else V.Member) }
{
    if members == 0 { first } else { Wanted::Member }
}

/// Goes past the word `class`, which has to be next, where `left` classes may be opened. Answers
/// how many more may be. Where none may be, the class is `TooDeep` at its word, and where the word
/// is not next, this is wanted.
fn open_class(parser: &mut Parser<'_>, left: u32, wanted: Wanted) -> Result<u32, ScriptError>
    requires { after_word W.Class parser.old.lexer ≡ None → IsUnmet wanted parser.old.lexer }
    ensures { MatchResult result
        (λ more. (left ≡ suc more) × (after_word W.Class parser.old.lexer ≡ Some parser.new.lexer))
        (λ e. (more : ℕ) → left ≡ suc more → after_word W.Class parser.old.lexer ≡ None) }
{
    if !parser.is_at_word(Word::Class) {
        return Err(parser.unexpected(wanted));
    }
    let Some(more) = left.checked_sub(1) else {
        return Err(parser.beyond(Limit::Classes, ScriptFaultKind::TooDeep));
    };
    parser.lexer.advance();
    Ok(more)
}

/// A class of these marks, after its name, which stands at this position. `classes` more may
/// be opened in it, and the scopes have the names of the statics and fields of the enclosing
/// classes.
#[cycle(class)]
fn read_class<'a>(
    parser: &mut Parser<'a>,
    marks: Marks,
    name: &'a str,
    at: Position,
    scopes: &mut Vec<BTreeSet<&'a str>>,
    classes: u32,
    places: &mut Places,
) -> Result<Class, ScriptError>
    ensures read { (taken : List (List ℕ)) → KnowAll scopes.old.items taken
        → ParsesPlaced class_of (IsClass classes taken (marks_of marks) name.now at) result
        parser.old.lexer parser.new.lexer (kept places.old) (kept places.new) }
    ensures kept { IfOk result (λ _. scopes.new.items ≡ scopes.old.items) }
{
    let display = read_display(parser)?;
    let wanted = wanted_after(&display);
    parser.expect_or(Symbol::OpenBrace, wanted)?;
    let variables = read_variables(parser, scopes.as_slice())?;
    let blocks = read_blocks(parser)?;
    let first = blocks.wanted_next();
    places.add(blocks.place(at))?;
    let head = class_head(
        parser.alloc,
        marks.keys,
        marks.disabled,
        variables.statics,
        variables.fields,
        blocks,
    )?;
    let head = Arc::new(parser.alloc, head)?;
    scopes.push(variables.names)?;
    let name = Text::copied(parser.alloc, name)?;
    let members = read_members(parser, scopes, classes, first, places)?;
    scopes.pop();
    Ok(Class {
        name,
        display,
        mode: marks.mode,
        isolated: marks.isolated,
        head,
        members,
    })
}

/// The members of a class, up to the brace that closes it: one at least, of distinct names. Where
/// the first is not next, this is wanted.
#[cycle(class)]
fn read_members<'a>(
    parser: &mut Parser<'a>,
    scopes: &mut Vec<BTreeSet<&'a str>>,
    classes: u32,
    first: Wanted,
    places: &mut Places,
) -> Result<Vec<Member>, ScriptError>
    requires { IsPlace first parser.old.lexer }
    ensures read { (taken : List (List ℕ)) → KnowAll scopes.old.items taken
        → ParsesPlaced members_in (HasMembers classes taken) result
        parser.old.lexer parser.new.lexer (kept places.old) (kept places.new) }
    ensures kept { IfOk result (λ _. scopes.new.items ≡ scopes.old.items) }
{
    let mut seen = SeenNames::new(parser.alloc);
    let mut members = Vec::new(parser.alloc);
    'members: while !parser.is_at(Symbol::CloseBrace) {
        let place = member_place(members.len(), first);
        members.push(read_member(parser, &mut seen, scopes, classes, place, places)?)?;
    }
    if members.is_empty() {
        return Err(parser.fault_here(ScriptFaultKind::EmptyClass));
    }
    parser.lexer.advance();
    Ok(members)
}

/// A member of a class, whose name is none of those seen and is added to them. The marks of a test
/// have to fit one. Where no member is next, this is wanted.
#[cycle(class)]
fn read_member<'a>(
    parser: &mut Parser<'a>,
    seen: &mut SeenNames<'a>,
    scopes: &mut Vec<BTreeSet<&'a str>>,
    classes: u32,
    place: Wanted,
    places: &mut Places,
) -> Result<Member, ScriptError>
    requires { IsPlace place parser.old.lexer }
    ensures read { (taken names : List (List ℕ)) → KnowAll scopes.old.items taken
        → HasSeen seen.old names
        → ParsesPlaced member_of (IsNewMember names classes taken) result
        parser.old.lexer parser.new.lexer (kept places.old) (kept places.new) }
    ensures names { (names : List (List ℕ)) → HasSeen seen.old names
        → IfOk result (λ m. HasSeen seen.new (names ++ name_of (member_of m) ∷ [])) }
    ensures kept { IfOk result (λ _. scopes.new.items ≡ scopes.old.items) }
{
    let marks = read_marks(parser)?;
    if is_at_test(parser, &marks) {
        parser.lexer.advance();
        let at = parser.lexer.peek().1;
        let name = parser.new_name(seen, ScriptFaultKind::DoubleMember)?;
        return Ok(Member::Test(read_test(parser, marks, name, at, places)?));
    }
    let wanted = marks.wanted_of_a_member(place);
    let more = open_class(parser, classes, wanted)?;
    let at = parser.lexer.peek().1;
    let name = parser.new_name(seen, ScriptFaultKind::DoubleMember)?;
    Ok(Member::Class(read_class(parser, marks, name, at, scopes, more, places)?))
}
