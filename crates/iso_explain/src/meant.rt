//! Which reserved word was meant by a name.
ghost use Rattle.std.specs.Prelude.{◌≡◌, ℕ, IfOk, List, map, option_map};
ghost use Rattle.iso_explain.specs.Meant.{begun_for, meant_at, meant_by, meant_for, nearest_of, statement_words, words_of};
ghost use Rattle.iso_explain.specs.Spots.{IsPlaceOf};
ghost use Rattle.iso_hints.specs.Places.{view_of};
ghost use Rattle.iso_script_lexer.specs.Spelling as S;

use crate::spelling::spelling;
use crate::want::{is_symbol, symbol_wanted};
use iso_hints::nearest::nearest;
use iso_hints::place::{Place, name_at};
use iso_script::explain::{Explained, Reason, Unmet, Wanted};
use iso_script_lexer::symbol::Symbol;
use iso_script_lexer::token::Token;
use std::alloc::{AllocError, Global};

/// No words, where a name could stand too, or no word.
const NOTHING: &[&str] = &[];

/// Words of literals.
const LITERALS: &[&str] = &["true", "false"];

/// Words of what a key is declared for.
const TARGETS: &[&str] = &["children"];

/// Words that begin a top-level class.
const CLASSES: &[&str] = &[
    "class",
    "same_thread",
    "concurrent",
    "isolated",
    "disabled",
    "read",
    "write",
];

/// Words that begin a member.
const MEMBERS: &[&str] = &[
    "test",
    "class",
    "same_thread",
    "concurrent",
    "isolated",
    "disabled",
    "read",
    "write",
];

/// Words that begin a lifecycle block or a member.
const BLOCKS: &[&str] = &[
    "before_all",
    "after_all",
    "before_each",
    "after_each",
    "test",
    "class",
    "same_thread",
    "concurrent",
    "isolated",
    "disabled",
    "read",
    "write",
];

/// Words that begin a part of a class.
const PARTS: &[&str] = &[
    "static",
    "field",
    "before_all",
    "after_all",
    "before_each",
    "after_each",
    "test",
    "class",
    "same_thread",
    "concurrent",
    "isolated",
    "disabled",
    "read",
    "write",
];

/// Words that begin a statement, and `else`.
const STATEMENTS: &[&str] = &[
    "let",
    "print",
    "assert",
    "assert_equal",
    "assume",
    "fail",
    "if",
    "else",
    "repeat",
    "set_prop",
    "clear_prop",
    "set_locale",
    "write_file",
    "append_file",
    "delete_file",
];

/// The reserved word that was meant by a name: by that which stands where such a word is wanted, or
/// by that which begins a statement and has no `=` behind it. If a word is near enough.
pub(crate) fn meant(
    alloc: Global,
    place: &Place<'_>,
    explained: &Explained<'_>,
) -> Result<Option<&'static str>, AllocError>
    ensures { (bytes : List ℕ) → IsPlaceOf place.now bytes explained.now.fault
        → IfOk result (λ word. option_map (λ w. w.now) word ≡ meant_by bytes explained.now) }
{
    match explained.reason {
        Reason::Unmet(unmet) => at_place(alloc, place, unmet),
        Reason::Kind | Reason::Beyond(_) => Ok(None),
    }
}

/// The same, of a place.
fn at_place(
    alloc: Global,
    place: &Place<'_>,
    unmet: Unmet<'_>,
) -> Result<Option<&'static str>, AllocError>
    ensures { IfOk result (λ word. option_map (λ w. w.now) word
        ≡ meant_at (view_of place.now) unmet.entry) }
{
    if is_symbol(Symbol::Equals, symbol_wanted(unmet.wanted)) {
        for_begun(alloc, name_at(place))
    } else {
        for_found(alloc, unmet.wanted, unmet.found)
    }
}

/// The word that was meant by a name that begins a statement, if there is one.
fn for_begun(alloc: Global, name: Option<&str>) -> Result<Option<&'static str>, AllocError>
    ensures { IfOk result (λ word. option_map (λ w. w.now) word
        ≡ begun_for (option_map (λ n. n.now) name.entry)) }
{
    match name {
        Some(name) => nearest_of(alloc, name, STATEMENTS),
        None => Ok(None),
    }
}

/// The word that was meant by what is found, where this is wanted.
fn for_found(
    alloc: Global,
    wanted: Wanted,
    found: Token<'_>,
) -> Result<Option<&'static str>, AllocError>
    ensures { IfOk result (λ word. option_map (λ w. w.now) word ≡ meant_for wanted found.entry) }
{
    match found {
        Token::Name(name) => for_name(alloc, wanted, name),
        _ => Ok(None),
    }
}

/// The same, of a name.
fn for_name(alloc: Global, wanted: Wanted, name: &str) -> Result<Option<&'static str>, AllocError>
    ensures { IfOk result (λ word. option_map (λ w. w.now) word
        ≡ nearest_of name.now (map S.spelling (words_of wanted))) }
{
    match wanted {
        Wanted::Word(word) => nearest_of(alloc, name, &[spelling(word)]),
        Wanted::Literal => nearest_of(alloc, name, LITERALS),
        Wanted::Target => nearest_of(alloc, name, TARGETS),
        Wanted::TopClass => nearest_of(alloc, name, CLASSES),
        Wanted::MarkedClass => nearest_of(alloc, name, CLASSES),
        Wanted::Member => nearest_of(alloc, name, MEMBERS),
        Wanted::MarkedMember => nearest_of(alloc, name, MEMBERS),
        Wanted::BlockOrMember => nearest_of(alloc, name, BLOCKS),
        Wanted::ClassPart => nearest_of(alloc, name, PARTS),
        _ => nearest_of(alloc, name, NOTHING),
    }
}

/// Of these words the one that is nearest to a name, if one is near enough.
#[tactic(auto, unfolding(crate::specs::Meant::nearest_of))]
fn nearest_of(
    alloc: Global,
    name: &str,
    words: &[&'static str],
) -> Result<Option<&'static str>, AllocError>
    ensures { IfOk result (λ word. option_map (λ w. w.now) word
        ≡ nearest_of name.now (map (λ w. w.now) words.now)) }
{
    nearest(alloc, name, words)
}
