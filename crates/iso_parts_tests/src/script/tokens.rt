//! Positions, faults and tokens, as the description of the script language gives them.
use crate::shared::{check_text, made};
use iso_script_lexer::lexer::Lexer;
use iso_script_lexer::symbol::Symbol;
use iso_script_lexer::text::QuotedText;
use iso_script_lexer::token::TokenFault::{BadByte, BadToken, NumberTooBig, OpenText, TooLong};
use iso_script_lexer::token::{Position, Token, TokenFault};
use iso_script_lexer::word::Word;
use std::alloc::{AllocError, Global};
use std::fmt;

/// The fault of a script, with its line and column; none where every token is one.
fn first_fault(bytes: &[u8]) -> Option<(TokenFault, u32, u32)> {
    if bytes.len() > 1_048_576 {
        return None;
    }
    let mut lexer = Lexer::new(bytes);
    for _ in 0..=bytes.len() {
        let (token, position) = lexer.peek();
        match token {
            Token::Bad(fault) => return Some((fault, position.line, position.column)),
            Token::End => return None,
            _ => lexer.advance(),
        }
    }
    None
}

/// Bytes with the first fault of their tokens.
static FAULTS: [(&[u8], TokenFault, u32, u32); 32] = [
    (
        b"team T\nclass Aaaaaaaaaaaaaaaaaaaaaaaaaaaaaaaaaaaaaaaaaaaaaaaaaaaaaaaaaaaaaaaaa",
        TooLong,
        2,
        71,
    ),
    (b"\x80", BadByte, 1, 1),
    (b"team\x00", BadByte, 1, 5),
    (b"a \x7f", BadByte, 1, 3),
    (b"a\n// b\xffc", BadByte, 2, 5),
    (b"// \x0b", BadByte, 1, 4),
    (b"\"a\x01\"", BadByte, 1, 3),
    (b"\"a\tb\"", BadByte, 1, 3),
    (b"\"a\rb\"", BadByte, 1, 3),
    (b"\"a\xc3\xa9\"", BadByte, 1, 3),
    (b"a / b", BadToken, 1, 3),
    (b"a ! b", BadToken, 1, 3),
    (b"a @", BadToken, 1, 3),
    (b"_a", BadToken, 1, 1),
    (b"a > b", BadToken, 1, 3),
    (b"x = 12ab;", BadToken, 1, 5),
    (b"x = 12_;", BadToken, 1, 5),
    (b"99999999999999999999x", BadToken, 1, 1),
    (b"\"ab\\n\"", BadToken, 1, 4),
    (b"\"a\\\t\"", BadToken, 1, 3),
    (b"\"a\\\r\"", BadToken, 1, 3),
    (b"\"a\\\x80\"", BadToken, 1, 3),
    (b"\n 9223372036854775809", NumberTooBig, 2, 2),
    (b"00018446744073709551616", NumberTooBig, 1, 1),
    (b"184467440737095516150000", NumberTooBig, 1, 1),
    (b" \"ab", OpenText, 1, 2),
    (b" \"ab\n\"", OpenText, 1, 2),
    (b" \"ab\\", OpenText, 1, 2),
    (b" \"ab\\\n\"", OpenText, 1, 2),
    (b"\"ab\\\"", OpenText, 1, 1),
    (b"a \"", OpenText, 1, 3),
    (b"a\r\n\t\"", OpenText, 2, 2),
];

#[test]
fn faults_have_their_places(rt: HostRuntime) {
    for (index, (script, fault, line, column)) in FAULTS.iter().enumerate() {
        assert_eq!(rt;
            first_fault(script),
            Some((*fault, *line, *column)),
            "row {index}"
        );
    }
}

/// How one of the reserved words of these tests is written.
fn spelled(word: Word) -> &'static str {
    match word {
        Word::Team => "team",
        Word::Static => "static",
        Word::If => "if",
        Word::HasFile => "has_file",
        Word::Children => "children",
        Word::Disabled => "disabled",
        _ => "another",
    }
}

/// A position and two words, of which the first ends in a space where the second is not empty.
fn worded(alloc: Global, position: Position, kind: &str, word: &str) -> Result<String, AllocError> {
    let Position { line, column } = position;
    format!(in alloc; "{line}:{column} {kind}{word}")
}

/// A position and a number.
fn numbered(alloc: Global, position: Position, number: u64) -> Result<String, AllocError> {
    let Position { line, column } = position;
    format!(in alloc; "{line}:{column} number {number}")
}

/// A position and a text, with its length.
fn quoted(alloc: Global, position: Position, text: QuotedText<'_>) -> Result<String, AllocError> {
    let Position { line, column } = position;
    let meant = text.decode(alloc)?;
    let length = meant.len();
    format!(in alloc; "{line}:{column} text {length} {meant}")
}

/// A position and what is called like one of its variants.
fn called(
    alloc: Global,
    position: Position,
    variant: impl fmt::Debug + Drop,
) -> Result<String, AllocError> {
    let Position { line, column } = position;
    format!(in alloc; "{line}:{column} {variant:?}")
}

/// A token with its line and column, in words.
fn described(alloc: Global, token: Token<'_>, position: Position) -> Result<String, AllocError> {
    match token {
        Token::Name(name) => worded(alloc, position, "name ", name),
        Token::Number(number) => numbered(alloc, position, number),
        Token::Text(text) => quoted(alloc, position, text),
        Token::Word(word) => worded(alloc, position, "word ", spelled(word)),
        Token::Symbol(symbol) => called(alloc, position, symbol),
        Token::End => worded(alloc, position, "end", ""),
        Token::Bad(fault) => called(alloc, position, fault),
    }
}

/// Adds the tokens of a script in words, with commas between them.
fn add_tokens(alloc: Global, bytes: &[u8], all: &mut String) -> Result<(), AllocError> {
    if bytes.len() > 1_048_576 {
        return Ok(());
    }
    let mut lexer = Lexer::new(bytes);
    for _ in 0..=bytes.len() {
        let (token, position) = lexer.peek();
        all.push_str(described(alloc, token, position)?.as_str())?;
        if matches!(token, Token::End) {
            break;
        }
        all.push_str(", ")?;
        lexer.advance();
    }
    Ok(())
}

/// The tokens of a script in words, with commas between them.
fn tokens_of(alloc: Global, bytes: &[u8]) -> Result<String, AllocError> {
    let mut all = String::new(alloc);
    add_tokens(alloc, bytes, &mut all)?;
    Ok(all)
}

/// Bytes with their tokens in words.
static TOKENS: [(&[u8], &str); 17] = [
    (b"", "1:1 end"),
    (b" \t\r", "1:4 end"),
    (b"// a comment", "1:13 end"),
    (b"a\n", "1:1 name a, 2:1 end"),
    (b"a // b\n\n  ", "1:1 name a, 3:3 end"),
    (b"// a\n// b\nteam T", "3:1 word team, 3:6 name T, 3:7 end"),
    (
        b"+++ ===",
        "1:1 PlusPlus, 1:3 Plus, 1:5 EqualsEquals, 1:7 Equals, 1:8 end",
    ),
    (
        b"!==<=",
        "1:1 NotEquals, 1:3 Equals, 1:4 Less, 1:5 Equals, 1:6 end",
    ),
    (
        b"{}();,",
        "1:1 OpenBrace, 1:2 CloseBrace, 1:3 OpenParen, 1:4 CloseParen, 1:5 Semicolon, 1:6 Comma, 1:7 end",
    ),
    (b"-*", "1:1 Minus, 1:2 Star, 1:3 end"),
    (
        b"static n = 9223372036854775808",
        "1:1 word static, 1:8 name n, 1:10 Equals, 1:12 number 9223372036854775808, 1:31 end",
    ),
    (b"007+0", "1:1 number 7, 1:4 Plus, 1:5 number 0, 1:6 end"),
    (
        b"if ifs If has_file has_files a_1",
        "1:1 word if, 1:4 name ifs, 1:8 name If, 1:11 word has_file, 1:20 name has_files, 1:30 name a_1, 1:33 end",
    ),
    (
        b"children disabled",
        "1:1 word children, 1:10 word disabled, 1:18 end",
    ),
    (
        b"\"\"\"a b\"x",
        "1:1 text 0 , 1:3 text 3 a b, 1:8 name x, 1:9 end",
    ),
    (b"\"\\\"a\\\\\" // \"", "1:1 text 3 \"a\\, 1:13 end"),
    (b"a @ b", "1:1 name a, 1:3 BadToken, 1:6 end"),
];

#[test]
fn tokens_have_their_places(rt: HostRuntime) -> Result<(), AllocError> {
    for (script, expected) in &TOKENS {
        let found = tokens_of(rt.alloc(), script)?;
        check_text(&rt, "the tokens", found.as_str(), expected);
    }
    Ok(())
}

/// The first fault of a text of `length` bytes and what follows them.
fn fault_of_long(
    alloc: Global,
    length: usize,
    after: &str,
) -> Result<Option<(TokenFault, u32, u32)>, AllocError> {
    let script = made(alloc, &[("\"", 1), ("a", length), (after, 1)])?;
    Ok(first_fault(script.as_bytes()))
}

/// How many bytes a text has after its quote, what follows them, and the first fault.
static LONG: [(usize, &str, Option<(TokenFault, u32, u32)>); 8] = [
    (4096, "\"", None),
    (4095, "\\\"\"", None),
    (4097, "\"", Some((TooLong, 1, 4098))),
    (4096, "\\\\\"", Some((TooLong, 1, 4098))),
    (4096, "\t\"", Some((BadByte, 1, 4098))),
    (4096, "\\n\"", Some((BadToken, 1, 4098))),
    (4096, "\n", Some((OpenText, 1, 1))),
    (5000, "", Some((TooLong, 1, 4098))),
];

#[test]
fn long_texts_are_refused(rt: HostRuntime) -> Result<(), AllocError> {
    for (length, after, expected) in &LONG {
        assert_eq!(rt; fault_of_long(rt.alloc(), *length, after)?, *expected);
    }
    Ok(())
}

#[test]
fn takes_what_is_next(rt: HostRuntime) {
    let mut lexer = Lexer::new(b"team = +");
    assert!(rt; !lexer.takes(Symbol::Equals));
    assert!(rt; !lexer.takes_word(Word::Class));
    assert!(rt; lexer.takes_word(Word::Team));
    assert!(rt; !lexer.takes_word(Word::Team));
    assert!(rt; lexer.takes(Symbol::Equals));
    assert!(rt; !lexer.takes(Symbol::PlusPlus));
    assert!(rt; lexer.takes(Symbol::Plus));
    assert!(rt; matches!(lexer.peek().0, Token::End));
}
