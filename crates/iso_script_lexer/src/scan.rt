//! The token at the front of bytes.
ghost use Rattle.std.specs.Prelude.{◌≡◌, ℕ, ◌+◌, ◌≤◌, ◌^◌, ◌-◌, drop, length, min, take, false, true, IfOk, IfErr};
ghost use Rattle.std.specs.List.{prefix_len};
ghost use Rattle.std.specs.Result.{result_ok};
ghost use Rattle.iso_script_lexer.specs.Spelling.{begins_in, is_letter, is_digit, in_name};
ghost use Rattle.iso_script_lexer.specs.LexicalGrammar.{decimal_value};
ghost use Rattle.iso_script_lexer.specs.TokenFaults.{text_fault};
ghost use Rattle.iso_script_lexer.specs.Scan.{quoted_length, name_piece, number_piece, text_piece, front_of};
ghost use Rattle.iso_script_lexer.specs.Tokens.{IsToken};
ghost use Rattle.iso_script_lexer.specs.Scanned.{seen, IsWithin};
ghost use Rattle.iso_script_lexer.specs.declared.token.Position.{Position};

use crate::begin::{begun_by, is_name_byte};
use crate::symbol::symbol_at;
use crate::text::QuotedText;
use crate::token::{Token, TokenFault};
use crate::word::Word;
use iso_model::limits::{NAME_BYTES, NUMBER, TEXT_BYTES};
use percent_encoding::ascii_str;

/// The most bytes of a name.
const NAME_LIMIT: usize = NAME_BYTES as usize;

/// The most bytes of a decoded text.
const TEXT_LIMIT: usize = TEXT_BYTES as usize;

/// What makes bytes no token, and how many bytes from their first it lies.
#[derive(Clone, Copy)]
pub(crate) struct Misspelling {
    pub fault: TokenFault,
    pub offset: usize,
}

fn fault_at(fault: TokenFault, offset: usize) -> Misspelling
    ensures { result ≡ record { fault = fault; offset = offset } }
{
    Misspelling { fault, offset }
}

/// How many bytes a name at the front has.
fn name_length(bytes: &[u8]) -> usize
    ensures { result ≡ prefix_len in_name bytes.now }
{
    bytes.iter().take_while(|byte| is_name_byte(**byte)).count()
}

/// The name or reserved word at the front, and what follows it.
fn scan_name(bytes: &[u8]) -> Result<(Token<'_>, &[u8]), Misspelling>
    requires { begins_in is_letter bytes.now ≡ true }
    ensures value { (at : Position) →
        name_piece at (prefix_len in_name bytes.now) bytes.now ≡ seen at result }
    ensures within { IsWithin (length bytes.now) result }
    ensures token { IfOk result (λ f. IsToken f.0) }
{
    let (name, rest) = bytes.split_at(name_length(bytes));
    if name.len() > NAME_LIMIT {
        return Err(fault_at(TokenFault::TooLong, NAME_LIMIT));
    }
    let name = ascii_str(name);
    let token = match Word::from_name(name) {
        Some(word) => Token::Word(word),
        None => Token::Name(name),
    };
    Ok((token, rest))
}

/// The value of the digits at the front, 2^64 - 1 where it is as large or larger, and what follows
/// them.
fn digits_at(bytes: &[u8]) -> (u64, &[u8])
    ensures value { result.0
        ≡ min (2 ^ 64 - 1) (decimal_value (take (prefix_len is_digit bytes.now) bytes.now)) }
    ensures rest { result.1.now ≡ drop (prefix_len is_digit bytes.now) bytes.now }
{
    let mut value = 0u64;
    let mut rest = bytes;
    'digits: while let [digit @ b'0'..=b'9', after @ ..] = rest {
        value = value
            .saturating_mul(10)
            .saturating_add(u64::from(*digit - b'0'));
        rest = after;
    }
    (value, rest)
}

/// The number at the front, and what follows it.
fn scan_number(bytes: &[u8]) -> Result<(Token<'_>, &[u8]), Misspelling>
    ensures value { (at : Position) →
        number_piece at (prefix_len is_digit bytes.now) bytes.now ≡ seen at result }
    ensures within { IsWithin (length bytes.now) result }
    ensures token { IfOk result (λ f. IsToken f.0) }
{
    let (value, rest) = digits_at(bytes);
    if let [byte, ..] = rest
        && is_name_byte(*byte)
    {
        return Err(fault_at(TokenFault::BadToken, 0));
    }
    if value > NUMBER {
        return Err(fault_at(TokenFault::NumberTooBig, 0));
    }
    Ok((Token::Number(value), rest))
}

/// How many bytes stand before the closing quote of a text, where these follow its opening quote.
/// The offset of a fault counts from the opening quote.
#[tactic(auto, unfolding(crate::specs::Scan::quoted_length, crate::specs::TokenFaults::text_fault))]
fn quoted_length(bytes: &[u8]) -> Result<usize, Misspelling>
    ensures value { quoted_length false 4096 bytes.now ≡ result_ok result }
    ensures fault { IfErr result (λ e. e.fault ≡ text_fault false 4096 bytes.now) }
    ensures within { IfErr result (λ e. e.offset ≤ length bytes.now + 1) }
{
    let mut rest = bytes;
    let mut room = TEXT_LIMIT;
    'text: loop {
        let length = bytes.len() - rest.len();
        let offset = length + 1;
        let after = match rest {
            [b'"', ..] => return Ok(length),
            [b'\\', b'"' | b'\\', after @ ..] => after,
            [] | [b'\n', ..] | [b'\\'] | [b'\\', b'\n', ..] => return Err(fault_at(
                TokenFault::OpenText,
                0,
            )),
            [b'\\', ..] => return Err(fault_at(TokenFault::BadToken, offset)),
            [b' '..=b'~', after @ ..] => after,
            _ => return Err(fault_at(TokenFault::BadByte, offset)),
        };
        if room == 0 {
            return Err(fault_at(TokenFault::TooLong, offset));
        }
        room -= 1;
        rest = after;
    }
}

/// The text after its opening quote, and what follows its closing quote.
fn scan_text(bytes: &[u8]) -> Result<(Token<'_>, &[u8]), Misspelling>
    ensures value { (at : Position) →
        text_piece at (quoted_length false 4096 bytes.now) bytes.now ≡ seen at result }
    ensures within { IsWithin (length bytes.now + 1) result }
    ensures token { IfOk result (λ f. IsToken f.0) }
{
    let length = quoted_length(bytes)?;
    let (raw, _) = bytes.split_at(length);
    let (_, rest) = bytes.split_at(length + 1);
    Ok((Token::Text(QuotedText { raw }), rest))
}

/// The token at the front, which is no blank, line feed or comment, and what follows it.
#[tactic(auto, unfolding(crate::specs::Scan::front_of))]
pub(crate) fn scan(bytes: &[u8]) -> Result<(Token<'_>, &[u8]), Misspelling>
    ensures value { (at : Position) → front_of at bytes.now ≡ seen at result }
    ensures within { IsWithin (length bytes.now) result }
    ensures token { IfOk result (λ f. IsToken f.0) }
{
    let [byte, rest @ ..] = bytes else {
        return Ok((Token::End, bytes));
    };
    match begun_by(*byte) {
        b'a' => scan_name(bytes),
        b'0' => scan_number(bytes),
        b'"' => scan_text(rest),
        begun => match symbol_at(begun, rest) {
            Some((symbol, rest)) => Ok((Token::Symbol(symbol), rest)),
            None if matches!(byte, b' '..=b'~') => Err(fault_at(TokenFault::BadToken, 0)),
            None => Err(fault_at(TokenFault::BadByte, 0)),
        },
    }
}
