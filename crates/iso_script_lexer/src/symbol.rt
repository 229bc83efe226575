//! Symbols, and how they are written.
ghost use Rattle.std.specs.Prelude.{◌≡◌, ◌↔◌, ◌≤◌, IfSome, IsTrue, length, option_map};
ghost use Rattle.iso_script_lexer.specs.Scan.{double_symbol, longest_symbol, single_symbol};
ghost use Rattle.iso_script_lexer.specs.Spelling.{same_symbol};

/// A symbol of the script language.
#[derive(Clone, Copy, Debug, PartialEq, Eq)]
pub enum Symbol {
    OpenBrace,
    CloseBrace,
    OpenParen,
    CloseParen,
    Semicolon,
    Comma,
    Equals,
    Plus,
    Minus,
    Star,
    PlusPlus,
    EqualsEquals,
    NotEquals,
    Less,
}

impl Symbol {
    /// Whether the two are one symbol.
    pub fn is(self, other: Symbol) -> bool
        ensures value { result ≡ same_symbol self other }
        ensures same { IsTrue result ↔ (self ≡ other) }
    {
        self as u8 == other as u8
    }
}

/// The symbol that is written as one byte.
fn single_symbol(byte: u8) -> Option<Symbol>
    ensures { result ≡ single_symbol byte }
{
    match byte {
        b'{' => Some(Symbol::OpenBrace),
        b'}' => Some(Symbol::CloseBrace),
        b'(' => Some(Symbol::OpenParen),
        b')' => Some(Symbol::CloseParen),
        b';' => Some(Symbol::Semicolon),
        b',' => Some(Symbol::Comma),
        b'=' => Some(Symbol::Equals),
        b'+' => Some(Symbol::Plus),
        b'-' => Some(Symbol::Minus),
        b'*' => Some(Symbol::Star),
        b'<' => Some(Symbol::Less),
        _ => None,
    }
}

/// The longest symbol that begins with this byte before these, and what follows it.
pub(crate) fn symbol_at(byte: u8, rest: &[u8]) -> Option<(Symbol, &[u8])>
    ensures value { longest_symbol (double_symbol byte rest.now) (single_symbol byte) rest.now
        ≡ option_map (λ f. (f.0, f.1.now)) result }
    ensures shorter { IfSome result (λ f. length f.1.now ≤ length rest.now) }
{
    match (byte, rest) {
        (b'+', [b'+', after @ ..]) => Some((Symbol::PlusPlus, after)),
        (b'=', [b'=', after @ ..]) => Some((Symbol::EqualsEquals, after)),
        (b'!', [b'=', after @ ..]) => Some((Symbol::NotEquals, after)),
        _ => {
            let symbol = single_symbol(byte)?;
            Some((symbol, rest))
        }
    }
}
