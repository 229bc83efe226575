//! How reserved words and symbols are written.
ghost use Rattle.std.specs.Prelude.{◌≡◌};
ghost use Rattle.iso_script_lexer.specs.Spelling as S;

use iso_script_lexer::symbol::Symbol;
use iso_script_lexer::word::Word;

/// How a reserved word is written.
pub(crate) fn spelling(word: Word) -> &'static str
    ensures { result.now ≡ S.spelling word }
{
    match word {
        Word::Team => "team",
        Word::Class => "class",
        Word::Test => "test",
        Word::SameThread => "same_thread",
        Word::Concurrent => "concurrent",
        Word::Isolated => "isolated",
        Word::Read => "read",
        Word::Write => "write",
        Word::Static => "static",
        Word::Field => "field",
        Word::BeforeAll => "before_all",
        Word::AfterAll => "after_all",
        Word::BeforeEach => "before_each",
        Word::AfterEach => "after_each",
        Word::Let => "let",
        Word::Print => "print",
        Word::Assert => "assert",
        Word::AssertEqual => "assert_equal",
        Word::Assume => "assume",
        Word::Fail => "fail",
        Word::If => "if",
        Word::Else => "else",
        Word::Repeat => "repeat",
        Word::SetProp => "set_prop",
        Word::ClearProp => "clear_prop",
        Word::SetLocale => "set_locale",
        Word::WriteFile => "write_file",
        Word::AppendFile => "append_file",
        Word::DeleteFile => "delete_file",
        Word::True => "true",
        Word::False => "false",
        Word::Text => "text",
        Word::Len => "len",
        Word::Prop => "prop",
        Word::HasProp => "has_prop",
        Word::Locale => "locale",
        Word::File => "file",
        Word::HasFile => "has_file",
        Word::Children => "children",
        Word::Disabled => "disabled",
    }
}

/// How a symbol is written.
pub(crate) fn marks(symbol: Symbol) -> &'static str
    ensures { result.now ≡ S.marks symbol }
{
    match symbol {
        Symbol::OpenBrace => "{",
        Symbol::CloseBrace => "}",
        Symbol::OpenParen => "(",
        Symbol::CloseParen => ")",
        Symbol::Semicolon => ";",
        Symbol::Comma => ",",
        Symbol::Equals => "=",
        Symbol::Plus => "+",
        Symbol::Minus => "-",
        Symbol::Star => "*",
        Symbol::PlusPlus => "++",
        Symbol::EqualsEquals => "==",
        Symbol::NotEquals => "!=",
        Symbol::Less => "<",
    }
}
