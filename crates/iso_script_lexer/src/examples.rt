//! Worked examples of the lexical grammar, as public laws.
ghost use Rattle.std.specs.Prelude.{[], ◌∷◌};
ghost use Rattle.iso_script_lexer.specs.Examples.{Has, IsRefused, at, name_at, number_at, symbols, text_at, words_from};
ghost use Rattle.iso_script_lexer.specs.LexicalGrammar.{ArePiecesOf};
ghost use Rattle.iso_script_lexer.specs.Piece.{bad_at, symbol_at};
ghost use Rattle.iso_script_lexer.specs.Spelling.{all_words, words_text};
ghost use Rattle.iso_script_lexer.specs.declared.symbol.Symbol.TheVariants.{OpenBrace, CloseBrace, OpenParen, CloseParen, Semicolon, Comma};
ghost use Rattle.iso_script_lexer.specs.declared.symbol.Symbol.TheVariants.{Equals, Plus, Minus, Star, PlusPlus, EqualsEquals, NotEquals, Less};
ghost use Rattle.iso_script_lexer.specs.declared.token.TokenFault.TheVariants.{BadByte, BadToken, NumberTooBig, OpenText, TooLong};

/// Space, tab, carriage return and line feed stand between tokens, and so do comments, which may
/// have all of them but the line feed: it ends them, as the end of the text does. Lines are
/// counted, and on each line its bytes, of which a tab and a carriage return are one each.
pub fn gaps_stand_between_tokens()
    ensures blanks { Has " a\tb\r\n\nc" (name_at 1 2 "a" ∷ name_at 1 4 "b" ∷ name_at 3 1 "c" ∷ []) }
    ensures comments { Has "a// \"b\" // @\tc\r\n//\n//d\r\nb // c"
        (name_at 1 1 "a" ∷ name_at 4 1 "b" ∷ []) }
    ensures none { Has "\r\n// a" [] }
    ensures one_slash { Has "a / b" (name_at 1 1 "a" ∷ bad_at 1 BadToken ∷ []) }
    ensures other_bytes { IsRefused "// \u{7f}" BadByte }
{}

/// The position of a token is that of its first byte: after a carriage return alone the line goes
/// on, in a comment braces and quotes are none, and the next line begins at column 1.
pub fn tokens_have_positions()
    ensures { Has "{\r// {}\t\"\r\n\t\ta1 = \"b c\";\r\n  7}d"
        (symbol_at (at 1 1) OpenBrace ∷ name_at 2 3 "a1" ∷ symbol_at (at 2 6) Equals
        ∷ text_at 2 8 "b c"
        ∷ symbol_at (at 2 13) Semicolon ∷ number_at 3 3 7 ∷ symbol_at (at 3 4) CloseBrace
        ∷ name_at 3 5 "d" ∷ []) }
{}

/// A name goes on as far as it can, and is one only if it is no reserved word.
pub fn names_are_no_reserved_words()
    ensures words { ArePiecesOf words_text (words_from 1 all_words) }
    ensures names { Has "Test tests test1 test_ a9Z_"
        (name_at 1 1 "Test" ∷ name_at 1 6 "tests" ∷ name_at 1 12 "test1" ∷ name_at 1 18 "test_"
        ∷ name_at 1 24 "a9Z_" ∷ []) }
    ensures of_64_bytes { Has "abcdefghijklmnopqrstuvwxyzABCDEFGHIJKLMNOPQRSTUVWXYZ0123456789__"
        (name_at 1 1 "abcdefghijklmnopqrstuvwxyzABCDEFGHIJKLMNOPQRSTUVWXYZ0123456789__" ∷ []) }
    ensures of_65_bytes { IsRefused
        "abcdefghijklmnopqrstuvwxyzABCDEFGHIJKLMNOPQRSTUVWXYZ0123456789___" TooLong }
    ensures underscore { IsRefused "_a" BadToken }
{}

/// Leading zeros count for nothing. A number is at most 2^63, and neither a letter nor an
/// underscore follows it.
pub fn numbers_are_digits()
    ensures zeros { Has "0 007 10" (number_at 1 1 0 ∷ number_at 1 3 7 ∷ number_at 1 7 10 ∷ []) }
    ensures largest { Has "9223372036854775808" (number_at 1 1 9223372036854775808 ∷ []) }
    ensures too_big { IsRefused "9223372036854775809" NumberTooBig }
    ensures letter { IsRefused "1a" BadToken }
    ensures underscore { IsRefused "1_0" BadToken }
    ensures both { IsRefused "9223372036854775809a" BadToken }
    ensures sign { Has "-1" (symbol_at (at 1 1) Minus ∷ number_at 1 2 1 ∷ []) }
{}

/// In a text quotes and backslashes are escaped, and nothing else is. It ends on its line.
pub fn texts_are_quoted()
    ensures escapes { Has "\"\" \"a \\\"b\\\" \\\\ // ~\""
        (text_at 1 1 "" ∷ text_at 1 4 "a \"b\" \\ // ~" ∷ []) }
    ensures line_feed { IsRefused "\"a\n\"" OpenText }
    ensures end { IsRefused "\"a" OpenText }
    ensures after_backslash { IsRefused "\"\\\n\"" OpenText }
    ensures other_escape { IsRefused "\"\\n\"" BadToken }
    ensures tab { IsRefused "\"\t\"" BadByte }
{}

/// A symbol is the longest that fits.
pub fn symbols_are_the_longest_that_fit()
    ensures each { Has "{}();,=+-*++==!=<"
        (symbols ((1, OpenBrace) ∷ (2, CloseBrace) ∷ (3, OpenParen) ∷ (4, CloseParen)
        ∷ (5, Semicolon) ∷ (6, Comma)
        ∷ (7, Equals) ∷ (8, Plus) ∷ (9, Minus) ∷ (10, Star) ∷ (11, PlusPlus) ∷ (13, EqualsEquals)
        ∷ (15, NotEquals)
        ∷ (17, Less) ∷ [])) }
    ensures three { Has "+++ === <= - -"
        (symbols ((1, PlusPlus) ∷ (3, Plus) ∷ (5, EqualsEquals) ∷ (7, Equals) ∷ (9, Less)
        ∷ (10, Equals) ∷ (12, Minus)
        ∷ (14, Minus) ∷ [])) }
    ensures no_symbol { IsRefused "! =" BadToken }
{}
