ghost use Rattle.std.specs.Prelude.{◌≡◌, ◌↔◌, ◌<◌, ◌≤◌, IsTrue, true};
ghost use Rattle.iso_script_lexer.specs.Spelling.{begins, same_word, word_of};

/// A reserved word of the script language.
#[derive(Clone, Copy, PartialEq, Eq)]
pub enum Word {
    Team,
    Class,
    Test,
    SameThread,
    Concurrent,
    Isolated,
    Read,
    Write,
    Static,
    Field,
    BeforeAll,
    AfterAll,
    BeforeEach,
    AfterEach,
    Let,
    Print,
    Assert,
    AssertEqual,
    Assume,
    Fail,
    If,
    Else,
    Repeat,
    SetProp,
    ClearProp,
    SetLocale,
    WriteFile,
    AppendFile,
    DeleteFile,
    True,
    False,
    Text,
    Len,
    Prop,
    HasProp,
    Locale,
    File,
    HasFile,
    Children,
    Disabled,
}

impl Word {
    /// Whether the two are one word.
    pub fn is(self, other: Word) -> bool
        ensures value { result ≡ same_word self other }
        ensures same { IsTrue result ↔ (self ≡ other) }
    {
        self as u8 == other as u8
    }

    /// The reserved word that is written so.
    pub(crate) fn from_name(name: &str) -> Option<Word>
        ensures { result ≡ word_of name.now }
    {
        let [first, _, ..] = name.as_bytes() else {
            return None;
        };
        if *first < b'g' {
            early_word(name, *first)
        } else {
            late_word(name, *first)
        }
    }
}

/// The reserved word that is written so, where this is its first byte, which comes before `g`.
fn early_word(name: &str, first: u8) -> Option<Word>
    requires begins { begins first name.now ≡ true }
    requires early { first < 103 }
    ensures { result ≡ word_of name.now }
{
    let word = match first {
        b'a' => match name {
            "assert_equal" => Word::AssertEqual,
            "assert" => Word::Assert,
            "assume" => Word::Assume,
            "append_file" => Word::AppendFile,
            "after_each" => Word::AfterEach,
            "after_all" => Word::AfterAll,
            _ => return None,
        },
        b'b' => match name {
            "before_each" => Word::BeforeEach,
            "before_all" => Word::BeforeAll,
            _ => return None,
        },
        b'c' => match name {
            "class" => Word::Class,
            "concurrent" => Word::Concurrent,
            "children" => Word::Children,
            "clear_prop" => Word::ClearProp,
            _ => return None,
        },
        b'd' => match name {
            "disabled" => Word::Disabled,
            "delete_file" => Word::DeleteFile,
            _ => return None,
        },
        b'e' => match name {
            "else" => Word::Else,
            _ => return None,
        },
        b'f' => match name {
            "field" => Word::Field,
            "fail" => Word::Fail,
            "false" => Word::False,
            "file" => Word::File,
            _ => return None,
        },
        _ => return None,
    };
    Some(word)
}

/// The reserved word that is written so, where this is its first byte, which is `g` or comes after
/// it.
fn late_word(name: &str, first: u8) -> Option<Word>
    requires begins { begins first name.now ≡ true }
    requires late { 103 ≤ first }
    ensures { result ≡ word_of name.now }
{
    let word = match first {
        b'h' => match name {
            "has_prop" => Word::HasProp,
            "has_file" => Word::HasFile,
            _ => return None,
        },
        b'i' => match name {
            "if" => Word::If,
            "isolated" => Word::Isolated,
            _ => return None,
        },
        b'l' => match name {
            "let" => Word::Let,
            "len" => Word::Len,
            "locale" => Word::Locale,
            _ => return None,
        },
        b'p' => match name {
            "print" => Word::Print,
            "prop" => Word::Prop,
            _ => return None,
        },
        b'r' => match name {
            "read" => Word::Read,
            "repeat" => Word::Repeat,
            _ => return None,
        },
        b's' => match name {
            "set_prop" => Word::SetProp,
            "static" => Word::Static,
            "same_thread" => Word::SameThread,
            "set_locale" => Word::SetLocale,
            _ => return None,
        },
        b't' => match name {
            "test" => Word::Test,
            "text" => Word::Text,
            "true" => Word::True,
            "team" => Word::Team,
            _ => return None,
        },
        b'w' => match name {
            "write" => Word::Write,
            "write_file" => Word::WriteFile,
            _ => return None,
        },
        _ => return None,
    };
    Some(word)
}
