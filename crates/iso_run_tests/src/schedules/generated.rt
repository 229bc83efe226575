//! Suites that are picked at random. The script of a seed is the one that `tests/suites SEED`
//! prints.
use crate::random::Numbers;
use std::alloc::{AllocError, Global};

/// What all of them start with.
pub(super) const WORLD: &str = "locale = \"de\"\nfiles.a = \"s\"\nproperties.p = \"1\"\n";

/// Keys that nodes may declare.
static KEYS: [&str; 4] = [
    "java.lang.System.properties",
    "java.util.Locale.default",
    "file:a",
    "K",
];

/// What a class may declare them for: itself, or its children.
static CLASS_TARGETS: [&str; 2] = ["", "children "];

/// And what a test may.
static TEST_TARGETS: [&str; 1] = [""];

/// Statements of bodies. Some end the body, where the world or the declared keys are not as they
/// want.
static STATEMENTS: [&str; 14] = [
    "print \"x\";",
    "print file(\"a\");",
    "print prop(\"p\");",
    "print locale();",
    "write_file \"a\", \"n\";",
    "append_file \"a\", \"+\";",
    "delete_file \"a\";",
    "set_prop \"p\", \"2\";",
    "clear_prop \"p\";",
    "set_locale \"pl\";",
    "repeat 3 { print \"turn\"; }",
    "assert_equal \"1\", prop(\"p\");",
    "assume has_file(\"a\"), \"no file\";",
    "fail \"no\";",
];

/// The blocks of a class.
static BLOCKS: [&str; 4] = ["before_all", "after_all", "before_each", "after_each"];

/// A script that is being written, and how many of its classes are open.
#[derive(Drop)]
struct Draft {
    numbers: Numbers,
    text: String,
    open: u32,
}

impl Draft {
    /// Whether what happens once in `times` times happens.
    fn once_in(&mut self, times: u64) -> bool {
        times > 0 && (self.numbers.next() >> 32) % times == 0
    }

    /// One of some texts.
    fn one_of(&mut self, texts: &[&'static str]) -> &'static str {
        let number = (self.numbers.next() >> 32) as usize;
        match number.checked_rem(texts.len()) {
            Some(place) => texts[place],
            None => "",
        }
    }

    /// Writes declarations of keys, each for one of these targets.
    fn push_keys(&mut self, targets: &[&'static str]) -> Result<(), AllocError> {
        for key in &KEYS {
            if self.once_in(3) {
                let access = self.one_of(&["read", "write"]);
                let target = self.one_of(targets);
                write!(self.text, "{access} {target}\"{key}\" ")?;
            }
        }
        Ok(())
    }

    /// Writes the marks of a node, whose keys are for one of these targets each. At times it is
    /// disabled.
    fn push_marks(&mut self, targets: &[&'static str]) -> Result<(), AllocError> {
        if self.once_in(3) {
            let mode = self.one_of(&["same_thread ", "concurrent "]);
            self.text.push_str(mode)?;
        }
        if self.once_in(12) {
            self.text.push_str("disabled \"later\" ")?;
        }
        self.push_keys(targets)
    }

    /// Writes a body.
    fn push_body(&mut self) -> Result<(), AllocError> {
        self.text.push_str(" { ")?;
        for _ in 0..3 {
            if self.once_in(2) {
                let statement = self.one_of(&STATEMENTS);
                write!(self.text, "{statement} ")?;
            }
        }
        self.text.push_str("}\n")
    }

    /// Opens a class, and writes its blocks.
    fn open_class(&mut self, number: u32) -> Result<(), AllocError> {
        self.push_marks(&CLASS_TARGETS)?;
        if self.once_in(12) {
            self.text.push_str("isolated ")?;
        }
        write!(self.text, "class C{number} {{\n")?;
        self.open = self.open.saturating_add(1);
        for block in &BLOCKS {
            if self.once_in(4) {
                self.text.push_str(block)?;
                self.push_body()?;
            }
        }
        Ok(())
    }

    /// Writes a test, in a new class where none is open, and else at times; and at times closes a
    /// class after it.
    fn push_test(&mut self, number: u32) -> Result<(), AllocError> {
        if self.open == 0 || self.open < 4 && self.once_in(3) {
            self.open_class(number)?;
        }
        self.push_marks(&TEST_TARGETS)?;
        write!(self.text, "test t{number}")?;
        self.push_body()?;
        if self.once_in(3) {
            self.close_class()?;
        }
        Ok(())
    }

    /// Closes a class, where one is open.
    fn close_class(&mut self) -> Result<(), AllocError> {
        if self.open > 0 {
            self.open -= 1;
            self.text.push_str("}\n")?;
        }
        Ok(())
    }

    /// Writes 1 to 16 tests.
    fn push_tests(&mut self) -> Result<(), AllocError> {
        let count = 1 + (self.numbers.next() >> 32) as u32 % 16;
        for number in 0..count {
            self.push_test(number)?;
        }
        Ok(())
    }

    /// Closes all classes.
    fn close_all(&mut self) -> Result<(), AllocError> {
        for _ in 0..4 {
            self.close_class()?;
        }
        Ok(())
    }
}

/// The script of a seed.
pub(super) fn script_of(alloc: Global, seed: u64) -> Result<String, AllocError> {
    let mut draft = Draft {
        numbers: Numbers::of_seed(seed),
        text: String::from_str(alloc, "team shop\n")?,
        open: 0,
    };
    draft.push_tests()?;
    draft.close_all()?;
    let Draft { text, .. } = draft;
    Ok(text)
}
