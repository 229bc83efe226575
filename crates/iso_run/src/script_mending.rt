//! What mends a script, told while scripts are read.

use iso_explain::script::explain_script;
use iso_script::explain::Explained;
use iso_tap::memory::MemorySink;
use std::alloc::Global;

/// What mends the first script that is none, where that is asked for.
#[derive(Drop)]
pub(crate) struct ScriptMending {
    is_asked: bool,
    text: Option<MemorySink>,
}

impl ScriptMending {
    /// Nothing is asked for.
    pub fn unasked() -> ScriptMending {
        ScriptMending::new(false)
    }

    /// It is asked for, if it is to, and nothing was told.
    pub fn new(is_asked: bool) -> ScriptMending {
        ScriptMending {
            is_asked,
            text: None,
        }
    }

    /// Whether it is asked for.
    pub fn is_asked(&self) -> bool {
        self.is_asked
    }

    /// Tells what mends bytes that are no script, where that is asked for and memory is left.
    pub fn explain(&mut self, alloc: Global, bytes: &[u8], explained: &Explained<'_>) {
        if !self.is_asked {
            return;
        }
        let mut text = MemorySink::new(alloc);
        if explain_script(alloc, bytes, explained, &mut text).is_ok() {
            self.text = Some(text);
        }
    }

    /// What was told.
    pub fn into_text(self) -> Option<MemorySink> {
        self.text
    }
}
