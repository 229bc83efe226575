//! Tables of the lines of scripts.
ghost use Rattle.std.specs.Prelude.{◌≡◌, [], IfOk, slice_index_or};
ghost use Rattle.iso_places.specs.LineStarts.{line_starts};
ghost use Rattle.iso_telling.specs.Written.{lent};

use iso_places::lines::LineTable;
use std::alloc::{AllocError, Global};

/// The table of the lines of a script, which is named by its number from 0.
#[derive(Drop)]
pub(crate) struct ScriptTable {
    pub(crate) script: u32,
    pub(crate) table: LineTable,
}

impl ScriptTable {
    /// The table of one of these scripts.
    pub(crate) fn new(
        alloc: Global,
        texts: &[&[u8]],
        script: u32,
    ) -> Result<ScriptTable, AllocError>
        ensures script { IfOk result (λ t. t.script ≡ script) }
        ensures table { IfOk result (λ t. t.table
            ≡ line_starts (slice_index_or (lent texts.now) script [])) }
    {
        Ok(ScriptTable {
            script,
            table: LineTable::new(alloc, text_of(texts, script))?,
        })
    }

    /// This table where it is that of the script, else that one.
    pub(crate) fn turned_to(
        self,
        alloc: Global,
        texts: &[&[u8]],
        script: u32,
    ) -> Result<ScriptTable, AllocError>
        requires { self.table ≡ line_starts (slice_index_or (lent texts.now) self.script []) }
        ensures script { IfOk result (λ t. t.script ≡ script) }
        ensures table { IfOk result (λ t. t.table
            ≡ line_starts (slice_index_or (lent texts.now) script [])) }
    {
        if self.script == script {
            return Ok(self);
        }
        ScriptTable::new(alloc, texts, script)
    }
}

/// The bytes of a script.
pub(crate) fn text_of<'a>(texts: &'a [&'a [u8]], script: u32) -> &'a [u8]
    ensures { result.now ≡ slice_index_or (lent texts.now) script [] }
{
    match texts.get(script as usize) {
        Some(text) => text,
        None => b"",
    }
}
