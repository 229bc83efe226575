//! Whole scripts.
ghost use Rattle.std.specs.Prelude.{◌≡◌, ◌<◌, List, [], IfErr, IfOk, MatchResult, Err, length};
ghost use Rattle.iso_script.specs.Readings.{ArePlaced};
ghost use Rattle.iso_model.specs.Scripts as S;
ghost use Rattle.iso_model.specs.ScriptView.{script_of};
ghost use Rattle.iso_model.specs.declared.input_error.InputError.TheVariants.{Fault};
ghost use Rattle.iso_model.specs.declared.limits.TheConstants.{FILE_BYTES};
ghost use Rattle.iso_script_statements.specs.Faults.{IsMemory};
ghost use Rattle.iso_script.specs.NoScript.{HasScriptFault, IsOfBeginning, UnlessMemory, too_long};
ghost use Rattle.iso_script.specs.Grammar.{IsScript, IsTopClass, Reads, ReadsPlaced, classes_in};
ghost use Rattle.iso_script.specs.Places.{Finds, kept};
ghost use Rattle.iso_script.specs.declared.place.NodePlace.{NodePlace};

use crate::class::read_top_class;
use crate::place::{NodePlace, Places};
use iso_model::limits::FILE_BYTES;
use iso_model::script::{Class, Script};
use iso_model::text::Text;
use iso_script_lexer::token::Position;
use iso_script_lexer::word::Word;
use iso_script_statements::fault::{ScriptError, ScriptFault, ScriptFaultKind};
use iso_script_statements::parser::Parser;
use std::alloc::Global;

/// A script, and the places of its nodes in written order, a class before its descendants.
#[derive(Drop)]
pub struct PlacedScript {
    pub script: Script,
    pub places: Vec<NodePlace>,
}

/// Reads a script of at most 1,048,576 bytes: the name of a team, and its top-level classes in
/// order. The tree takes memory from `alloc`, and where that is refused, the answer is
/// `OutOfMemory`.
///
/// What is no script is answered with its first fault from the left, with one token of look-ahead:
/// a token that the grammar or a rule does not allow comes before anything in the bytes that follow
/// it. A script above the limit is `TooLong` at line 1, column 1, before all else. That two
/// top-level classes have one name is left to the plan.
pub fn read_script(alloc: Global, bytes: &[u8]) -> Result<Script, ScriptError>
    // What is read is the script of the bytes.
    ensures found { IfOk result (λ s. Reads bytes.now (script_of s)) }
    // The script of the bytes is read, unless memory runs out.
    ensures only { (s : S.Script) → Reads bytes.now s
        → MatchResult result (λ v. script_of v ≡ s) IsMemory }
    ensures too_long { FILE_BYTES < length bytes.now → result ≡ Err (Fault too_long) }
    // A fault is that of the bytes.
    ensures fault { IfErr result (UnlessMemory (HasScriptFault bytes.now)) }
{
    let mut places = Places::left_out(alloc);
    read(alloc, bytes, &mut places)
}

/// Reads a script as `read_script` does, and keeps the places of its nodes, which take memory from
/// `alloc` too.
pub fn read_placed(alloc: Global, bytes: &[u8]) -> Result<PlacedScript, ScriptError>
    // What is read is the script of the bytes, and these are the places of its nodes.
    ensures found { IfOk result (λ p. ReadsPlaced bytes.now (script_of p.script) p.places.items) }
    // The script of the bytes is read, with these places, unless memory runs out.
    ensures only { (s : S.Script) (places : List NodePlace) → ReadsPlaced bytes.now s places
        → MatchResult result (λ p. (script_of p.script ≡ s) × (p.places.items ≡ places)) IsMemory }
    ensures too_long { FILE_BYTES < length bytes.now → result ≡ Err (Fault too_long) }
    // A fault is that of the bytes.
    ensures fault { IfErr result (UnlessMemory (HasScriptFault bytes.now)) }
{
    let mut places = Places::kept(alloc);
    let script = read(alloc, bytes, &mut places)?;
    Ok(PlacedScript {
        script,
        places: places.list,
    })
}

/// Reads a script, and adds the places of its nodes to those that are kept.
fn read(alloc: Global, bytes: &[u8], places: &mut Places) -> Result<Script, ScriptError>
    ensures read { Finds script_of (ReadsPlaced bytes.now) result (kept places.old)
        (kept places.new) }
    ensures too_long { FILE_BYTES < length bytes.now → result ≡ Err (Fault too_long) }
    ensures fault { IfErr result (UnlessMemory (HasScriptFault bytes.now)) }
{
    if bytes.len() > FILE_BYTES as usize {
        let start = Position { line: 1, column: 1 };
        return Err(ScriptError::Fault(ScriptFault::at(ScriptFaultKind::TooLong, start)));
    }
    let mut parser = Parser::new(alloc, bytes);
    script(&mut parser, places)
}

/// A script, up to the end.
pub(crate) fn script(parser: &mut Parser<'_>, places: &mut Places) -> Result<Script, ScriptError>
    ensures read { Finds script_of (λ s here. IsScript s here parser.old.lexer) result
        (kept places.old) (kept places.new) }
    ensures begins { IfErr result
        (UnlessMemory (λ fault. IsOfBeginning parser.old.lexer fault.kind)) }
{
    parser.expect_word(Word::Team)?;
    let name = parser.name()?;
    let classes = classes(parser, places)?;
    Ok(Script {
        team: Text::copied(parser.alloc, name)?,
        classes,
    })
}

/// Classes, up to the end.
fn classes(parser: &mut Parser<'_>, places: &mut Places) -> Result<Vec<Class>, ScriptError>
    ensures { Finds classes_in (λ cs here. ArePlaced IsTopClass cs here parser.old.lexer []) result
        (kept places.old) (kept places.new) }
{
    let mut classes = Vec::new(parser.alloc);
    'classes: while !parser.is_at_end() {
        classes.push(read_top_class(parser, places)?)?;
    }
    Ok(classes)
}
