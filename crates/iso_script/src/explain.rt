//! Why bytes are no script.
ghost use Rattle.std.specs.Prelude.{◌≡◌, ◌≢◌, ◌<◌, ◌≤◌, IfErr, IfOk, MatchResult, length, true};
ghost use Rattle.iso_model.specs.Scripts as S;
ghost use Rattle.iso_model.specs.ScriptView.{script_of};
ghost use Rattle.iso_model.specs.declared.limits.TheConstants.{FILE_BYTES};
ghost use Rattle.iso_script.specs.Contexts.{IsOpenAt, place_of};
ghost use Rattle.iso_script.specs.NoScript.{HasScriptFault, too_long};
ghost use Rattle.iso_script.specs.Grammar.{Reads, ReadsPlaced};
ghost use Rattle.iso_script.specs.Refusals.{IfRefused};
ghost use Rattle.iso_script.specs.declared.explain.Unread.TheVariants.{OutOfMemory};

use crate::context::open_brace;
use crate::earlier_place::{Twice, first_of};
use crate::place::Places;
use crate::reader::{PlacedScript, script};
use iso_model::limits::FILE_BYTES;
use iso_script_lexer::token::Position;
use iso_script_statements::fault::{ScriptError, ScriptFault, ScriptFaultKind};
use iso_script_statements::parser::Parser;
pub use iso_script_statements::reason::{Limit, Reason};
pub use iso_script_statements::unmet::Unmet;
pub use iso_script_statements::wanted::Wanted;
use std::alloc::{AllocError, Global};

/// The fault of a script, and why the reader answers it.
#[derive(Clone, Copy)]
pub struct Explained<'a> {
    pub fault: ScriptFault,
    /// What is wanted in the place of the fault, or which limit was met.
    pub reason: Reason<'a>,
    /// How many bytes the token in the place of the fault has: 0 where none is.
    pub width: u32,
    /// Where the innermost brace stands that is open there, if one is.
    pub brace: Option<Position>,
    /// Where it stands first, of what stands there a second time.
    pub first: Option<Position>,
}

/// Why bytes weren't read as a script.
#[derive(Clone, Copy)]
pub enum Unread<'a> {
    OutOfMemory,
    /// They are no script.
    Refused(Explained<'a>),
}

/// Reads a script as `read_placed` does, or as `read_script` where no places are to be kept: there
/// are none then. Of bytes that are no script it answers, beside the fault of these two, why they
/// have it. What is read takes memory from `alloc`.
pub fn read_or_why(alloc: Global, bytes: &[u8], are_kept: bool) -> Result<PlacedScript, Unread<'_>>
    // What is read is the script of the bytes.
    ensures found { IfOk result (λ p. Reads bytes.now (script_of p.script)) }
    ensures placed { are_kept ≡ true
        → IfOk result (λ p. ReadsPlaced bytes.now (script_of p.script) p.places.items) }
    // The script of the bytes is read, unless memory runs out.
    ensures only { (s : S.Script) → Reads bytes.now s
        → MatchResult result (λ p. script_of p.script ≡ s) (λ e. e ≡ OutOfMemory) }
    // The fault is that of the bytes.
    ensures fault { IfErr result (IfRefused (λ e. HasScriptFault bytes.now e.fault)) }
    // The brace is the innermost that is open before the place of the fault.
    ensures brace { length bytes.now ≤ FILE_BYTES
        → IfErr result (IfRefused (λ e. IsOpenAt bytes.now (place_of e.fault) e.brace)) }
    ensures too_long { FILE_BYTES < length bytes.now
        → IfErr result (λ u. IfRefused (λ e. e.fault ≡ too_long) u × (u ≢ OutOfMemory)) }
{
    if bytes.len() > FILE_BYTES as usize {
        return Err(Unread::Refused(longer()));
    }
    let mut parser = Parser::new(alloc, bytes);
    let mut places = Places::asked(alloc, are_kept);
    match script(&mut parser, &mut places) {
        Ok(script) => Ok(PlacedScript {
            script,
            places: places.list,
        }),
        Err(ScriptError::OutOfMemory) => Err(Unread::OutOfMemory),
        Err(ScriptError::Fault(fault)) => Err(Unread::Refused(tell(alloc, bytes, fault, &parser)?)),
    }
}

/// What is to be said of this fault, which the parser has answered at the token that is next.
fn tell<'a>(
    alloc: Global,
    bytes: &'a [u8],
    fault: ScriptFault,
    parser: &Parser<'a>,
) -> Result<Explained<'a>, AllocError>
    requires { length bytes.now ≤ FILE_BYTES }
    ensures fault { IfOk result (λ e. e.fault ≡ fault) }
    ensures reason { IfOk result (λ e. e.reason ≡ parser.now.reason) }
    ensures brace { IfOk result (λ e. IsOpenAt bytes.now (place_of fault) e.brace) }
{
    let at = Position {
        line: fault.line,
        column: fault.column,
    };
    let brace = open_brace(alloc, bytes, at)?;
    let first = match Twice::of(fault.kind, parser.lexer.peek().0) {
        Some(twice) => first_of(alloc, bytes, at, twice)?,
        None => None,
    };
    Ok(Explained {
        fault,
        reason: parser.reason,
        width: parser.lexer.width(),
        brace,
        first,
    })
}

/// That a script is longer than a script may be.
fn longer<'a>() -> Explained<'a>
    ensures { result.fault ≡ too_long }
{
    Explained {
        fault: ScriptFault {
            kind: ScriptFaultKind::TooLong,
            line: 1,
            column: 1,
        },
        reason: Reason::Beyond(Limit::ScriptBytes),
        width: 0,
        brace: None,
        first: None,
    }
}

impl From<AllocError> for Unread<'_> {
    ghost use Rattle.std.specs.Prelude.{◌≡◌};
    ghost use Rattle.iso_script.specs.declared.explain.Unread.TheVariants.{OutOfMemory};

    ghost from_gives = { λ _ e. e ≡ OutOfMemory };

    fn from(_error: AllocError) -> Self {
        Unread::OutOfMemory
    }
}
