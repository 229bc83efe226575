//! Tests.
ghost use Rattle.std.specs.Prelude.{◌≡◌};
ghost use Rattle.iso_script.specs.Marks.{marks_of};
ghost use Rattle.iso_model.specs.ScriptView.{test_of};
ghost use Rattle.iso_script.specs.Grammar.{IsTest};
ghost use Rattle.iso_script.specs.Places.{ParsesPlaced, kept};

use crate::mark::Marks;
use crate::place::{BlockLines, NodePlace, Places};
use crate::title::{read_display, wanted_after};
use iso_model::heads::{TestContents, TestHead};
use iso_model::script::Test;
use iso_model::shared_list::SharedList;
use iso_model::text::Text;
use iso_script_lexer::token::Position;
use iso_script_statements::fault::ScriptError;
use iso_script_statements::parser::Parser;
use std::sync::Arc;

/// A test of these marks, after its name, which stands at this position.
pub(crate) fn read_test(
    parser: &mut Parser<'_>,
    marks: Marks,
    name: &str,
    at: Position,
    places: &mut Places,
) -> Result<Test, ScriptError>
    ensures { ParsesPlaced test_of (IsTest (marks_of marks) name.now at) result
        parser.old.lexer parser.new.lexer (kept places.old) (kept places.new) }
{
    let display = read_display(parser)?;
    let line = parser.lexer.peek().1.line;
    let wanted = wanted_after(&display);
    let body = parser.block(wanted)?;
    places.add(NodePlace {
        name: at,
        blocks: BlockLines::Test(line),
    })?;
    let contents = TestContents {
        disabled: marks.disabled,
        body,
    };
    let head = TestHead {
        marks: SharedList::new(parser.alloc, marks.keys)?,
        contents: Arc::new(parser.alloc, contents)?,
    };
    let head = Arc::new(parser.alloc, head)?;
    Ok(Test {
        name: Text::copied(parser.alloc, name)?,
        display,
        mode: marks.mode,
        head,
    })
}
