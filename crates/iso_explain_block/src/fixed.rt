//! Limits and rules that say the same of each statement.
ghost use Rattle.std.specs.Prelude.{◌≡◌, OnOk};
ghost use Rattle.iso_explain_block.specs.Fixed.{fixed_lines, kind_rules, missing_rules, one_rule, rules_of, two_rules, with_rule};

use crate::line::add_line;
use crate::message::after;
use iso_model::fault::FaultKind;
use iso_model::text::Text;
use std::alloc::{AllocError, Global};

/// Up to three lines, of which those that aren't wanted are empty.
#[derive(Clone, Copy)]
struct Rules {
    first: &'static str,
    second: &'static str,
    third: &'static str,
}

/// Adds the lines of a kind of fault.
pub(crate) fn add_fixed(
    alloc: Global,
    lines: &mut Vec<Text>,
    kind: FaultKind,
    message: &str,
) -> Result<(), AllocError>
    ensures { OnOk result (lines.new.items ≡ fixed_lines kind message.now lines.old.items) }
{
    let rules = rules_for(kind, after("missing file ", message).is_some());
    add_rule(alloc, lines, rules.first)?;
    add_rule(alloc, lines, rules.second)?;
    add_rule(alloc, lines, rules.third)
}

/// Adds a line that isn't empty.
#[tactic(auto, unfolding(crate::specs::Fixed::with_rule))]
fn add_rule(alloc: Global, lines: &mut Vec<Text>, rule: &str) -> Result<(), AllocError>
    ensures { OnOk result (lines.new.items ≡ with_rule rule.now lines.old.items) }
{
    if rule.is_empty() {
        Ok(())
    } else {
        add_line(lines, Text::copied(alloc, rule)?)
    }
}

/// The limit or rule of a kind of fault; of a missing file, that of files.
#[tactic(auto, unfolding(crate::specs::Fixed::kind_rules))]
fn rules_for(kind: FaultKind, of_file: bool) -> Rules
    ensures { rules_of result ≡ kind_rules kind of_file }
{
    match kind {
        FaultKind::Overflow => one(
            "+, - and * give whole numbers from -9223372036854775808 to 9223372036854775807",
        ),
        FaultKind::DoubleName => two(
            "let gives a name that isn't visible yet; statics and fields of the classes around are",
            "without let, NAME = VALUE; gives a let or a field another value",
        ),
        FaultKind::Frozen => two(
            "a static takes another value in before_all of its own class alone",
            "a field takes one in tests, before_each and after_each, and each test has its own",
        ),
        FaultKind::Missing => missing(of_file),
        FaultKind::BadCount => one("repeat takes a number of turns that is at least 0"),
        FaultKind::OutOfSteps => one(
            "a block takes at most 10000 steps: a statement is one, and so is each turn of a repeat",
        ),
        FaultKind::OutputFull => two(
            "a body prints at most 65536 bytes, one for each line's end among them",
            "what before_each and after_each print counts with their test",
        ),
        FaultKind::TextTooLong => one(
            "a text has at most 4096 bytes, also one that ++ joins or append_file makes",
        ),
        FaultKind::Undeclared | FaultKind::UnknownName | FaultKind::WrongKind => one(""),
    }
}

/// What gives a property, or a file.
fn missing(of_file: bool) -> Rules
    ensures { rules_of result ≡ missing_rules of_file }
{
    if of_file {
        Rules {
            first: "write_file makes a file, and [files] of a world from the start",
            second: "what a test changes is taken back after it; before_all makes it for each test of its class",
            third: "has_file tells whether a file is there",
        }
    } else {
        Rules {
            first: "set_prop gives a property a value, and [properties] of a world from the start",
            second: "what a test changes is taken back after it; before_all makes it for each test of its class",
            third: "has_prop tells whether a property is there",
        }
    }
}

/// One line.
fn one(first: &'static str) -> Rules
    ensures { rules_of result ≡ one_rule first.now }
{
    Rules {
        first,
        second: "",
        third: "",
    }
}

/// Two lines.
fn two(first: &'static str, second: &'static str) -> Rules
    ensures { rules_of result ≡ two_rules first.now second.now }
{
    Rules {
        first,
        second,
        third: "",
    }
}
