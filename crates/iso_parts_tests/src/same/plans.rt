//! Plans that differ in one thing, and plans that are written in two ways.
use crate::plan::scripts::{concurrent, read};
use crate::shared::made;
use iso_model::script::Mode;
use iso_plan::plan::{Plan, build};
use iso_settings::settings::Settings;
use std::alloc::Global;
use std::process::Abort;
use std::test::Fail;

/// Scripts, and the settings of their plan.
type Planned<'a> = (&'a [&'a str], &'a Settings);

/// The plan of these scripts.
fn planned(alloc: Global, of: Planned<'_>) -> Result<Plan, Fail> {
    Ok(build(alloc, &read(alloc, of.0)?, of.1)?)
}

/// Whether two plans say the same.
pub(crate) fn is_same(alloc: Global, one: Planned<'_>, other: Planned<'_>) -> Result<bool, Fail> {
    let plan = planned(alloc, one)?;
    Ok(plan.same(&planned(alloc, other)?))
}

/// Whether two texts have one plan.
pub(crate) fn is_one_plan(alloc: Global, one: &str, other: &str) -> Result<bool, Fail> {
    let settings = concurrent();
    is_same(alloc, (&[one], &settings), (&[other], &settings))
}

/// The script of the piece at this place has the plan of its own alone.
fn check_piece(
    rt: &impl Abort,
    alloc: Global,
    frame: (&str, &str),
    pieces: &[&str],
    place: usize,
    script: &str,
) -> Result<(), Fail> {
    for (at, piece) in pieces.iter().enumerate() {
        let other = made(alloc, &[(frame.0, 1), (*piece, 1), (frame.1, 1)])?;
        let found = is_one_plan(alloc, script, other.as_str())?;
        assert_eq!(rt; found, at == place, "{place} and {at}");
    }
    Ok(())
}

/// No two scripts of these pieces have one plan, and each has its own.
fn check_pieces(
    rt: &impl Abort,
    alloc: Global,
    frame: (&str, &str),
    pieces: &[&str],
) -> Result<(), Fail> {
    for (place, piece) in pieces.iter().enumerate() {
        let script = made(alloc, &[(frame.0, 1), (*piece, 1), (frame.1, 1)])?;
        check_piece(rt, alloc, frame, pieces, place, script.as_str())?;
    }
    Ok(())
}

static STATEMENTS: [&str; 46] = [
    "let a = 1;",
    "let a = 2;",
    "let b = 1;",
    "a = 1;",
    "print 1;",
    "print 2;",
    "print true;",
    "print \"1\";",
    "assert 1;",
    "assert_equal 1, 1;",
    "assert_equal 1, 2;",
    "assume 1, \"2\";",
    "assume 1, \"1\";",
    "fail \"2\";",
    "fail \"1\";",
    "set_prop 1, 1;",
    "clear_prop 1;",
    "set_locale 1;",
    "write_file 1, 1;",
    "append_file 1, 1;",
    "delete_file 1;",
    "if 1 { }",
    "if 2 { }",
    "if 1 { print 1; }",
    "if 1 { } else { print 1; }",
    "repeat 1 { }",
    "repeat 2 { }",
    "repeat 1 { print 1; }",
    "print 1; print 1;",
    "print a;",
    "print b;",
    "print 1 + 1;",
    "print 1 + 1 + 1;",
    "print 1 - 1;",
    "print 1 * 1;",
    "print 1 ++ 1;",
    "print 1 == 1;",
    "print 1 != 1;",
    "print 1 < 1;",
    "print text(1);",
    "print len(1);",
    "print prop(1);",
    "print has_prop(1);",
    "print file(1);",
    "print has_file(1);",
    "print locale();",
];

#[test]
fn one_other_statement_is_another_plan(rt: HostRuntime) -> Result<(), Fail> {
    let frame = ("team shop class C { test t { ", " } }");
    check_pieces(&rt, rt.alloc(), frame, &STATEMENTS)
}

static DECLARATIONS: [&str; 10] = [
    "",
    "static a = 1;",
    "static a = 2;",
    "static b = 1;",
    "static a = true;",
    "field a = 1;",
    "before_all { print 1; }",
    "after_all { print 1; }",
    "before_each { print 1; }",
    "after_each { print 1; }",
];

#[test]
fn one_other_declaration_or_block_is_another_plan(rt: HostRuntime) -> Result<(), Fail> {
    let frame = ("team shop class C { ", " test t { } }");
    check_pieces(&rt, rt.alloc(), frame, &DECLARATIONS)
}

static CLASSES: [&str; 30] = [
    "class C { test t { } }",
    "class D { test t { } }",
    "class C \"D\" { test t { } }",
    "class C { test u { } }",
    "class C { test t \"u\" { } }",
    "isolated class C { test t { } }",
    "concurrent class C { test t { } }",
    "same_thread class C { test t { } }",
    "read \"K\" class C { test t { } }",
    "write \"K\" class C { test t { } }",
    "read \"L\" class C { test t { } }",
    "read \"K\" read \"L\" class C { test t { } }",
    "read \"L\" read \"K\" class C { test t { } }",
    "read children \"K\" class C { test t { } }",
    "write children \"K\" class C { test t { } }",
    "read children \"K\" read \"L\" class C { test t { } }",
    "disabled \"K\" class C { test t { } }",
    "disabled \"L\" class C { test t { } }",
    "class C { disabled \"K\" test t { } }",
    "class C { disabled \"L\" test t { } }",
    "class C { concurrent test t { } }",
    "class C { same_thread test t { } }",
    "class C { read \"K\" test t { } }",
    "class C { write \"K\" test t { } }",
    "class C { test t { } test u { } }",
    "class C { test u { } test t { } }",
    "class C { class D { test t { } } }",
    "class C { class D { test t { } } test u { } }",
    "class C { class D { test t { } test u { } } }",
    "class C { test t { } } class D { test t { } }",
];

#[test]
fn one_other_mark_name_or_title_is_another_plan(rt: HostRuntime) -> Result<(), Fail> {
    check_pieces(&rt, rt.alloc(), ("team shop ", ""), &CLASSES)
}

static TEAMS: [&str; 2] = ["shop", "depot"];

#[test]
fn another_team_is_another_plan(rt: HostRuntime) -> Result<(), Fail> {
    let frame = ("team ", " class C { test t { print 1; } }");
    check_pieces(&rt, rt.alloc(), frame, &TEAMS)
}

static ROWS: [&str; 3] = ["", "\n", "\n\n"];

/// The row of a statement in its block counts.
#[test]
fn another_row_is_another_plan(rt: HostRuntime) -> Result<(), Fail> {
    let frame = ("team shop class C { test t {", "print 1; } }");
    check_pieces(&rt, rt.alloc(), frame, &ROWS)
}

/// Settings that differ in one thing.
static SETTINGS: [Settings; 5] = [
    Settings {
        parallel: true,
        default_mode: Mode::Concurrent,
        classes_default_mode: Mode::Concurrent,
        worker_count: 2,
    },
    Settings {
        parallel: false,
        default_mode: Mode::Concurrent,
        classes_default_mode: Mode::Concurrent,
        worker_count: 2,
    },
    Settings {
        parallel: true,
        default_mode: Mode::SameThread,
        classes_default_mode: Mode::Concurrent,
        worker_count: 2,
    },
    Settings {
        parallel: true,
        default_mode: Mode::Concurrent,
        classes_default_mode: Mode::SameThread,
        worker_count: 2,
    },
    Settings {
        parallel: true,
        default_mode: Mode::Concurrent,
        classes_default_mode: Mode::Concurrent,
        worker_count: 3,
    },
];

const CART: &str = "team shop class Cart { test adds { } }";

/// The settings at this place give the plan of themselves alone.
fn check_settings(
    rt: &impl Abort,
    alloc: Global,
    place: usize,
    one: &Settings,
) -> Result<(), Fail> {
    for (at, other) in SETTINGS.iter().enumerate() {
        let found = is_same(alloc, (&[CART], one), (&[CART], other))?;
        assert_eq!(rt; found, at == place, "{place} and {at}");
    }
    Ok(())
}

#[test]
fn one_other_setting_is_another_plan(rt: HostRuntime) -> Result<(), Fail> {
    for (place, one) in SETTINGS.iter().enumerate() {
        check_settings(&rt, rt.alloc(), place, one)?;
    }
    Ok(())
}

/// Texts in two ways of writing one plan: comments, spaces, zeros, parentheses, a title that is the
/// name, an `else` without statements.
static WRITTEN: [(&str, &str); 5] = [
    (CART, "team shop class Cart { test adds { } } // a cart"),
    (
        CART,
        "team shop class Cart \"Cart\" { test  adds  \"adds\"{} }",
    ),
    (
        "team shop class C { test t { print 1; } }",
        "team shop class C { test t { print ((001)); } }",
    ),
    (
        "team shop class C { test t { if true { } } }",
        "team shop class C { test t { if true { } else { } } }",
    ),
    (
        "team shop class C { before_each { } after_all { print 1; } test t { } }",
        "team shop class C { after_all { print 1; } test t { } }",
    ),
];

/// Both writings of each row have one plan.
fn check_written(rt: &impl Abort, alloc: Global) -> Result<(), Fail> {
    for (one, other) in &WRITTEN {
        assert!(rt; is_one_plan(alloc, one, other)?, "{other}");
    }
    Ok(())
}

#[test]
fn plans_of_two_writings_say_the_same(rt: HostRuntime) -> Result<(), Fail> {
    check_written(&rt, rt.alloc())
}
