//! The properties and files that the blocks of a class chain give, as far as literals write their
//! names.
ghost use Rattle.std.specs.Prelude.{◌≡◌, IfOk, OnOk, map, option_map};
ghost use Rattle.iso_explain_block.specs.Missing.{act_names, body_names, chain_names, class_names, classes_names, test_names, with_literal};
ghost use Rattle.iso_explain_block.specs.Variables.{heads_of};
ghost use Rattle.iso_model.specs.ScriptView.{class_head_of, test_head_of};
ghost use Rattle.iso_model.specs.SyntaxView.{block_of, stmt_of, term_of};

use iso_model::chain::Chain;
use iso_model::heads::{ClassHead, TestHead};
use iso_model::tree::{Expr, Form, Stmt, TwoOperands};
use std::alloc::{AllocError, Global};
use std::sync::Arc;

/// What has a name, and may be missing.
#[derive(Clone, Copy)]
pub(crate) enum Thing {
    Property,
    File,
}

/// The names of the properties or files that the blocks of a class chain give: of its classes,
/// outermost first, and of its test.
#[tactic(auto, unfolding(crate::specs::Missing::chain_names))]
pub(crate) fn set_names<'a>(
    alloc: Global,
    thing: Thing,
    chain: Chain<'a>,
) -> Result<Vec<&'a str>, AllocError>
    ensures { IfOk result (λ v. map (λ n. n.now) v.items
        ≡ chain_names thing (heads_of chain.entry.classes.now)
        (option_map (λ t. test_head_of t.now) chain.entry.test)) }
{
    let mut names = Vec::new(alloc);
    add_classes(&mut names, thing, chain.classes)?;
    add_test(&mut names, thing, chain.test)?;
    Ok(names)
}

/// Adds those of classes.
fn add_classes<'a>(
    names: &mut Vec<&'a str>,
    thing: Thing,
    classes: &'a [Arc<ClassHead>],
) -> Result<(), AllocError>
    ensures { OnOk result (map (λ n. n.now) names.new.items
        ≡ classes_names thing (heads_of classes.now) (map (λ n. n.now) names.old.items)) }
{
    for class in classes {
        add_class(names, thing, &**class)?;
    }
    Ok(())
}

/// Adds those of a class.
fn add_class<'a>(
    names: &mut Vec<&'a str>,
    thing: Thing,
    class: &'a ClassHead,
) -> Result<(), AllocError>
    ensures { OnOk result (map (λ n. n.now) names.new.items
        ≡ class_names thing (class_head_of class.now) (map (λ n. n.now) names.old.items)) }
{
    add_body(names, thing, &class.contents.before_all)?;
    add_body(names, thing, &class.contents.before_each)?;
    add_body(names, thing, &class.contents.after_each)?;
    add_body(names, thing, &class.contents.after_all)
}

/// Adds those of a test, if there is one.
fn add_test<'a>(
    names: &mut Vec<&'a str>,
    thing: Thing,
    test: Option<&'a TestHead>,
) -> Result<(), AllocError>
    ensures { OnOk result (map (λ n. n.now) names.new.items
        ≡ test_names thing (option_map (λ t. test_head_of t.now) test.entry)
        (map (λ n. n.now) names.old.items)) }
{
    match test {
        Some(head) => add_body(names, thing, &head.contents.body),
        None => Ok(()),
    }
}

/// Adds those of a body.
#[cycle(set)]
fn add_body<'a>(
    names: &mut Vec<&'a str>,
    thing: Thing,
    statements: &'a [Stmt],
) -> Result<(), AllocError>
    ensures { OnOk result (map (λ n. n.now) names.new.items
        ≡ body_names thing (block_of statements.now) (map (λ n. n.now) names.old.items)) }
{
    for i in 0..statements.len() {
        add_statement(names, thing, &statements[i])?;
    }
    Ok(())
}

/// Adds those of a statement.
#[cycle(set)]
fn add_statement<'a>(
    names: &mut Vec<&'a str>,
    thing: Thing,
    statement: &'a Stmt,
) -> Result<(), AllocError>
    ensures { OnOk result (map (λ n. n.now) names.new.items
        ≡ act_names thing (stmt_of statement.now).1 (map (λ n. n.now) names.old.items)) }
{
    match (&statement.form, thing) {
        (Form::Two(TwoOperands::SetProp, name, _), Thing::Property)
        | (Form::Two(TwoOperands::WriteFile, name, _), Thing::File) => add_literal(names, name),
        (Form::If(_, body) | Form::Repeat(_, body), _) => add_body(names, thing, body),
        (Form::IfElse(_, bodies), _) => {
            add_body(names, thing, &bodies.first)?;
            add_body(names, thing, &bodies.second)
        }
        _ => Ok(()),
    }
}

/// Adds a literal text.
fn add_literal<'a>(names: &mut Vec<&'a str>, expression: &'a Expr) -> Result<(), AllocError>
    ensures { OnOk result (map (λ n. n.now) names.new.items
        ≡ with_literal (term_of expression.now) (map (λ n. n.now) names.old.items)) }
{
    match expression {
        Expr::Text(text) => {
            names.push(text.as_str())?;
            Ok(())
        }
        _ => Ok(()),
    }
}
