//! What operations take, in words.
ghost use Rattle.std.specs.Prelude.{◌≡◌};
ghost use Rattle.iso_explain_block.specs.Rules.{act_rule, chain_rule, comparison_rule, function_rule};
ghost use Rattle.iso_model.specs.SyntaxView.{form_of};

use iso_model::tree::{Comparison, Form, Function, OneOperand, Operator, TwoOperands};

/// What an operator of a chain takes.
pub(crate) fn chain_rule(operator: Operator) -> &'static str
    ensures { result.now ≡ chain_rule operator }
{
    match operator {
        Operator::Add => "+ adds two whole numbers; ++ joins two texts",
        Operator::Subtract => "- takes two whole numbers",
        Operator::Multiply => "* takes two whole numbers",
        Operator::Join => "++ joins two texts; text(n) is the text of a number or truth value",
    }
}

/// What a comparison takes.
pub(crate) fn comparison_rule(comparison: Comparison) -> &'static str
    ensures { result.now ≡ comparison_rule comparison }
{
    match comparison {
        Comparison::Equal => "== compares two values of one kind",
        Comparison::NotEqual => "!= compares two values of one kind",
        Comparison::Less => "< compares two whole numbers",
    }
}

/// What a function takes.
pub(crate) fn function_rule(function: Function) -> &'static str
    ensures { result.now ≡ function_rule function }
{
    match function {
        Function::Text => "text takes a value of any kind",
        Function::Len => "len takes a text; len(text(n)) counts the digits of a number",
        Function::Prop => "prop takes a text, the name of a property",
        Function::HasProp => "has_prop takes a text, the name of a property",
        Function::File => "file takes a text, the path of a file",
        Function::HasFile => "has_file takes a text, the path of a file",
    }
}

/// What a statement takes.
#[tactic(auto, unfolding(crate::specs::Rules::act_rule))]
pub(crate) fn form_rule(form: &Form) -> &'static str
    ensures { result.now ≡ act_rule (form_of form.now) }
{
    match form {
        Form::Let(_, _) => "let takes a value of any kind",
        Form::Assign(_, _) => "a name takes a value of any kind",
        Form::One(OneOperand::Print, _) => "print takes a value of any kind",
        Form::Fail(_) => "fail takes no value",
        Form::One(OneOperand::Assert, _) => "assert takes a truth value, as == and < give it",
        Form::Assume(_, _) => "assume takes a truth value, as == and < give it",
        Form::If(_, _) | Form::IfElse(_, _) => "if takes a truth value, as == and < give it",
        Form::Repeat(_, _) => "repeat takes a whole number",
        Form::Two(TwoOperands::AssertEqual, _, _) => "assert_equal compares two values of one kind",
        Form::Two(TwoOperands::SetProp, _, _) =>
            "set_prop takes two texts; text(n) is the text of a number",
        Form::Two(TwoOperands::WriteFile, _, _) =>
            "write_file takes two texts; text(n) is the text of a number",
        Form::Two(TwoOperands::AppendFile, _, _) =>
            "append_file takes two texts; text(n) is the text of a number",
        Form::One(OneOperand::ClearProp, _) => "clear_prop takes a text, the name of a property",
        Form::One(OneOperand::SetLocale, _) => "set_locale takes a text",
        Form::One(OneOperand::DeleteFile, _) => "delete_file takes a text, the path of a file",
    }
}
