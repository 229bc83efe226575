//! Worked examples of the grammar of expressions and statements, as public laws.
ghost use Rattle.std.specs.Prelude.{[], ◌∷◌, true, false};
ghost use Rattle.iso_model.specs.Examples.Words.{add, equal, file, flag, has_file, has_prop, join, len, less, minus, multiply};
ghost use Rattle.iso_model.specs.Examples.Words.{name, not_equal, number, prop, quoted, subtract, text};
ghost use Rattle.iso_model.specs.Examples.Words.{append_file, assert, assert_equal, assign, assume, clear_prop, delete_file, fail};
ghost use Rattle.iso_model.specs.Examples.Words.{if_else, if_then, let_name, print, repeat, set_locale, set_prop, write_file};
ghost use Rattle.iso_model.specs.Syntax.{locale, no_acts};
ghost use Rattle.iso_script_statements.specs.Examples.{IsBlockText, IsExpressionText, IsStatementText, rows_acts, rows_text};

/// Each literal, each operator, each function and each other operand. A chain has its operands in
/// their order, and what stands in parentheses is one of them.
pub fn expressions_are_read()
    ensures chains { IsExpressionText "(1 - 2 - -3) * (x + 004 + y)"
        (multiply (subtract (number 1) (number 2 ∷ minus 3 ∷ []))
        (add (name "x") (number 4 ∷ name "y" ∷ []) ∷ [])) }
    ensures texts { IsExpressionText "text(len(prop(file(\"a\")))) ++ locale() ++ \"b\""
        (join (text (len (prop (file (quoted "a"))))) (locale ∷ quoted "b" ∷ [])) }
    ensures comparisons { IsExpressionText
        "(has_prop(\"a\") == has_file(\"b\")) != (true == (false == (1 < 2)))"
        (not_equal (equal (has_prop (quoted "a")) (has_file (quoted "b")))
        (equal (flag true) (equal (flag false) (less (number 1) (number 2))))) }
    ensures numbers { IsExpressionText "9223372036854775807 - -9223372036854775808"
        (subtract (number 9223372036854775807) (minus 9223372036854775808 ∷ [])) }
{}

/// Each statement that has no body.
pub fn statements_are_read()
    ensures let_name { IsStatementText "{ let x = 1; }" (let_name "x" (number 1)) }
    ensures assign { IsStatementText "{ x = y; }" (assign "x" (name "y")) }
    ensures print { IsStatementText "{ print 1; }" (print (number 1)) }
    ensures assert { IsStatementText "{ assert true; }" (assert (flag true)) }
    ensures assert_equal { IsStatementText "{ assert_equal 1, x; }"
        (assert_equal (number 1) (name "x")) }
    ensures assume { IsStatementText "{ assume x, \"not now\"; }" (assume (name "x") "not now") }
    ensures fail { IsStatementText "{ fail \" \"; }" (fail " ") }
    ensures set_prop { IsStatementText "{ set_prop x, y; }" (set_prop (name "x") (name "y")) }
    ensures clear_prop { IsStatementText "{ clear_prop x; }" (clear_prop (name "x")) }
    ensures set_locale { IsStatementText "{ set_locale x; }" (set_locale (name "x")) }
    ensures write_file { IsStatementText "{ write_file x, y; }" (write_file (name "x") (name "y")) }
    ensures append_file { IsStatementText "{ append_file x, y; }"
        (append_file (name "x") (name "y")) }
    ensures delete_file { IsStatementText "{ delete_file x; }" (delete_file (name "x")) }
{}

/// Statements with bodies, and bodies. An `else` is that of the `if` whose body ends before it.
/// Rows count from the line of the block's brace, in inner bodies too.
pub fn bodies_are_read()
    ensures none { IsBlockText ("{ }" ∷ []) no_acts }
    ensures inner_else { IsStatementText "{ if x { if y { } else { fail \"\"; } } }"
        (if_then (name "x") (if_else (name "y") [] (fail "" ∷ []) ∷ [])) }
    ensures outer_else { IsStatementText "{ if x { if y { fail \"\"; } } else { print z; } }"
        (if_else (name "x") (if_then (name "y") (fail "" ∷ []) ∷ []) (print (name "z") ∷ [])) }
    ensures turns { IsStatementText "{ repeat x { repeat y { } } }"
        (repeat (name "x") (repeat (name "y") [] ∷ [])) }
    ensures rows { IsBlockText rows_text rows_acts }
{}
