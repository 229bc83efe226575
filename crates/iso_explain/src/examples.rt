//! Worked examples of explanations, as public laws.
ghost use Rattle.std.specs.Prelude.{◌≡◌, ◌++◌, ◌∷◌, [], None, Some, codes, refl, replicate};
ghost use Rattle.iso_explain.specs.Examples.{at, end_met, fault_in, in_a_test, lines_of, name_met, second_of, symbol_met, word_met};
ghost use Rattle.iso_explain.specs.Explanations.{explanation};
ghost use Rattle.iso_explain.specs.Meant.{meant_by};
ghost use Rattle.iso_script_lexer.specs.declared.symbol.Symbol.TheVariants as S;
ghost use Rattle.iso_script_lexer.specs.declared.word.Word.TheVariants as W;
ghost use Rattle.iso_script_statements.specs.declared.fault.ScriptFaultKind.TheVariants as K;
ghost use Rattle.iso_script_statements.specs.declared.reason.Limit.TheVariants as L;
ghost use Rattle.iso_script_statements.specs.declared.reason.Reason.TheVariants as R;
ghost use Rattle.iso_script_statements.specs.declared.wanted.Wanted.TheVariants as V;

/// What could have stood there is told with the hint of the table.
pub fn hint_of_the_table_is_told()
    ensures { explanation
        (lines_of ("team shop" ∷ "class Cart {" ∷ "    beforeEach { print \"x\"; }" ∷ []))
        (fault_in K.Expected (at 3 5) (name_met V.ClassPart "beforeEach" refl) 10
        (Some (at 2 12))) None
        ≡ lines_of
        (" 3 |     beforeEach { print \"x\"; }"
        ∷ "   |     ^^^^^^^^^^ expected `test`, `class`, a mark, a lifecycle block, `static` or `field`"
        ∷ " = did you mean `before_each`?"
        ∷ []) }
{}

/// Without a hint the word that was meant is told.
pub fn word_that_was_meant_is_told()
    ensures meant { meant_by (codes "team shop\nclas Cart {\n}\n")
        (fault_in K.Expected (at 2 1) (name_met V.TopClass "clas" refl) 4 None)
        ≡ Some (codes "class") }
    ensures told { explanation
        (lines_of ("team shop" ∷ "clas Cart {" ∷ "}" ∷ []))
        (fault_in K.Expected (at 2 1) (name_met V.TopClass "clas" refl) 4 None)
        (Some (codes "class"))
        ≡ lines_of
        (" 2 | clas Cart {"
        ∷ "   | ^^^^ expected a mark, `class` or the end of the script"
        ∷ " = did you mean `class`?"
        ∷ []) }
    ensures far { meant_by (codes "team shop\nCart {\n}\n")
        (fault_in K.Expected (at 2 1) (name_met V.TopClass "Cart" refl) 4 None) ≡ None }
{}

/// Where `=` is wanted a word may have been meant by the name that begins the statement. What
/// begins with a word has its form, and else it is told which statements there are.
pub fn statement_that_was_meant_is_told()
    ensures meant { meant_by (lines_of (in_a_test ("asert x;" ∷ [])))
        (fault_in K.Expected (at 4 7) (name_met (V.Symbol S.Equals) "x" refl) 1 None)
        ≡ Some (codes "assert") }
    ensures below_a_comment { meant_by (lines_of (in_a_test ("// one; two" ∷ "setProp a, b;" ∷ [])))
        (fault_in K.Expected (at 5 9) (name_met (V.Symbol S.Equals) "a" refl) 1 None)
        ≡ Some (codes "set_prop") }
    ensures behind_let { meant_by (lines_of (in_a_test ("let x y;" ∷ [])))
        (fault_in K.Expected (at 4 7) (name_met (V.Symbol S.Equals) "y" refl) 1 None)
        ≡ None }
    ensures form { explanation
        (lines_of (in_a_test ("let x y;" ∷ [])))
        (fault_in K.Expected (at 4 7) (name_met (V.Symbol S.Equals) "y" refl) 1 None) None
        ≡ lines_of (" 4 | let x y;" ∷ "   |       ^ expected `=`"
        ∷ " = write `let NAME = ..;`" ∷ []) }
    ensures all { explanation
        (lines_of (in_a_test ("nap x;" ∷ [])))
        (fault_in K.Expected (at 4 5) (name_met (V.Symbol S.Equals) "x" refl) 1 None) None
        ≡ lines_of
        (" 4 | nap x;"
        ∷ "   |     ^ expected `=`"
        ∷ " = statements are `NAME = ..;`, `let print assert assert_equal assume fail if repeat` and `set_prop clear_prop set_locale write_file append_file delete_file`"
        ∷ []) }
{}

/// Where a `;` is missing this is told, be it in the line or in the one before, and not which brace
/// is open.
pub fn missing_semicolon_is_told()
    ensures before_a_brace { explanation
        (lines_of (in_a_test ("if a { print 1 }" ∷ [])))
        (fault_in K.Expected (at 4 16) (symbol_met (V.Operator S.Semicolon) S.CloseBrace refl) 1
        (Some (at 4 6))) None
        ≡ lines_of
        (" 4 | if a { print 1 }"
        ∷ "   |                ^ expected an operator or `;`"
        ∷ " = a `;` is missing before this"
        ∷ []) }
    ensures behind_a_comment { explanation
        (lines_of (in_a_test ("x = \"/a\" // { }" ∷ "" ∷ "y = 2;" ∷ [])))
        (fault_in K.Expected (at 6 1) (name_met (V.Operator S.Semicolon) "y" refl) 1 None) None
        ≡ lines_of (" 6 | y = 2;" ∷ "   | ^ expected an operator or `;`"
        ∷ " = a `;` is missing before this" ∷ []) }
    ensures in_the_line { explanation
        (lines_of (in_a_test ("x = 1 print 2;" ∷ [])))
        (fault_in K.Expected (at 4 7) (word_met (V.Operator S.Semicolon) W.Print refl) 5 None) None
        ≡ lines_of (" 4 | x = 1 print 2;" ∷ "   |       ^^^^^ expected an operator or `;`"
        ∷ " = a `;` is missing before this" ∷ []) }
    ensures another_operand { explanation
        (lines_of (in_a_test ("x = 1 y;" ∷ [])))
        (fault_in K.Expected (at 4 7) (name_met (V.Operator S.Semicolon) "y" refl) 1 None) None
        ≡ lines_of (" 4 | x = 1 y;" ∷ "   |       ^ expected an operator or `;`" ∷ []) }
{}

/// What stands outside of bodies tells in one that its brace is open.
pub fn open_body_is_told()
    ensures { explanation
        (lines_of (in_a_test ("print 1;" ∷ "test drops { }" ∷ [])))
        (fault_in K.Expected (at 5 1) (word_met V.Statement W.Test refl) 4 (Some (at 3 13))) None
        ≡ lines_of
        (" 5 | test drops { }"
        ∷ "   | ^^^^ expected a statement or `}`"
        ∷ " = this stands outside of bodies, and one is open here: is a `}` missing above?"
        ∷ " = the brace at 3:13 is open"
        ∷ []) }
{}

/// Of what stands a second time it is told where it stands first.
pub fn first_of_two_is_told()
    ensures { explanation
        (lines_of ("team shop" ∷ "class Cart {" ∷ "  test adds { }" ∷ "  test adds { }" ∷ "}" ∷ []))
        (second_of K.DoubleMember (at 4 8) 4 (at 3 8)) None
        ≡ lines_of
        (" 4 |   test adds { }"
        ∷ "   |        ^^^^ this is here already: a test or class of this name, or such a mark"
        ∷ " = first at 3:8"
        ∷ []) }
{}

/// Where the script ends the brace is told that is open, and a caret stands below the end.
pub fn open_brace_is_told_at_the_end()
    ensures new_line { explanation
        (lines_of ("team shop" ∷ "class Cart {" ∷ "  test adds { }" ∷ []))
        (fault_in K.EndOfInput (at 4 1) (end_met V.Member refl) 0 (Some (at 2 12))) None
        ≡ lines_of
        (" 4 | "
        ∷ "   | ^ expected `test`, `class`, a mark or `}`"
        ∷ " = the brace at 2:12 is open"
        ∷ []) }
    ensures in_line { explanation (codes "team")
        (fault_in K.EndOfInput (at 1 5) (end_met V.Name refl) 0 None) None
        ≡ lines_of (" 1 | team" ∷ "   |     ^ expected a name" ∷ []) }
{}

/// It is told too where a brace is closed too early.
pub fn open_brace_is_told_where_one_is_closed()
    ensures { explanation
        (lines_of ("team shop" ∷ "class Cart {" ∷ "  test adds" ∷ "}" ∷ []))
        (fault_in K.Expected (at 4 1) (symbol_met V.Display S.CloseBrace refl) 1
        (Some (at 2 12))) None
        ≡ lines_of
        (" 4 | }"
        ∷ "   | ^ expected a display text or `{`"
        ∷ " = write `test NAME { .. }`"
        ∷ " = the brace at 2:12 is open"
        ∷ []) }
{}

/// Of a limit its number is told.
pub fn limits_are_told()
    ensures operands { explanation (codes "+")
        (fault_in K.TooDeep (at 1 1) (R.Beyond L.Operands) 1 None) None
        ≡ lines_of (" 1 | +" ∷ "   | ^ this is one too many"
        ∷ " = at most 32 operands stand in one chain" ∷ []) }
    ensures script { explanation []
        (fault_in K.TooLong (at 1 1) (R.Beyond L.ScriptBytes) 0 None) None
        ≡ lines_of (" 1 | " ∷ "   | ^ this is too long"
        ∷ " = at most 1048576 bytes stand in a script" ∷ []) }
    ensures name { explanation (codes "a") (fault_in K.TooLong (at 1 1) R.Kind 0 None) None
        ≡ lines_of
        (" 1 | a"
        ∷ "   | ^ this is too long"
        ∷ " = at most 64 bytes stand in a name, and 4096 in a text"
        ∷ []) }
    ensures number { explanation (codes "9") (fault_in K.NumberTooBig (at 1 1) R.Kind 1 None) None
        ≡ lines_of
        (" 1 | 9"
        ∷ "   | ^ this number is too big"
        ∷ " = at most 9223372036854775807, after the minus of a literal 9223372036854775808"
        ∷ []) }
    ensures display { explanation (codes "\"\"") (fault_in K.BadDisplay (at 1 1) R.Kind 2 None) None
        ≡ lines_of
        (" 1 | \"\""
        ∷ "   | ^^ this text can't be shown as it is"
        ∷ " = a display text and a reason have 1 to 200 bytes, and no space at either end"
        ∷ []) }
{}

/// No control byte is shown as it is, nor the CR before a line feed.
pub fn control_bytes_are_not_shown()
    ensures { explanation
        (codes "team shop\r\n\tclass " ++ 27 ∷ codes "[0m\r\n")
        (fault_in K.BadByte (at 2 8) R.Kind 0 None) None
        ≡ lines_of (" 2 |  class ?[0m"
        ∷ "   |        ^ this byte may not stand here: texts and comments too have printable ASCII alone" ∷ []) }
{}

/// Of a long line the part round the fault is shown.
pub fn long_lines_are_cut()
    ensures { explanation
        (codes "team s\nclass C { test t { x = 1 " ++ replicate 200 32 ++ codes "y; } }")
        (fault_in K.Expected (at 2 226) (name_met (V.Operator S.Semicolon) "y" refl) 1
        (Some (at 2 18))) None
        ≡ codes " 2 | .." ++ replicate 154 32 ++ codes "y; } }\n   | " ++ replicate 156 32
        ++ codes "^ expected an operator or `;`\n" }
{}
