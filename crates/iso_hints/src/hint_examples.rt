//! Worked examples of the hints, as public laws: one of each row, and places of which nothing is
//! told.
ghost use Rattle.std.specs.Prelude.{◌≡◌, ◌∷◌, [], None, Some, codes};
ghost use Rattle.iso_hints.specs.Examples.{form_in_class, form_in_test, in_class, in_script, in_test};
ghost use Rattle.iso_hints.specs.Hints.{hint_at};

/// A script begins with its team, and classes follow.
pub fn beginnings_are_told()
    ensures byte_order_mark { hint_at (239 ∷ 187 ∷ 191 ∷ []) 0
        ≡ Some (codes "the script begins with a byte order mark: save it without one") }
    ensures package { in_script "" "package shop;"
        ≡ Some (codes "there are no packages: a script begins with `team NAME`") }
    ensures import { in_script "" "import a.b;"
        ≡ Some (codes "there are no imports: a script begins with `team NAME`") }
    ensures attribute { in_class "" "#[cfg(debug)]"
        ≡ Some (codes "there are no attributes such as `#[..]`: write marks before `class` or `test`") }
    ensures hash { in_test "" "# c" ≡ Some (codes "a comment begins with `//`") }
    ensures star_comment { in_test "" "/* c */" ≡ Some (codes "a comment begins with `//`") }
    ensures other { in_script "" "class Cart { }"
        ≡ Some (codes "a script begins with `team NAME`") }
    ensures team_quote { in_script "team " "\"shop\""
        ≡ Some (codes "the name of a team stands without quotes") }
    ensures team_semicolon { in_script "team shop" ";"
        ≡ Some (codes "no `;` stands behind the name of a team") }
    ensures team_brace { in_script "team shop " "{ }"
        ≡ Some (codes "a team has no braces: its classes stand below `team NAME`") }
    ensures team { in_script "team " "file"
        ≡ Some (codes "a name stands here, and this word is reserved: choose another one") }
    ensures team_named_test { in_script "team " "test"
        ≡ Some (codes "a name stands here, and this word is reserved: choose another one") }
    ensures team_test { in_script "team shop\n" "test t { }"
        ≡ Some (codes "a test stands in a class: `class NAME { test NAME { .. } }`") }
    ensures team_dot { in_script "team shop" ".cart"
        ≡ Some (codes "the name of a team has letters, digits and `_` alone") }
    ensures team_minus { in_script "team shop" "-cart"
        ≡ Some (codes "the name of a team has letters, digits and `_` alone") }
{}

/// Annotations have marks and words in their place.
pub fn annotations_are_told()
    ensures at_test { in_class "" "@Test void adds() { }"
        ≡ Some (codes "write `test NAME { .. }`") }
    ensures at_before_each { in_class "" "@BeforeEach void x() { }"
        ≡ Some (codes "write `before_each { .. }`") }
    ensures at_before_all { in_class "" "@BeforeAll" ≡ Some (codes "write `before_all { .. }`") }
    ensures at_after_each { in_class "" "@AfterEach" ≡ Some (codes "write `after_each { .. }`") }
    ensures at_after_all { in_class "" "@AfterAll" ≡ Some (codes "write `after_all { .. }`") }
    ensures at_before { in_class "" "@Before public" ≡ Some (codes "write `before_each { .. }`") }
    ensures at_after { in_class "" "@After public" ≡ Some (codes "write `after_each { .. }`") }
    ensures at_disabled { in_class "" "@Disabled(\"x\")"
        ≡ Some (codes "write `disabled \"REASON\"` before `test` or `class`") }
    ensures at_ignore { in_class "" "@Ignore"
        ≡ Some (codes "write `disabled \"REASON\"` before `test` or `class`") }
    ensures at_nested { in_class "" "@Nested class D { }"
        ≡ Some (codes "write `class NAME { .. }` in the class") }
    ensures at_display_name { in_class "" "@DisplayName(\"x\")"
        ≡ Some (codes "write the text behind the name: `test NAME \"TEXT\" { .. }`") }
    ensures at_isolated { in_script "team shop\n" "@Isolated class C { }"
        ≡ Some (codes "write `isolated` before `class`") }
    ensures at_execution { in_class "" "@Execution(CONCURRENT)"
        ≡ Some (codes "write `concurrent` or `same_thread` before `class` or `test`") }
    ensures at_resource_lock { in_class "" "@ResourceLock(\"db\")"
        ≡ Some (codes "write `read \"KEY\"` or `write \"KEY\"`: for properties `\"java.lang.System.properties\"`") }
    ensures at_repeated_test { in_class "" "@RepeatedTest(3)"
        ≡ Some (codes "write `repeat N { .. }` in the test") }
    ensures other_annotations { in_class "" "@Tag(\"slow\")"
        ≡ Some (codes "there are no annotations: write marks before `class` or `test`") }
{}

/// Operators of other languages have others in their place, or none.
pub fn operators_are_told()
    ensures single_quote { in_test "print " "'x';" ≡ Some (codes "a text stands in double quotes") }
    ensures backtick { in_test "print " "`x`;" ≡ Some (codes "a text stands in double quotes") }
    ensures and_and { in_test "assert a " "&& b;"
        ≡ Some (codes "there is no `&&`: write an `if` in an `if`, or two statements") }
    ensures or_or { in_test "assert a " "|| b;"
        ≡ Some (codes "there is no `||`: write `if a { .. } else { .. }`") }
    ensures ampersand { in_test "assert a " "& b;" ≡ Some (codes "there are no operators on bits") }
    ensures bar { in_test "assert a " "| b;" ≡ Some (codes "there are no operators on bits") }
    ensures caret { in_test "print a " "^ b;" ≡ Some (codes "there are no operators on bits") }
    ensures tilde { in_test "print " "~a;" ≡ Some (codes "there are no operators on bits") }
    ensures equal_one_more_equals { in_test "assert a ==" "= b;"
        ≡ Some (codes "did you mean `==`?") }
    ensures unequal_one_more_equals { in_test "assert a !=" "= b;"
        ≡ Some (codes "did you mean `!=`?") }
    ensures less_one_more_equals { in_test "assert a <" "= b;"
        ≡ Some (codes "there is no `<=`: write `(b < a) == false`") }
    ensures less_greater { in_test "assert a <" "> b;" ≡ Some (codes "did you mean `!=`?") }
    ensures minus_greater { in_test "let f = x -" "> x;"
        ≡ Some (codes "there are no functions of one's own") }
    ensures one_more_equals_greater { in_test "let f = x =" "> x;"
        ≡ Some (codes "there are no functions of one's own") }
    ensures at_least { in_test "assert a " ">= b;"
        ≡ Some (codes "there is no `>=`: write `(a < b) == false`") }
    ensures greater { in_test "assert a " "> b;" ≡ Some (codes "there is no `>`: write `b < a`") }
    ensures plus_equals { in_test "i " "+= 1;"
        ≡ Some (codes "there is no `+=`: write `i = i + ..;`") }
    ensures minus_equals { in_test "i " "-= 1;"
        ≡ Some (codes "there is no `-=`: write `i = i - ..;`") }
    ensures star_equals { in_test "i " "*= 2;"
        ≡ Some (codes "there is no `*=`: write `i = i * ..;`") }
    ensures arrow { in_test "let f = x " "=> x;"
        ≡ Some (codes "there is no `=>`: write `(a < b) == false`, or `=`") }
    ensures equal_less { in_test "assert a " "=< b;"
        ≡ Some (codes "there is no `=<`: write `(b < a) == false`") }
{}

/// Methods of other languages have statements and functions in their place, or none.
pub fn methods_are_told()
    ensures system_dot_out { in_test "System" ".out(b)" ≡ Some (codes "did you mean `print`?") }
    ensures system_dot_set_property { in_test "System" ".setProperty(b)"
        ≡ Some (codes "write `set_prop a, b;`") }
    ensures system_dot_get_property { in_test "System" ".getProperty(b)"
        ≡ Some (codes "write `prop(..)`") }
    ensures system_dot_clear_property { in_test "System" ".clearProperty(b)"
        ≡ Some (codes "write `clear_prop a;`") }
    ensures locale_dot_set_default { in_test "Locale" ".setDefault(b)"
        ≡ Some (codes "write `set_locale a;`") }
    ensures locale_dot_get_default { in_test "Locale" ".getDefault(b)"
        ≡ Some (codes "write `locale()`") }
    ensures files_dot_any { in_test "Files" ".a(b)"
        ≡ Some (codes "write `file(..)`, `has_file(..)`, `write_file a, b;` or `delete_file a;`") }
    ensures assertions_dot_any { in_test "Assertions" ".a(b)"
        ≡ Some (codes "write `assert a;` or `assert_equal a, b;`") }
    ensures console_dot_any { in_test "console" ".a(b)" ≡ Some (codes "did you mean `print`?") }
    ensures this_dot_any { in_test "this" ".a(b)"
        ≡ Some (codes "leave `this.` out: write the name alone") }
    ensures self_dot_any { in_test "self" ".a(b)"
        ≡ Some (codes "leave `self.` out: write the name alone") }
    ensures any_dot_length { in_test "print a" ".length(b)" ≡ Some (codes "write `len(..)`") }
    ensures any_dot_size { in_test "print a" ".size(b)" ≡ Some (codes "write `len(..)`") }
    ensures any_dot_equals { in_test "print a" ".equals(b)" ≡ Some (codes "write `a == b`") }
    ensures any_dot_is_empty { in_test "print a" ".isEmpty(b)"
        ≡ Some (codes "write `len(..) == 0`") }
{}

/// So have other symbols.
pub fn symbols_are_told()
    ensures plus_plus { in_test "i" "++;" ≡ Some (codes "there is no `++`: write `i = i + 1;`") }
    ensures minus_minus { in_test "i" "--;" ≡ Some (codes "there is no `--`: write `i = i - 1;`") }
    ensures assert_eq_bang { in_test "assert_eq" "!(1, 2);"
        ≡ Some (codes "write `assert_equal a, b;` without parentheses") }
    ensures println_bang { in_test "println" "!(\"x\");" ≡ Some (codes "did you mean `print`?") }
    ensures slash { in_test "print 4 " "/ 2;" ≡ Some (codes "there is no division") }
    ensures percent { in_test "print 4 " "% 2;" ≡ Some (codes "there is no division") }
    ensures question { in_test "let x = a " "? b : c;"
        ≡ Some (codes "there is no `?`: write `if a { .. } else { .. }`") }
    ensures bracket { in_test "let x = " "[1, 2];" ≡ Some (codes "there are no lists") }
    ensures dot { in_test "let x = 1" ".5;"
        ≡ Some (codes "there is no `.`: numbers are whole, and nothing has fields or methods") }
    ensures backslash { in_test "print \"a" "\\n\";"
        ≡ Some (codes "a text has the escapes `\\\"` and `\\\\` alone") }
    ensures class_colon { in_class "class D " ": C { }" ≡ Some (codes "a class extends no other") }
    ensures colons { in_test "a" "::b();"
        ≡ Some (codes "there is no `::`: nothing is a part of a type") }
    ensures colon_equals { in_test "let x " ":= 1;" ≡ Some (codes "a value is given by `=`") }
    ensures colon { in_test "let x" ": int = 1;"
        ≡ Some (codes "there is no `:`: bodies stand in braces, and nothing has a type") }
    ensures let_equal { in_test "let x " "== 1;" ≡ Some (codes "a value is given by `=`") }
{}

/// Names, blocks, marks and statements have no parentheses.
pub fn parentheses_are_told()
    ensures test_parenthesis { in_class "test adds" "() { }"
        ≡ Some (codes "a test has no parentheses: write `test NAME { .. }`") }
    ensures class_parenthesis { in_class "class D" "() { }"
        ≡ Some (codes "a class has no parentheses: write `class NAME { .. }`") }
    ensures before_each_parenthesis { in_class "before_each" "() { }"
        ≡ Some (codes "a block has no parentheses: write `before_each { .. }`") }
    ensures before_all_parenthesis { in_class "before_all" "() { }"
        ≡ Some (codes "a block has no parentheses: write `before_all { .. }`") }
    ensures after_each_parenthesis { in_class "after_each" "() { }"
        ≡ Some (codes "a block has no parentheses: write `after_each { .. }`") }
    ensures after_all_parenthesis { in_class "after_all" "() { }"
        ≡ Some (codes "a block has no parentheses: write `after_all { .. }`") }
    ensures read_parenthesis { in_class "read" "(\"a\") test t { }"
        ≡ Some (codes "`read` has no parentheses: write `read \"KEY\"`") }
    ensures write_parenthesis { in_class "write" "(\"a\") test t { }"
        ≡ Some (codes "`write` has no parentheses: write `write \"KEY\"`") }
    ensures disabled_parenthesis { in_class "disabled" "(\"a\") test t { }"
        ≡ Some (codes "`disabled` has no parentheses: write `disabled \"REASON\"`") }
    ensures concurrent_parenthesis { in_class "concurrent test t" "() { }"
        ≡ Some (codes "tests and classes have no parentheses") }
    ensures same_thread_parenthesis { in_class "same_thread test t" "() { }"
        ≡ Some (codes "tests and classes have no parentheses") }
    ensures isolated_parenthesis { in_class "isolated class D" "() { }"
        ≡ Some (codes "tests and classes have no parentheses") }
    ensures disabled_parenthesis_again { in_class "disabled \"x\" test t" "() { }"
        ≡ Some (codes "tests and classes have no parentheses") }
    ensures read_parenthesis_again { in_class "read \"a\" test t" "() { }"
        ≡ Some (codes "tests and classes have no parentheses") }
    ensures write_parenthesis_again { in_class "write \"a\" test t" "() { }"
        ≡ Some (codes "tests and classes have no parentheses") }
    ensures assert_equal_parenthesis_comma { in_test "assert_equal(1" ", 1);"
        ≡ Some (codes "`assert_equal` has no parentheses: write `assert_equal a, b;`") }
    ensures assert_equal_parenthesis_comma_again { in_test "assert_equal (1" ", 1);"
        ≡ Some (codes "`assert_equal` has no parentheses: write `assert_equal a, b;`") }
    ensures assert_equal_comma { in_test "assert_equal 1, 1" ", \"x\";"
        ≡ Some (codes "`assert_equal` takes two expressions and no message") }
    ensures assert_parenthesis_comma { in_test "assert(a" ", \"x\");"
        ≡ Some (codes "`assert` takes one expression and no message") }
    ensures assert_comma { in_test "assert a" ", \"x\";"
        ≡ Some (codes "`assert` takes one expression and no message") }
    ensures assume_parenthesis_comma { in_test "assume(a" ", \"x\");"
        ≡ Some (codes "`assume` has no parentheses: write `assume a, \"REASON\";`") }
    ensures set_prop_parenthesis_comma { in_test "set_prop(\"a\"" ", \"b\");"
        ≡ Some (codes "`set_prop` has no parentheses: write `set_prop a, b;`") }
    ensures write_file_parenthesis_comma { in_test "write_file(\"a\"" ", \"b\");"
        ≡ Some (codes "`write_file` has no parentheses: write `write_file a, b;`") }
    ensures append_file_parenthesis_comma { in_test "append_file(\"a\"" ", \"b\");"
        ≡ Some (codes "`append_file` has no parentheses: write `append_file a, b;`") }
    ensures print_comma { in_test "print a" ", b;"
        ≡ Some (codes "`print` takes one expression: join texts by `++`") }
    ensures let_comma { in_test "let i = 1" ",000;" ≡ Some (codes "a value has no comma") }
    ensures before_each_other { in_class "before_each " "\"x\" { }"
        ≡ Some (codes "a block has neither name nor parentheses: write `before_each { .. }`") }
    ensures before_all_other { in_class "before_all " "\"x\" { }"
        ≡ Some (codes "a block has neither name nor parentheses: write `before_all { .. }`") }
    ensures after_each_other { in_class "after_each " "\"x\" { }"
        ≡ Some (codes "a block has neither name nor parentheses: write `after_each { .. }`") }
    ensures after_all_other { in_class "after_all " "\"x\" { }"
        ≡ Some (codes "a block has neither name nor parentheses: write `after_all { .. }`") }
{}

/// Statements end with one `;`, have one operator an expression, and names aren't reserved.
pub fn ends_are_told()
    ensures assume_semicolon { in_test "assume a" ";"
        ≡ Some (codes "`assume` says why: write `assume a, \"REASON\";`") }
    ensures semicolon_semicolon { in_test "print 1;" ";"
        ≡ Some (codes "one `;` ends a statement: leave this one out") }
    ensures closed_semicolon { in_test "if a { }" ";" ≡ Some (codes "no `;` stands behind a body") }
    ensures semicolon_brace { in_test "print 1; " "{ }"
        ≡ Some (codes "a body stands behind `if`, `else`, `repeat`, or the name of a test or block") }
    ensures brace_brace { in_test "" "{ }"
        ≡ Some (codes "a body stands behind `if`, `else`, `repeat`, or the name of a test or block") }
    ensures closed_closed { in_script "team s class C { test t { } }" "} {"
        ≡ Some (codes "nothing is open here that could be closed") }
    ensures second_operator { in_test "print 1 + 2 " "* 3;"
        ≡ Some (codes "an expression has one operator: write `a + (b * c)`") }
    ensures class_word { in_class "class " "text { }"
        ≡ Some (codes "a name stands here, and this word is reserved: choose another one") }
    ensures test_word { in_class "test " "read { }"
        ≡ Some (codes "a name stands here, and this word is reserved: choose another one") }
    ensures static_word { in_class "static " "len = 1;"
        ≡ Some (codes "a name stands here, and this word is reserved: choose another one") }
    ensures field_word { in_class "field " "prop = 1;"
        ≡ Some (codes "a name stands here, and this word is reserved: choose another one") }
    ensures let_word { in_test "let " "file = 1;"
        ≡ Some (codes "a name stands here, and this word is reserved: choose another one") }
    ensures one_more { in_test "let x = i++" ";"
        ≡ Some (codes "`++` joins two texts: one more is `i + 1`") }
    ensures static_class { in_class "static " "class D { }"
        ≡ Some (codes "leave `static` out: write `class NAME { .. }`") }
    ensures static_void { in_class "static void " "open() { }"
        ≡ Some (codes "there are no methods: write `test NAME { .. }`") }
    ensures final_word { in_test "final " "int x = 1;"
        ≡ Some (codes "leave `final` out: write `let NAME = ..;`") }
    ensures const_word { in_test "const " "x = 1;" ≡ Some (codes "write `let NAME = ..;`") }
    ensures static_final { in_class "static final " "x = 1;" ≡ Some (codes "leave `final` out") }
    ensures field_final { in_class "field final " "x = 1;" ≡ Some (codes "leave `final` out") }
    ensures static_const { in_class "static const " "x = 1;" ≡ Some (codes "leave `const` out") }
    ensures field_const { in_class "field const " "x = 1;" ≡ Some (codes "leave `const` out") }
{}

/// Words before a member of other languages are left out, or have others in their place.
pub fn modifiers_are_told()
    ensures import_word { in_class "" "import x"
        ≡ Some (codes "there are no imports: leave it out") }
    ensures package_word { in_class "" "package x"
        ≡ Some (codes "a script has one team, and no packages") }
    ensures final_word { in_class "" "final x" ≡ Some (codes "leave `final` out") }
    ensures const_word { in_class "" "const x" ≡ Some (codes "write `static NAME = ..;`") }
    ensures protected_word { in_class "" "protected x"
        ≡ Some (codes "everything is public: leave `protected` out") }
    ensures pub_word { in_class "" "pub x" ≡ Some (codes "everything is public: leave `pub` out") }
    ensures export_word { in_class "" "export x"
        ≡ Some (codes "everything is public: leave `export` out") }
    ensures abstract_word { in_class "" "abstract x"
        ≡ Some (codes "a class extends no other: leave `abstract` out") }
    ensures interface_word { in_class "" "interface x"
        ≡ Some (codes "there are no interfaces: write `class NAME { .. }`") }
    ensures static_class_word { in_class "" "static class x"
        ≡ Some (codes "leave `static` out: write `class NAME { .. }`") }
    ensures before_word { in_class "" "before x"
        ≡ Some (codes "did you mean `before_each` or `before_all`?") }
    ensures after_word { in_class "" "after x"
        ≡ Some (codes "did you mean `after_each` or `after_all`?") }
    ensures setup_word { in_class "" "setup x"
        ≡ Some (codes "did you mean `before_each` or `before_all`?") }
    ensures teardown_word { in_class "" "teardown x"
        ≡ Some (codes "did you mean `after_each` or `after_all`?") }
    ensures ignore_word { in_class "" "ignore x"
        ≡ Some (codes "write `disabled \"REASON\"` before `test` or `class`") }
{}

/// A class has blocks, statics, fields, tests and classes, in this order.
pub fn members_are_told()
    ensures before_each { in_class "" "beforeEach { }"
        ≡ Some (codes "did you mean `before_each`?") }
    ensures before_all { in_class "" "beforeAll { }" ≡ Some (codes "did you mean `before_all`?") }
    ensures after_each { in_class "" "afterEach { }" ≡ Some (codes "did you mean `after_each`?") }
    ensures after_all { in_class "" "afterAll { }" ≡ Some (codes "did you mean `after_all`?") }
    ensures set_up { in_class "" "setUp { }" ≡ Some (codes "did you mean `before_each`?") }
    ensures tear_down { in_class "" "tearDown { }" ≡ Some (codes "did you mean `after_each`?") }
    ensures void { in_class "" "void adds() { }"
        ≡ Some (codes "there are no methods: write `test NAME { .. }`") }
    ensures fun { in_class "" "fun adds() { }"
        ≡ Some (codes "there are no methods: write `test NAME { .. }`") }
    ensures fn_word { in_class "" "fn adds() { }"
        ≡ Some (codes "there are no methods: write `test NAME { .. }`") }
    ensures def { in_class "" "def adds(self):"
        ≡ Some (codes "there are no methods: write `test NAME { .. }`") }
    ensures public_word { in_class "" "public void x() { }"
        ≡ Some (codes "everything is public: leave `public` out") }
    ensures private_word { in_class "" "private int x;"
        ≡ Some (codes "everything is public: leave `private` out") }
    ensures brace_let { in_class "" "let y = 1;"
        ≡ Some (codes "`let` stands in a body: write `static NAME = ..;` or `field NAME = ..;`") }
    ensures closed_let { in_class "before_all { }\n  " "let y = 1;"
        ≡ Some (codes "`let` stands in a body: write `static NAME = ..;` or `field NAME = ..;`") }
    ensures semicolon_let { in_class "static x = 1;\n  " "let y = 1;"
        ≡ Some (codes "`let` stands in a body: write `static NAME = ..;` or `field NAME = ..;`") }
    ensures var { in_class "" "var x = 1;"
        ≡ Some (codes "there are no types: write `static NAME = ..;` or `field NAME = ..;`") }
    ensures val { in_class "" "val x = 1"
        ≡ Some (codes "there are no types: write `static NAME = ..;` or `field NAME = ..;`") }
    ensures skip { in_class "" "skip test t { }"
        ≡ Some (codes "write `disabled \"REASON\"` before `test` or `class`") }
    ensures parallel { in_class "" "parallel test t { }"
        ≡ Some (codes "write `concurrent` before `test` or `class`") }
    ensures int { in_class "" "int x = 1;"
        ≡ Some (codes "there are no types and no methods: write `static NAME = ..;` or `test NAME { .. }`") }
    ensures string { in_class "" "String x;"
        ≡ Some (codes "there are no types and no methods: write `static NAME = ..;` or `test NAME { .. }`") }
    ensures boolean { in_class "" "boolean x;"
        ≡ Some (codes "there are no types and no methods: write `static NAME = ..;` or `test NAME { .. }`") }
    ensures bool_word { in_class "" "bool x;"
        ≡ Some (codes "there are no types and no methods: write `static NAME = ..;` or `test NAME { .. }`") }
    ensures long { in_class "" "long x;"
        ≡ Some (codes "there are no types and no methods: write `static NAME = ..;` or `test NAME { .. }`") }
    ensures double { in_class "" "double x;"
        ≡ Some (codes "there are no types and no methods: write `static NAME = ..;` or `test NAME { .. }`") }
{}

/// Heads, marks, statics and fields are written so.
pub fn heads_are_told()
    ensures test_quote { in_class "test " "\"adds\" { }"
        ≡ Some (codes "a test has a name before its text: `test NAME \"TEXT\" { .. }`") }
    ensures class_quote { in_class "class " "\"cart\" { }"
        ≡ Some (codes "a class has a name before its text: `class NAME \"TEXT\" { .. }`") }
    ensures isolated_test { in_class "isolated " "test t { }"
        ≡ Some (codes "`isolated` is a mark of classes: write it before `class`") }
    ensures read_children_test { in_class "read children \"a\" " "test t { }"
        ≡ Some (codes "`read children` is a mark of classes: write it before `class`") }
    ensures write_children_test { in_class "write children \"a\" " "test t { }"
        ≡ Some (codes "`write children` is a mark of classes: write it before `class`") }
    ensures disabled_test { in_class "disabled " "test t { }"
        ≡ Some (codes "`disabled` says why: write `disabled \"REASON\"`") }
    ensures disabled_class { in_class "disabled " "class D { }"
        ≡ Some (codes "`disabled` says why: write `disabled \"REASON\"`") }
    ensures read_file { in_class "read " "file \"a\""
        ≡ Some (codes "the key of a file is a text: write `read \"file:PATH\"`") }
    ensures write_file { in_class "write " "file \"a\""
        ≡ Some (codes "the key of a file is a text: write `write \"file:PATH\"`") }
    ensures one_more_equals_null { in_class "static x = " "null;"
        ≡ Some (codes "there is no `null`: write a text or a number") }
    ensures one_more_equals_none { in_class "static x = " "None;"
        ≡ Some (codes "there is no `None`: write a text or a number") }
    ensures one_more_equals_true { in_class "static x = " "True;"
        ≡ Some (codes "did you mean `true`?") }
    ensures one_more_equals_false { in_class "static x = " "False;"
        ≡ Some (codes "did you mean `false`?") }
    ensures static_word { in_class "static int " "x = 1;"
        ≡ Some (codes "write `static NAME = ..;` with a number, a text, `true` or `false`") }
    ensures field_word { in_class "field x = " "y;"
        ≡ Some (codes "write `field NAME = ..;` with a number, a text, `true` or `false`") }
    ensures operator_of_a_static { in_class "static x = 1 " "+ 2;"
        ≡ Some (codes "write `static NAME = ..;` with a number, a text, `true` or `false`") }
    ensures extends { in_class "class D " "extends C { }"
        ≡ Some (codes "a class extends no other") }
    ensures implements { in_class "class D " "implements C { }"
        ≡ Some (codes "a class implements nothing: leave it out") }
    ensures throws { in_class "test t " "throws E { }" ≡ Some (codes "leave `throws` out") }
    ensures read_system_properties { in_class "read " "SYSTEM_PROPERTIES"
        ≡ Some (codes "the key of the properties is `\"java.lang.System.properties\"`") }
    ensures write_system_properties { in_class "write " "SYSTEM_PROPERTIES"
        ≡ Some (codes "the key of the properties is `\"java.lang.System.properties\"`") }
    ensures read_minus { in_class "read" "-write \"a\""
        ≡ Some (codes "write `write \"KEY\"`, which is for reading too") }
    ensures read_write_word { in_class "" "read_write \"a\""
        ≡ Some (codes "write `write \"KEY\"`, which is for reading too") }
    ensures read_write_constant { in_class "" "READ_WRITE"
        ≡ Some (codes "write `write \"KEY\"`, which is for reading too") }
{}

/// There are `if` and `repeat`.
pub fn control_are_told()
    ensures else_if { in_test "if a { } else " "if b { }"
        ≡ Some (codes "write `else { if a { .. } }`") }
    ensures elif { in_test "if a { } elif " "b { }" ≡ Some (codes "write `else { if a { .. } }`") }
    ensures for_word { in_test "for " "i in 0..3 { }"
        ≡ Some (codes "there is no `for`: write `repeat N { .. }`") }
    ensures while_word { in_test "while " "a { }"
        ≡ Some (codes "there is no `while`: write `repeat N { .. }`") }
    ensures loop_word { in_test "loop " "{ }"
        ≡ Some (codes "there is no `loop`: write `repeat N { .. }`") }
    ensures do_word { in_test "do " "{ }"
        ≡ Some (codes "there is no `do`: write `repeat N { .. }`") }
    ensures repeat_times { in_test "repeat 3 " "times { }"
        ≡ Some (codes "write `repeat N { .. }`") }
    ensures switch { in_test "switch " "(a) { }"
        ≡ Some (codes "there is no `switch`: write `if a { .. } else { .. }`") }
    ensures when { in_test "when " "(a) { }"
        ≡ Some (codes "there is no `when`: write `if a { .. } else { .. }`") }
    ensures match_word { in_test "match " "a { }"
        ≡ Some (codes "there is no `match`: write `if a { .. } else { .. }`") }
    ensures return_word { in_test "return" ";"
        ≡ Some (codes "there is no `return`: a block ends at its last statement") }
    ensures break_word { in_test "break" ";"
        ≡ Some (codes "there is no `break`: write `if` in the `repeat`") }
    ensures continue_word { in_test "continue" ";"
        ≡ Some (codes "there is no `continue`: write `if` in the `repeat`") }
    ensures throw { in_test "throw " "new Exception();" ≡ Some (codes "write `fail \"TEXT\";`") }
    ensures raise { in_test "raise " "ValueError();" ≡ Some (codes "write `fail \"TEXT\";`") }
    ensures panic { in_test "panic" "!(\"x\");" ≡ Some (codes "write `fail \"TEXT\";`") }
    ensures new { in_test "new " "Cart();" ≡ Some (codes "there are no objects") }
    ensures f_quote { in_test "print f" "\"{x}\";"
        ≡ Some (codes "names don't stand in texts: join texts by `++`") }
    ensures try_word { in_test "try " "{ }"
        ≡ Some (codes "there is no `try`: a block ends at its first fault") }
    ensures var { in_test "var " "x = 1;"
        ≡ Some (codes "there are no types: write `let NAME = ..;`") }
    ensures val { in_test "val " "x = 1;"
        ≡ Some (codes "there are no types: write `let NAME = ..;`") }
    ensures int { in_test "int " "x = 1;"
        ≡ Some (codes "there are no types: write `let NAME = ..;`") }
    ensures string { in_test "String " "x = \"\";"
        ≡ Some (codes "there are no types: write `let NAME = ..;`") }
    ensures boolean { in_test "boolean " "x = true;"
        ≡ Some (codes "there are no types: write `let NAME = ..;`") }
    ensures mut_word { in_test "let mut " "x = 1;"
        ≡ Some (codes "every name can be given another value: leave `mut` out") }
    ensures bool_word { in_test "bool " "x = 1;"
        ≡ Some (codes "there are no types: write `let NAME = ..;`") }
    ensures long { in_test "long " "x = 1;"
        ≡ Some (codes "there are no types: write `let NAME = ..;`") }
    ensures double { in_test "double " "x = 1;"
        ≡ Some (codes "there are no types: write `let NAME = ..;`") }
    ensures if_brace { in_test "if " "{ }" ≡ Some (codes "write `if a { .. }`") }
    ensures repeat_brace { in_test "repeat " "{ }" ≡ Some (codes "write `repeat N { .. }`") }
{}

/// Names of statements of other languages have others in their place, or none.
pub fn statements_are_told()
    ensures get_prop_word { in_test "get_prop" "(a);"
        ≡ Some (codes "write `prop(..)` in an expression") }
    ensures get_prop_in_camel_case { in_test "getProp" "(a);"
        ≡ Some (codes "write `prop(..)` in an expression") }
    ensures unset_prop_word { in_test "unset_prop" "(a);" ≡ Some (codes "write `clear_prop a;`") }
    ensures remove_prop_word { in_test "remove_prop" "(a);" ≡ Some (codes "write `clear_prop a;`") }
    ensures delete_word { in_test "delete" "(a);" ≡ Some (codes "write `delete_file a;`") }
    ensures remove_file_word { in_test "remove_file" "(a);"
        ≡ Some (codes "write `delete_file a;`") }
    ensures read_file_word { in_test "read_file" "(a);"
        ≡ Some (codes "write `file(..)` in an expression") }
    ensures read_file_in_camel_case { in_test "readFile" "(a);"
        ≡ Some (codes "write `file(..)` in an expression") }
    ensures assert_not_equal_word { in_test "assert_not_equal" "(a);"
        ≡ Some (codes "write `assert a != b;`") }
    ensures assert_not_same_in_camel_case { in_test "assertNotSame" "(a);"
        ≡ Some (codes "write `assert a != b;`") }
    ensures assert_same_in_camel_case { in_test "assertSame" "(a);"
        ≡ Some (codes "write `assert_equal a, b;` without parentheses") }
    ensures assert_throws_in_camel_case { in_test "assertThrows" "(a);"
        ≡ Some (codes "no fault is caught: assert what can be seen, such as `has_file(..) == false`") }
    ensures assert_does_not_throw_in_camel_case { in_test "assertDoesNotThrow" "(a);"
        ≡ Some (codes "leave it out: a test ends at its first fault") }
    ensures assert_null_in_camel_case { in_test "assertNull" "(a);"
        ≡ Some (codes "there is no `null`: write `assert has_prop(..);` or `assert has_file(..);`") }
    ensures assert_not_null_in_camel_case { in_test "assertNotNull" "(a);"
        ≡ Some (codes "there is no `null`: write `assert has_prop(..);` or `assert has_file(..);`") }
    ensures assert_all_in_camel_case { in_test "assertAll" "(a);"
        ≡ Some (codes "write one `assert` after another") }
    ensures expect_word { in_test "expect" "(a);"
        ≡ Some (codes "write `assert a;` or `assert_equal a, b;`") }
    ensures sleep_word { in_test "sleep" "(a);" ≡ Some (codes "there is no `sleep`: leave it out") }
    ensures pass_word { in_test "pass" "(a);"
        ≡ Some (codes "there is no `pass`: a body may be empty") }
    ensures elseif_word { in_test "elseif" "(a);" ≡ Some (codes "write `else { if a { .. } }`") }
    ensures elsif_word { in_test "elsif" "(a);" ≡ Some (codes "write `else { if a { .. } }`") }
    ensures unless_word { in_test "unless" "(a);"
        ≡ Some (codes "there is no `unless`: write `if a == false { .. }`") }
    ensures echo_word { in_test "echo" "(a);" ≡ Some (codes "did you mean `print`?") }
    ensures puts_word { in_test "puts" "(a);" ≡ Some (codes "did you mean `print`?") }
{}

/// Assertions are statements, and functions few.
pub fn calls_are_told()
    ensures assert_equals { in_test "assertEquals" "(1, 2);"
        ≡ Some (codes "write `assert_equal a, b;` without parentheses") }
    ensures assert_eq { in_test "assert_eq " "1, 2;"
        ≡ Some (codes "write `assert_equal a, b;` without parentheses") }
    ensures assert_equal { in_test "assertEqual" "(1, 2)"
        ≡ Some (codes "write `assert_equal a, b;` without parentheses") }
    ensures assert_not_equals { in_test "assertNotEquals" "(1, 2);"
        ≡ Some (codes "write `assert a != b;`") }
    ensures assert_true { in_test "assertTrue" "(a);" ≡ Some (codes "write `assert a;`") }
    ensures assert_false { in_test "assertFalse" "(a);"
        ≡ Some (codes "write `assert a == false;`") }
    ensures assert_that { in_test "assertThat" "(a).isTrue();"
        ≡ Some (codes "write `assert a;` or `assert_equal a, b;`") }
    ensures assume_true { in_test "assumeTrue" "(a);"
        ≡ Some (codes "write `assume a, \"REASON\";`") }
    ensures assume_false { in_test "assumeFalse" "(a);"
        ≡ Some (codes "write `assume a == false, \"REASON\";`") }
    ensures println { in_test "println" "(\"x\");" ≡ Some (codes "did you mean `print`?") }
    ensures not { in_test "assert not " "a;"
        ≡ Some (codes "there is no `not`: write `a == false`") }
    ensures unequal { in_test "let x " "!= 1;" ≡ Some (codes "`!=` stands between two operands") }
    ensures bang { in_test "assert " "!a;" ≡ Some (codes "there is no `!`: write `a == false`") }
    ensures and { in_test "assert a " "and b;"
        ≡ Some (codes "there is no `and`: write an `if` in an `if`, or two statements") }
    ensures or { in_test "assert a " "or b;"
        ≡ Some (codes "there is no `or`: write `if a { .. } else { .. }`") }
    ensures is_word { in_test "assert a " "is b;" ≡ Some (codes "write `a == b`") }
    ensures text { in_test "print text " "a;" ≡ Some (codes "write `text(..)`") }
    ensures len { in_test "print len " "a;" ≡ Some (codes "write `len(..)`") }
    ensures prop { in_test "print prop " "\"a\";" ≡ Some (codes "write `prop(..)`") }
    ensures has_prop { in_test "print has_prop " "\"a\";" ≡ Some (codes "write `has_prop(..)`") }
    ensures file { in_test "print file " "\"a\";" ≡ Some (codes "write `file(..)`") }
    ensures has_file { in_test "print has_file " "\"a\";" ≡ Some (codes "write `has_file(..)`") }
    ensures locale { in_test "print locale" ";" ≡ Some (codes "write `locale()`") }
    ensures fail { in_test "fail" "(\"x\");"
        ≡ Some (codes "`fail` takes a text alone: write `fail \"TEXT\";`") }
    ensures numeral { in_test "let x = " "1_000;"
        ≡ Some (codes "a number has digits alone, and a name begins with a letter") }
{}

/// What else doesn't fit is told how it is written.
pub fn forms_are_told()
    ensures let_word { form_in_test "let x " "y;" ≡ Some (codes "write `let NAME = ..;`") }
    ensures assert_equal { form_in_test "assert_equal 1 " "2;"
        ≡ Some (codes "write `assert_equal a, b;`") }
    ensures assume { form_in_test "assume a, " "b;" ≡ Some (codes "write `assume a, \"REASON\";`") }
    ensures set_prop { form_in_test "set_prop \"a\" " "\"b\";"
        ≡ Some (codes "write `set_prop a, b;`") }
    ensures write_file { form_in_test "write_file \"a\" " "\"b\";"
        ≡ Some (codes "write `write_file a, b;`") }
    ensures append_file { form_in_test "append_file \"a\" " "\"b\";"
        ≡ Some (codes "write `append_file a, b;`") }
    ensures if_word { form_in_test "if (a) " "print 1;"
        ≡ Some (codes "write `if a { .. }` or `if a { .. } else { .. }`") }
    ensures else_word { form_in_test "if a { } else " "print 1;"
        ≡ Some (codes "write `else { .. }`") }
    ensures repeat { form_in_test "repeat 3 " "print 1;" ≡ Some (codes "write `repeat N { .. }`") }
    ensures test_word { form_in_class "test t " "u { }" ≡ Some (codes "write `test NAME { .. }`") }
    ensures class_word { form_in_class "class D " "E { }"
        ≡ Some (codes "write `class NAME { .. }`") }
{}

/// Comments are passed over, and what a text has ends no statement.
pub fn comments_are_passed_over()
    ensures above { in_test "// three; of them\n    assert_equal(21" ", total);"
        ≡ Some (codes "`assert_equal` has no parentheses: write `assert_equal a, b;`") }
    ensures behind { in_test "print \"a\"; // one { }\n    print b" ", c;"
        ≡ Some (codes "`print` takes one expression: join texts by `++`") }
    ensures before { in_test "assert a == // b\n    " "= c;" ≡ Some (codes "did you mean `==`?") }
    ensures at_the_beginning { in_script "// licence\n" "class Cart { }"
        ≡ Some (codes "a script begins with `team NAME`") }
    ensures in_a_text { in_test "assert_equal(\"a; // \\\"{ } \"" ", 1);"
        ≡ Some (codes "`assert_equal` has no parentheses: write `assert_equal a, b;`") }
    ensures behind_the_team { in_script "team shop // ours\n" ";"
        ≡ Some (codes "no `;` stands behind the name of a team") }
    ensures first_class { in_script "team shop\nclass Cart \"x\" " ";" ≡ None }
{}

/// Nothing is told of what no row fits.
pub fn other_places_have_no_hint()
    ensures no_operand { in_test "print " ";" ≡ None }
    ensures a_token_that_fits { in_class "" "before_each { }" ≡ None }
    ensures longer_word { in_class "" "beforeEachOther { }" ≡ None }
    ensures word_before_is_longer { in_test "x_else " "if a { }" ≡ None }
    ensures one_operator { in_test "print 1 " "+ 2;" ≡ None }
    ensures operator_without_operand { in_test "print 1 + " "* 2;" ≡ None }
    ensures assignment { in_test "x " "= 1;" ≡ None }
    ensures ended { in_test "print 1;\n    " "x" ≡ None }
    ensures comment { in_test "print 1 // one\n    " "print 2;" ≡ None }
    ensures same_line { in_test "print 1 " "print 2;" ≡ None }
    ensures unknown { in_class "" "gibberish { }" ≡ None }
    ensures behind_the_end { in_test "print 1;" "" ≡ None }
{}
