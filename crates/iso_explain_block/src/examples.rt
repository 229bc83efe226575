//! Worked examples of hints, as public laws.
ghost use Rattle.std.specs.Prelude.{◌≡◌, ◌∷◌, [], codes};
ghost use Rattle.iso_explain_block.specs.BlockFaults.{hints};
ghost use Rattle.iso_explain_block.specs.Examples.{in_before_all, in_test, lines_of, number, sum_of, words, x};
ghost use Rattle.iso_model.specs.Syntax.{act, assert_equal, choice, let_name, no_acts, plain, print, set_prop, write_file};
ghost use Rattle.iso_model.specs.declared.fault.FaultKind.TheVariants as K;

/// Of a value of another kind it is told what the operation takes, and the kinds that are shown.
pub fn kinds_that_are_shown_are_told()
    ensures both { hints (in_test K.WrongKind "wrong kind" 2
        (act 2 (plain (assert_equal (number 6) (sum_of (words "a") (number 1)))) no_acts))
        ≡ lines_of ("+ adds two whole numbers; ++ joins two texts: left is a text, right a whole number" ∷ []) }
    ensures one { hints (in_test K.WrongKind "wrong kind" 2
        (act 2 (plain (print (sum_of (x "price") (number 1)))) no_acts))
        ≡ lines_of ("+ adds two whole numbers; ++ joins two texts: right is a whole number" ∷ []) }
    ensures none { hints (in_test K.WrongKind "wrong kind" 2
        (act 2 (plain (assert_equal (x "a") (x "b"))) no_acts))
        ≡ lines_of ("assert_equal compares two values of one kind" ∷ []) }
{}

/// Of several operations that may be meant each is told once, also in bodies, and none of other
/// rows.
pub fn operations_of_the_row_are_told()
    ensures { hints (in_test K.WrongKind "wrong kind" 2
        (act 1 (plain (assert_equal (x "a") (x "b")))
        (act 2 (choice (x "c") (act 2 (plain (print (sum_of (x "a") (sum_of (x "b") (x "b")))))
        no_acts) no_acts) no_acts)))
        ≡ lines_of
        ("if takes a truth value, as == and < give it"
        ∷ "+ adds two whole numbers; ++ joins two texts"
        ∷ "+ adds two whole numbers; ++ joins two texts: right is a whole number"
        ∷ []) }
{}

/// The missing mark is told with the class or test before which it is written.
pub fn missing_marks_are_told()
    ensures in_test { hints (in_test K.Undeclared "undeclared READ of file:/a" 1 no_acts)
        ≡ lines_of ("add read \"file:/a\" before test adds, or before a class around it" ∷ []) }
    ensures in_class { hints
        (in_before_all K.Undeclared "undeclared READ_WRITE of java.util.Locale.default" no_acts)
        ≡ lines_of ("add write \"java.util.Locale.default\" before class shop.Cart" ∷ []) }
    ensures quoted { hints (in_test K.Undeclared "undeclared READ of file:a\"" 1 no_acts)
        ≡ lines_of ("declare the key with read before test adds, or before a class around it"
        ∷ []) }
{}

/// Of a name that isn't visible the nearest one that is, and which are.
pub fn names_that_were_meant_are_told()
    ensures of_class { hints (in_test K.UnknownName "unknown name prise" 1 no_acts)
        ≡ lines_of
        ("did you mean `price`?"
        ∷ "a block sees names let before, and statics and fields of its class and those around it"
        ∷ []) }
    ensures of_let { hints (in_test K.UnknownName "unknown name totl" 2
        (act 1 (plain (let_name (codes "total") (number 1)))
        (act 2 (plain (print (x "totl"))) no_acts)))
        ≡ lines_of
        ("did you mean `total`?"
        ∷ "a block sees names let before, and statics and fields of its class and those around it"
        ∷ []) }
    ensures unseen { hints (in_before_all K.UnknownName "unknown name count" no_acts)
        ≡ lines_of
        ("count is a field: tests, before_each and after_each see fields"
        ∷ "before_all and after_all see names let before, and statics of their class and those around it"
        ∷ []) }
{}

/// Of a property or a file that is missing the nearest one that a block gives, if it isn't given
/// itself, and what gives one.
pub fn what_is_missing_is_told()
    ensures property { hints (in_test K.Missing "missing property curency" 2
        (act 1 (plain (set_prop (words "currency") (words "EUR"))) no_acts))
        ≡ lines_of
        ("did you mean `currency`?"
        ∷ "set_prop gives a property a value, and [properties] of a world from the start"
        ∷ "what a test changes is taken back after it; before_all makes it for each test of its class"
        ∷ "has_prop tells whether a property is there"
        ∷ []) }
    ensures file { hints (in_before_all K.Missing "missing file /tmp/lst"
        (act 1 (choice (x "made")
        (act 2 (plain (write_file (words "/tmp/list") (words ""))) no_acts) no_acts)
        no_acts))
        ≡ lines_of
        ("did you mean `/tmp/list`?"
        ∷ "write_file makes a file, and [files] of a world from the start"
        ∷ "what a test changes is taken back after it; before_all makes it for each test of its class"
        ∷ "has_file tells whether a file is there"
        ∷ []) }
    ensures given_elsewhere { hints (in_test K.Missing "missing property mode" 1
        (act 1 (plain (set_prop (words "mode") (words "fast")))
        (act 2 (plain (set_prop (words "model") (words "T"))) no_acts)))
        ≡ lines_of
        ("set_prop gives a property a value, and [properties] of a world from the start"
        ∷ "what a test changes is taken back after it; before_all makes it for each test of its class"
        ∷ "has_prop tells whether a property is there"
        ∷ []) }
{}

/// A limit is told with its figure, and a rule.
pub fn limits_are_told()
    ensures steps { hints (in_test K.OutOfSteps "out of steps" 3 no_acts)
        ≡ lines_of ("a block takes at most 10000 steps: a statement is one, and so is each turn of a repeat" ∷ []) }
    ensures frozen { hints (in_test K.Frozen "price is frozen" 3 no_acts)
        ≡ lines_of
        ("a static takes another value in before_all of its own class alone"
        ∷ "a field takes one in tests, before_each and after_each, and each test has its own"
        ∷ []) }
    ensures file { hints (in_test K.Missing "missing file /a" 3 no_acts)
        ≡ lines_of
        ("write_file makes a file, and [files] of a world from the start"
        ∷ "what a test changes is taken back after it; before_all makes it for each test of its class"
        ∷ "has_file tells whether a file is there"
        ∷ []) }
{}
