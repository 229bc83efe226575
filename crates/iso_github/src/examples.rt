//! Worked examples of the definitions, as public laws.
ghost use Rattle.std.specs.Prelude.{◌≡◌, ◌++◌, ◌∷◌, [], None, Some, codes};
ghost use Rattle.iso_failures.specs.Examples.{till_in_cart};
ghost use Rattle.iso_github.specs.Commands.{error_line, in_message, in_property, refusal_line};
ghost use Rattle.iso_github.specs.Errors.{errors_text};
ghost use Rattle.iso_github.specs.Examples.{outcome_of, places, text_of};
ghost use Rattle.iso_github.specs.Readers.{message_of, property_of};

/// A percent sign and the ends of lines are escaped, in properties colons and commas too, and all
/// else stands as it is.
pub fn texts_are_escaped()
    ensures message { in_message (codes "50%: a,b\nc" ++ 13 ∷ []) ≡ codes "50%25: a,b%0Ac%0D" }
    ensures property { in_property (codes "50%: a,b\nc" ++ 13 ∷ [])
        ≡ codes "50%25%3A a%2Cb%0Ac%0D" }
    ensures as_they_are { in_property (codes "my \"cart\"/x;y.jtap" ++ 195 ∷ 164 ∷ [])
        ≡ codes "my \"cart\"/x;y.jtap" ++ 195 ∷ 164 ∷ [] }
    ensures again { in_message (codes "%0A") ≡ codes "%250A" }
{}

/// What isn't escaped is refused, and so are digits that stand for nothing.
pub fn what_is_not_escaped_is_refused()
    ensures line_feed { message_of (codes "a\nb") ≡ None }
    ensures comma { property_of (codes "a,b") ≡ None }
    ensures colon { property_of (codes "a:b") ≡ None }
    ensures percent { message_of (codes "50%") ≡ None }
    ensures unknown { message_of (codes "50%zz") ≡ None }
    ensures read { message_of (codes "a:b,%0A%25") ≡ Some (codes "a:b,\n%") }
{}

/// The error of a failed test.
pub fn failed_test_is_an_error()
    ensures { error_line (codes "a,b/cart.jtap") 12 (codes "shop.Cart.adds")
        (codes "expected: <6> but was: <5>")
        ≡ codes "::error file=a%2Cb/cart.jtap,line=12,title=shop.Cart.adds::expected: <6> but was: <5>\n" }
{}

/// The error of a script that is refused.
pub fn refused_script_is_an_error()
    ensures { refusal_line (codes "cart.jtap") 3 7 (codes "BadToken")
        ≡ codes "::error file=cart.jtap,line=3,col=7,title=jtap::BadToken\n" }
{}

/// Tests and classes that failed by themselves are told in their order, and none that is blocked,
/// was skipped or passed.
pub fn failures_are_told_in_their_order()
    ensures told { errors_text till_in_cart outcome_of places
        ≡ text_of
        ("::error file=cart.jtap,line=9,title=shop.Cart::still open"
        ∷ "::error file=cart.jtap,line=5,title=shop.Cart.Till::n is frozen"
        ∷ "::error file=cart.jtap,line=11,title=shop.Cart.d::expected: <6> but was: <5>, 50%25 of 10"
        ∷ []) }
    ensures none { errors_text [] outcome_of places ≡ [] }
{}
