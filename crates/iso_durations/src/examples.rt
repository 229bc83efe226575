//! Worked examples of the definitions, as public laws.
ghost use Rattle.std.specs.Prelude.{◌≡◌, ◌∷◌, [], codes};
ghost use Rattle.iso_durations.specs.Durations.{durations_text};
ghost use Rattle.iso_durations.specs.Examples.{cart_times, lines, long_times, short_times};
ghost use Rattle.iso_durations.specs.Lines.{counted};
ghost use Rattle.iso_durations.specs.Listed.{listed};
ghost use Rattle.iso_durations.specs.Orders.{slowest_first};
ghost use Rattle.iso_durations.specs.Seconds.{seconds};
ghost use Rattle.iso_durations.specs.Tallies.{tally};
ghost use Rattle.iso_durations.specs.Times.{measured};
ghost use Rattle.iso_plan.specs.Examples.{cart_and_desk};

/// The slowest stand first, and those that took as long in the order in which they are written, be
/// they tests or classes.
pub fn equal_times_stand_in_written_order()
    ensures run { listed cart_and_desk cart_times 0 ≡ 2 ∷ 1 ∷ 5 ∷ 3 ∷ [] }
    ensures equal { slowest_first (λ n. 7) (1 ∷ 2 ∷ 3 ∷ []) ≡ 1 ∷ 2 ∷ 3 ∷ [] }
    ensures rising { slowest_first (λ n. n) (1 ∷ 2 ∷ 3 ∷ []) ≡ 3 ∷ 2 ∷ 1 ∷ [] }
{}

/// 0 lists all, as a number does that is larger than there are; another one lists that number of
/// the first.
pub fn zero_lists_all()
    ensures zero { listed cart_and_desk cart_times 0 ≡ 2 ∷ 1 ∷ 5 ∷ 3 ∷ [] }
    ensures more { listed cart_and_desk cart_times 9 ≡ 2 ∷ 1 ∷ 5 ∷ 3 ∷ [] }
    ensures some { listed cart_and_desk cart_times 2 ≡ 2 ∷ 1 ∷ [] }
    ensures one { listed cart_and_desk cart_times 1 ≡ 2 ∷ [] }
{}

/// A class without blocks of its own, a test that didn't run and the root are left out; what took
/// less than a microsecond isn't.
pub fn nodes_without_a_time_are_left_out()
    ensures run { measured cart_and_desk cart_times ≡ 1 ∷ 2 ∷ 3 ∷ 5 ∷ [] }
    ensures short { measured cart_and_desk short_times ≡ 2 ∷ [] }
    ensures none { measured cart_and_desk [] ≡ [] }
{}

/// Tests and classes are counted apart, and the times of all are added up, listed or not.
pub fn all_bodies_are_added_up()
    ensures run { tally cart_and_desk cart_times (1 ∷ 2 ∷ 3 ∷ 5 ∷ []) ≡ record {
      tests = 3;
      classes = 1;
      micros = 1500640;
    } }
    ensures greatest { tally cart_and_desk long_times (2 ∷ 3 ∷ []) ≡ record {
      tests = 2;
      classes = 0;
      micros = 18446744073709551615;
    } }
{}

/// Times have six decimals.
pub fn times_have_six_decimals()
    ensures zero { seconds 0 ≡ codes "0.000000" }
    ensures short { seconds 310 ≡ codes "0.000310" }
    ensures long { seconds 61002030 ≡ codes "61.002030" }
{}

/// One test has its own word, and so has one class.
pub fn one_has_its_own_word()
    ensures one { counted 1 (codes " test") (codes " tests") ≡ codes "1 test" }
    ensures none { counted 0 (codes " class") (codes " classes") ≡ codes "0 classes" }
    ensures many { counted 31 (codes " class") (codes " classes") ≡ codes "31 classes" }
{}

/// The first line tells of all that were measured, the others of the slowest of them.
pub fn text_tells_of_the_slowest()
    ensures { durations_text cart_and_desk cart_times 2
        ≡ lines
        ("slowest 2 of 3 tests and 1 class; all bodies 1.500640 s"
        ∷ "1.500000 s  shop.Cart.a"
        ∷ "0.000310 s  shop.Cart"
        ∷ []) }
{}

/// Of all each has its line.
pub fn text_tells_of_all()
    ensures { durations_text cart_and_desk cart_times 0
        ≡ lines
        ("slowest 4 of 3 tests and 1 class; all bodies 1.500640 s"
        ∷ "1.500000 s  shop.Cart.a"
        ∷ "0.000310 s  shop.Cart"
        ∷ "0.000310 s  shop.Desk.c"
        ∷ "0.000020 s  shop.Cart.b"
        ∷ []) }
{}

/// Where nothing was measured there is the first line alone.
pub fn text_of_nothing_is_a_line()
    ensures { durations_text cart_and_desk [] 10
        ≡ lines ("slowest 0 of 0 tests and 0 classes; all bodies 0.000000 s" ∷ []) }
{}
