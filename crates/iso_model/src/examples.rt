//! Worked examples of the definitions, as public laws.

ghost use Rattle.std.specs.Prelude.{◌≡◌, ◌-◌, [], ◌∷◌, Ok, Err, codes, map, replicate, true, false, pos, negsuc};
ghost use Rattle.iso_model.specs.Alone.{after_all, test_alone, class_alone};
ghost use Rattle.iso_model.specs.Chains.{empty_head};
ghost use Rattle.iso_model.specs.ResourceKeys.{properties_key};
ghost use Rattle.iso_model.specs.Openings.{opening};
ghost use Rattle.iso_model.specs.Resources.{empty_world};
ghost use Rattle.iso_model.specs.Steps.{is_done};
ghost use Rattle.iso_model.specs.Syntax.{act, locale, no_acts, repeat};
ghost use Rattle.iso_model.specs.Targets.{effective};
ghost use Rattle.iso_model.specs.Tests.{test};
ghost use Rattle.iso_model.specs.Texts.{place_text};
ghost use Rattle.iso_model.specs.declared.access.Access.TheVariants.{Read};
ghost use Rattle.iso_model.specs.declared.data.Data.TheVariants.{Flag, Text, Whole};
ghost use Rattle.iso_model.specs.declared.fault.Fault.TheVariants as F;
ghost use Rattle.iso_model.specs.declared.fault.FaultKind.TheVariants as K;
ghost use Rattle.iso_model.specs.declared.outcome.Ending.TheVariants.{Assumed, Fail, Fault, Well};
ghost use Rattle.iso_model.specs.declared.place.Lifecycle.TheVariants.{BeforeAll, AfterAll, BeforeEach, AfterEach};
ghost use Rattle.iso_model.specs.declared.place.Place.TheVariants.{Disabled};
ghost use Rattle.iso_model.specs.Examples.Words.{quoted, number, minus, flag, name, add, subtract, multiply, join, equal, not_equal, less, text, len, prop, has_prop, file, has_file};
ghost use Rattle.iso_model.specs.Examples.Words.{body, for_children, reads, on_row, let_name, assign, print, assert, assert_equal, assume, fail, if_then, if_else, set_prop, clear_prop, set_locale, append_file, write_file, delete_file, repeats, repeats_twice, takes_name_twice, long, writes, file_a};
ghost use Rattle.iso_model.specs.Examples.Words.{property_a_is_1, values_of, endings_of, endings_crowded, endings_without_steps, block_with, beside_a_long_file, by_itself, ending_on_row_3, by_single_steps, steps_left};
ghost use Rattle.iso_model.specs.Examples.Words.{in_test, in_class, note, lines, passed, failed, faulted, skipped, blocked, fault_here};
ghost use Rattle.iso_model.specs.Examples.Resources.{sets_x_first, sets_y, expects_x, marks_locale, marks_locale_inside, prints_all, closes_file, fails_with_a_file};
ghost use Rattle.iso_model.specs.Examples.Resources.{changes_b, sets_2, writes_properties, sets_1, reads_and_sets_1, prints_a, reads_and_prints_a, reads_properties, looks_around, clears_a, writes_and_deletes, prints_locale};
ghost use Rattle.iso_model.specs.Examples.Lifecycles.{outer, inner, prints_t, no_database, does_nothing, opens_inside, assumes_before_each, fails_before_each};
ghost use Rattle.iso_model.specs.Examples.Lifecycles.{assumes_false, assumes_twice, disabled_class, disabled_test, fails_late, assumes_false_first};
ghost use Rattle.iso_model.specs.Examples.Names.{counts_up, prints_n, sets_static, has_static, assigns_n, declares_n, assigns_static_before_each, assigns_outer_static};
ghost use Rattle.iso_model.specs.Examples.Names.{assigns_inner_field, has_field, prints_field_first};

/// A test sees what `before_all` left, and nothing that another test changed.
#[tactic(auto, using(crate::proofs::ExampleLemmas::properties))]
pub fn tests_start_alike()
    ensures one { test_alone sets_y (sets_x_first ∷ []) property_a_is_1 ≡ passed [] }
    ensures two { test_alone expects_x (sets_x_first ∷ []) property_a_is_1 ≡ passed [] }
    ensures class { class_alone sets_x_first [] property_a_is_1 ≡ passed [] }
{}

/// The blocks of a test see the resources as the earlier ones left them, and the statics and fields
/// of all enclosing classes. A local ends with its block.
#[tactic(auto, using(crate::proofs::ExampleLemmas::numerals))]
pub fn blocks_go_on_from_one_another()
    ensures { test_alone prints_all (marks_locale_inside ∷ marks_locale ∷ []) empty_world
        ≡ faulted K.UnknownName "unknown name x" (in_test 1) ("325en-A-a-B-b" ∷ []) }
{}

/// `after_all` has the rights of its own class, goes on from what `before_all` left, assigns no
/// static, and has its whole output before it.
#[tactic(auto, using(crate::proofs::ExampleLemmas::numerals))]
pub fn after_all_goes_on_from_before_all()
    ensures class { class_alone closes_file (marks_locale ∷ []) empty_world
        ≡ faulted K.Frozen "n is frozen" (in_class 2 AfterAll) ("in" ∷ "mn23" ∷ []) }
    ensures bytes { let opened = opening (closes_file ∷ marks_locale ∷ []) empty_world in
        (after_all closes_file (marks_locale ∷ []) opened).here.env.printed ≡ 5 }
    ensures failed { class_alone fails_with_a_file [] empty_world
        ≡ failed "no db" (in_class 1 BeforeAll) ("m" ∷ []) }
{}

/// A test has the rights of its own marks and of those of all enclosing classes.
/// Where several name one key, the stronger counts.
#[tactic(auto, using(crate::proofs::ExampleLemmas::properties))]
pub fn marks_of_the_whole_chain_count()
    ensures own { test_alone sets_2 (empty_head ∷ []) property_a_is_1 ≡ passed [] }
    ensures enclosing { test_alone sets_1 (empty_head ∷ writes_properties ∷ []) empty_world
        ≡ passed [] }
    ensures stronger { test_alone reads_and_sets_1 (empty_head ∷ writes_properties ∷ []) empty_world
        ≡ passed [] }
    ensures around { test_alone reads_and_prints_a (looks_around ∷ []) property_a_is_1
        ≡ passed ("true" ∷ "1" ∷ "true" ∷ []) }
    ensures stronger_inside { test_alone sets_2 (reads_properties ∷ []) property_a_is_1
        ≡ passed [] }
{}

/// Without a mark nothing may be looked at, and a `read` lets nothing be changed.
pub fn undeclared_access_is_a_fault()
    ensures look { test_alone prints_a (empty_head ∷ []) empty_world
        ≡ faulted K.Undeclared "undeclared READ of java.lang.System.properties" (in_test 1) [] }
    ensures change { test_alone sets_1 (reads_properties ∷ []) empty_world
        ≡ faulted K.Undeclared "undeclared READ_WRITE of java.lang.System.properties"
        (in_test 1) [] }
    ensures looks { values_of (has_prop (quoted "a") ∷ locale ∷ file (quoted "a")
        ∷ has_file (quoted "a") ∷ [])
        ≡ map (λ k. Err (F.Undeclared Read (codes k)))
        ("java.lang.System.properties" ∷ "java.util.Locale.default" ∷ "file:a" ∷ "file:a" ∷ []) }
    ensures changes { endings_of (clear_prop (quoted "a") ∷ set_locale (quoted "de")
        ∷ write_file (quoted "a") (quoted "m") ∷ append_file (quoted "a") (quoted "m")
        ∷ delete_file (quoted "a") ∷ [])
        ≡ map (fault_here K.Undeclared)
        ("undeclared READ_WRITE of java.lang.System.properties"
        ∷ "undeclared READ_WRITE of java.util.Locale.default"
        ∷ replicate 3 "undeclared READ_WRITE of file:a") }
{}

/// A property is absent once it is cleared, and stays so. The others stay as they are.
#[tactic(auto, using(crate::proofs::ExampleLemmas::properties))]
pub fn cleared_property_is_absent()
    ensures absent { test_alone clears_a (writes_properties ∷ []) property_a_is_1
        ≡ passed ("true" ∷ "false" ∷ []) }
    ensures others { test_alone changes_b (writes_properties ∷ []) property_a_is_1
        ≡ passed ("1" ∷ []) }
{}

/// The locale starts as "en" where the world says nothing of it.
pub fn locale_starts_as_en()
    ensures { test_alone prints_locale (empty_head ∷ []) empty_world ≡ passed ("en" ∷ []) }
{}

/// The blocks around a test run from the outermost class inwards, and out again.
/// What they print counts together, each line with its end.
pub fn lifecycle_blocks_nest()
    ensures order { test_alone prints_t (inner ∷ outer ∷ []) empty_world
        ≡ passed ("ob" ∷ "ib" ∷ "t" ∷ "ia" ∷ "oa" ∷ []) }
    ensures bytes { let chain = inner ∷ outer ∷ [] in
        (test prints_t chain (opening chain empty_world)).printed ≡ 14 }
{}

/// A fail in `before_all` blocks all tests and classes under it.
/// The `after_all` of its class runs nevertheless.
#[tactic(auto, using(crate::proofs::ExampleLemmas::numerals))]
pub fn failed_before_all_blocks()
    ensures test { test_alone does_nothing (no_database ∷ []) empty_world
        ≡ blocked "no db" (in_class 1 BeforeAll) [] }
    ensures class { class_alone no_database [] empty_world
        ≡ failed "no db" (in_class 1 BeforeAll) ("open" ∷ "close" ∷ []) }
    ensures inner_test { test_alone does_nothing (opens_inside ∷ no_database ∷ []) empty_world
        ≡ blocked "no db" (in_class 1 BeforeAll) [] }
    ensures inner_class { class_alone opens_inside (no_database ∷ []) empty_world
        ≡ blocked "no db" (in_class 1 BeforeAll) [] }
    ensures place { place_text (in_class 1 BeforeAll) ≡ codes "class 1 before_all row 1" }
{}

/// After a `before_each` that didn't end well neither a further one nor the test is run.
/// Each `after_each` is.
pub fn after_each_runs_in_every_case()
    ensures assumption { test_alone prints_t (inner ∷ assumes_before_each ∷ []) empty_world
        ≡ skipped "no" (in_class 1 BeforeEach) ("ia" ∷ "a" ∷ []) }
    ensures fail { test_alone prints_t (inner ∷ fails_before_each ∷ []) empty_world
        ≡ failed "no" (in_class 1 BeforeEach) ("ia" ∷ []) }
{}

/// A false assumption skips its test.
#[tactic(auto, using(crate::proofs::ExampleLemmas::numerals))]
pub fn false_assumption_skips()
    ensures test { test_alone assumes_false (empty_head ∷ []) empty_world
        ≡ skipped "no #1" (in_test 1) [] }
    ensures place { place_text (in_test 1) ≡ codes "test row 1" }
{}

/// A later fail is stronger than an earlier false assumption.
#[tactic(auto, using(crate::proofs::ExampleLemmas::numerals))]
pub fn later_fail_is_stronger()
    ensures test { test_alone assumes_false (fails_late ∷ outer ∷ []) empty_world
        ≡ failed "late" (in_class 2 AfterEach) ("ob" ∷ "oa" ∷ []) }
    ensures place { place_text (in_class 2 AfterEach) ≡ codes "class 2 after_each row 1" }
{}

/// A false assumption in `before_all` skips the class and the tests under it.
pub fn false_assumption_in_before_all_skips_all()
    ensures test { test_alone does_nothing (assumes_false_first ∷ []) empty_world
        ≡ skipped "no #1" (in_class 1 BeforeAll) [] }
    ensures class { class_alone assumes_false_first [] empty_world
        ≡ skipped "no #1" (in_class 1 BeforeAll) [] }
    ensures first { class_alone assumes_twice [] empty_world
        ≡ skipped "no #1" (in_class 1 BeforeAll) [] }
{}

/// A mark with `children` counts on each child of its class alone, and there as one of the child's
/// own, after these.
pub fn marks_of_children_are_theirs()
    ensures class { effective [] (for_children (writes properties_key) ∷ reads file_a ∷ [])
        ≡ reads file_a ∷ [] }
    ensures child { effective (for_children (writes properties_key) ∷ reads file_a ∷ [])
        (reads properties_key ∷ [])
        ≡ reads properties_key ∷ writes properties_key ∷ [] }
    ensures grandchild { effective (reads properties_key ∷ []) (reads file_a ∷ [])
        ≡ reads file_a ∷ [] }
{}

/// None of a disabled test's blocks runs. It is skipped with its reason, unless an enclosing
/// class's opening barred it.
pub fn disabled_test_is_skipped()
    ensures own { test_alone disabled_test (inner ∷ outer ∷ []) empty_world
        ≡ skipped "later" Disabled [] }
    ensures blocked { test_alone disabled_test (no_database ∷ []) empty_world
        ≡ blocked "no db" (in_class 1 BeforeAll) [] }
    ensures place { place_text Disabled ≡ codes "disabled" }
{}

/// None of a disabled class's blocks runs. All in it is skipped with its reason, nested classes
/// too, and enclosing ones aren't.
pub fn disabled_class_skips_all_in_it()
    ensures class { class_alone disabled_class [] empty_world ≡ skipped "soon" Disabled [] }
    ensures test { test_alone prints_t (disabled_class ∷ []) empty_world
        ≡ skipped "soon" Disabled [] }
    ensures inner { class_alone opens_inside (disabled_class ∷ []) empty_world
        ≡ skipped "soon" Disabled [] }
    ensures outer { test_alone disabled_test (disabled_class ∷ []) empty_world
        ≡ skipped "soon" Disabled [] }
    ensures enclosing { class_alone disabled_class (no_database ∷ []) empty_world
        ≡ blocked "no db" (in_class 1 BeforeAll) [] }
{}

/// Each test begins with the fields at their literals.
#[tactic(auto, using(crate::proofs::ExampleLemmas::numerals))]
pub fn fields_begin_anew()
    ensures { test_alone prints_n (counts_up ∷ []) empty_world ≡ passed ("2" ∷ []) }
{}

/// Tests and `after_all` see a static as `before_all` left it.
#[tactic(auto, using(crate::proofs::ExampleLemmas::numerals))]
pub fn statics_stay_as_before_all_left_them()
    ensures test { test_alone prints_n (sets_static ∷ []) empty_world ≡ passed ("5" ∷ []) }
    ensures class { class_alone sets_static [] empty_world ≡ passed ("5" ∷ []) }
{}

/// A static is assigned in its own class's `before_all` alone, and its name is taken elsewhere.
pub fn statics_are_frozen_elsewhere()
    ensures test { test_alone assigns_n (has_static ∷ []) empty_world
        ≡ faulted K.Frozen "n is frozen" (in_test 1) [] }
    ensures taken { test_alone declares_n (has_static ∷ []) empty_world
        ≡ faulted K.DoubleName "name n is taken" (in_test 1) [] }
    ensures before_each { test_alone prints_t
        (assigns_static_before_each ∷ empty_head ∷ []) empty_world
        ≡ faulted K.Frozen "n is frozen" (in_class 2 BeforeEach) [] }
    ensures inner { class_alone assigns_outer_static (has_static ∷ []) empty_world
        ≡ faulted K.Frozen "n is frozen" (in_class 2 BeforeAll) [] }
{}

/// A block sees no name of a class inside its own, and `before_all` no field.
pub fn other_names_are_unknown()
    ensures inner { test_alone does_nothing (has_field ∷ assigns_inner_field ∷ []) empty_world
        ≡ faulted K.UnknownName "unknown name n" (in_class 1 BeforeEach) [] }
    ensures field { class_alone prints_field_first [] empty_world
        ≡ faulted K.UnknownName "unknown name n" (in_class 1 BeforeAll) [] }
    ensures fault_blocks { test_alone does_nothing (prints_field_first ∷ []) empty_world
        ≡ blocked "unknown name n" (in_class 1 BeforeAll) [] }
{}

/// A `let` of a visible name is a fault, here after three steps.
pub fn visible_name_is_taken()
    ensures taken { (by_itself takes_name_twice).here.ending
        ≡ fault_here K.DoubleName "name x is taken" }
    ensures steps { steps_left (by_itself takes_name_twice) ≡ 10000 - 3 }
{}

/// A local ends with the body that holds its `let`.
pub fn locals_end_with_their_body()
    ensures { (by_itself (if_then (flag true) (let_name "x" (number 1) ∷ [])
        ∷ let_name "x" (number 2) ∷ [])).here.ending
        ≡ Well }
{}

/// Whole numbers have 64 bits.
pub fn numbers_have_64_bits()
    ensures overflow { values_of (add (number 9223372036854775807) (number 1 ∷ [])
        ∷ add (minus 9223372036854775808) (minus 1 ∷ [])
        ∷ multiply (number 3037000500) (number 3037000500 ∷ []) ∷ [])
        ≡ replicate 3 (Err F.Overflow) }
    ensures least { values_of (subtract (minus 9223372036854775807) (number 1 ∷ []) ∷ [])
        ≡ Ok (Whole (negsuc 9223372036854775807)) ∷ [] }
    ensures most { values_of (add (number 9223372036854775806) (number 1 ∷ []) ∷ [])
        ≡ Ok (Whole (pos 9223372036854775807)) ∷ [] }
    ensures message { endings_of (print (add (number 9223372036854775807) (number 1 ∷ [])) ∷ [])
        ≡ fault_here K.Overflow "overflow" ∷ [] }
{}

/// Operands come from the left, all of them before the first pair and before what the form itself
/// tests. Chains group to the left.
pub fn operands_come_first()
    ensures faults { values_of (add (number 1) (quoted "a" ∷ name "x" ∷ name "y" ∷ [])
        ∷ equal (name "x") (name "y")
        ∷ add (flag true) (name "x" ∷ []) ∷ join (number 1) (name "x" ∷ [])
        ∷ less (quoted "a") (name "x") ∷ [])
        ≡ replicate 5 (Err (F.UnknownName (codes "x"))) }
    ensures statements { endings_of (assert_equal (name "x") (name "y")
        ∷ set_prop (name "x") (name "y") ∷ write_file (name "x") (name "y")
        ∷ append_file (name "x") (name "y") ∷ assign "y" (name "x") ∷ [])
        ≡ replicate 5 (fault_here K.UnknownName "unknown name x") }
    ensures pairs { values_of (subtract (number 2) (number 3 ∷ number 4 ∷ [])
        ∷ multiply (add (number 2) (number 3 ∷ [])) (number 4 ∷ []) ∷ [])
        ≡ Ok (Whole (negsuc 4)) ∷ Ok (Whole (pos 20)) ∷ [] }
{}

/// The pairs of a chain are tested one after another: each has both its tests before the next one.
pub fn pairs_come_one_after_another()
    ensures kinds { values_of (add (number 9223372036854775807) (number 1 ∷ quoted "a" ∷ [])
        ∷ subtract (minus 9223372036854775808) (number 1 ∷ quoted "a" ∷ [])
        ∷ multiply (number 9223372036854775807) (number 2 ∷ quoted "a" ∷ []) ∷ [])
        ≡ replicate 3 (Err F.Overflow) }
    ensures numbers { values_of (add (number 9223372036854775807) (number 1 ∷ minus 1 ∷ [])
        ∷ subtract (minus 9223372036854775808) (number 1 ∷ minus 1 ∷ [])
        ∷ multiply (number 9223372036854775807) (number 2 ∷ number 0 ∷ []) ∷ [])
        ≡ replicate 3 (Err F.Overflow) }
{}

/// What a statement tests comes after the values of all its operands: whether a name is taken or
/// frozen, whether a line fits, and whether the first of two values is a text.
pub fn operands_come_before_what_is_tested()
    ensures faults { endings_crowded (let_name "x" (name "y") ∷ assign "n" (name "y")
        ∷ print (name "y")
        ∷ set_prop (number 1) (name "y") ∷ write_file (number 1) (name "y")
        ∷ append_file (number 1) (name "y") ∷ [])
        ≡ replicate 6 (fault_here K.UnknownName "unknown name y") }
    ensures tested { endings_crowded (let_name "f" (number 1) ∷ let_name "x" (number 1)
        ∷ assign "n" (number 1) ∷ print (quoted "") ∷ [])
        ≡ fault_here K.DoubleName "name f is taken" ∷ fault_here K.DoubleName "name x is taken"
        ∷ fault_here K.Frozen "n is frozen" ∷ fault_here K.OutputFull "output is full" ∷ [] }
{}

/// An assignment may give a name a value of another kind. It stays where the body or the turn
/// around it ends.
pub fn assignments_stay()
    ensures kind { (by_itself (let_name "x" (number 1) ∷ assign "x" (quoted "a") ∷ print (name "x")
        ∷ [])).here.lines
        ≡ lines ("a" ∷ []) }
    ensures body { (by_itself (let_name "x" (quoted "a")
        ∷ if_then (flag true) (assign "x" (quoted "b") ∷ []) ∷ print (name "x")
        ∷ [])).here.lines
        ≡ lines ("b" ∷ []) }
    ensures turns { (by_itself (let_name "x" (quoted "a")
        ∷ repeat (number 2) (body (assign "x" (join (name "x") (quoted "b" ∷ [])) ∷ []))
        ∷ print (name "x") ∷ [])).here.lines
        ≡ lines ("abb" ∷ []) }
{}

/// Values of one kind are compared.
pub fn comparisons_give_flags()
    ensures hold { values_of (less (minus 1) (number 0) ∷ equal (flag false) (flag false)
        ∷ not_equal (quoted "a") (quoted "b") ∷ [])
        ≡ replicate 3 (Ok (Flag true)) }
    ensures fail { values_of (less (number 1) (number 1) ∷ equal (flag true) (flag false)
        ∷ not_equal (number 1) (number 1) ∷ [])
        ≡ replicate 3 (Ok (Flag false)) }
    ensures flags { values_of (equal (flag true) (flag true)
        ∷ not_equal (flag false) (flag true) ∷ [])
        ≡ replicate 2 (Ok (Flag true)) }
    ensures numbers { values_of (less (number 1) (number 2) ∷ less (number 2) (number 1) ∷ [])
        ≡ Ok (Flag true) ∷ Ok (Flag false) ∷ [] }
{}

/// Texts are joined and measured, and any value has a text.
#[tactic(auto, using(crate::proofs::ExampleLemmas::numerals))]
pub fn texts_are_joined_and_measured()
    ensures joined { values_of (join (text (number 5)) (text (flag true) ∷ [])
        ∷ len (quoted "abc") ∷ [])
        ≡ Ok (Text (codes "5true")) ∷ Ok (Whole (pos 3)) ∷ [] }
    ensures negative { values_of (text (minus 5) ∷ []) ≡ Ok (Text (codes "-5")) ∷ [] }
{}

/// The kinds of operands are tested before rights, resources and values.
pub fn kinds_come_first()
    ensures values { values_of (add (number 1) (quoted "a" ∷ []) ∷ join (number 1) (quoted "a" ∷ [])
        ∷ equal (number 1) (quoted "1") ∷ less (quoted "a") (quoted "b")
        ∷ len (number 1) ∷ prop (number 1) ∷ has_prop (number 1) ∷ file (number 1)
        ∷ has_file (number 1) ∷ [])
        ≡ replicate 9 (Err F.WrongKind) }
    ensures operators { values_of (add (quoted "a") (quoted "b" ∷ [])
        ∷ subtract (flag true) (flag true ∷ [])
        ∷ multiply (flag true) (number 1 ∷ []) ∷ join (number 1) (number 2 ∷ [])
        ∷ equal (flag true) (number 1) ∷ equal (flag true) (quoted "true")
        ∷ not_equal (number 1) (quoted "1") ∷ less (flag false) (flag true) ∷ [])
        ≡ replicate 8 (Err F.WrongKind) }
    ensures statements { endings_of (assert (number 1) ∷ assume (number 1) "no"
        ∷ if_then (number 1) [] ∷ repeat (flag true) no_acts
        ∷ assert_equal (number 1) (quoted "1") ∷ set_prop (number 1) (quoted "x")
        ∷ set_prop (quoted "x") (number 1) ∷ clear_prop (number 1) ∷ set_locale (number 1)
        ∷ write_file (quoted "a") (number 1) ∷ append_file (quoted "a") (number 1)
        ∷ delete_file (number 1) ∷ [])
        ≡ replicate 12 (fault_here K.WrongKind "wrong kind") }
    ensures count { endings_of (repeat (minus 1) no_acts ∷ [])
        ≡ fault_here K.BadCount "bad count" ∷ [] }
{}

/// A false `assert` says so, and `assert_equal` names both values, the expected one first. What
/// holds goes on.
#[tactic(auto, using(crate::proofs::ExampleLemmas::numerals))]
pub fn assertions_name_what_differs()
    ensures fail { endings_of (assert (flag false) ∷ assert_equal (number 3) (number 4)
        ∷ assume (flag false) "no" ∷ [])
        ≡ Fail (note "assertion failed" (in_test 1)) ∷ Fail
        (note "expected: <3> but was: <4>" (in_test 1)) ∷ Assumed (note "no" (in_test 1)) ∷ [] }
    ensures hold { endings_of (assert (flag true) ∷ assert_equal (quoted "a") (quoted "a")
        ∷ assume (flag true) "no" ∷ [])
        ≡ replicate 3 Well }
{}

/// A place names its block: the lifecycle block, with the depth of its class, or the test.
#[tactic(auto, using(crate::proofs::ExampleLemmas::numerals))]
pub fn places_name_their_block()
    ensures before_all { place_text (in_class 1 BeforeAll) ≡ codes "class 1 before_all row 1" }
    ensures after_all { place_text (in_class 2 AfterAll) ≡ codes "class 2 after_all row 1" }
    ensures before_each { place_text (in_class 1 BeforeEach) ≡ codes "class 1 before_each row 1" }
    ensures after_each { place_text (in_class 2 AfterEach) ≡ codes "class 2 after_each row 1" }
    ensures test { place_text (in_test 2) ≡ codes "test row 2" }
{}

/// A place has the row of the innermost statement, and of the `repeat` for the beginning of a turn.
#[tactic(auto, using(crate::proofs::ExampleLemmas::numerals))]
pub fn rows_are_of_the_innermost_statement()
    ensures statements { map ending_on_row_3
        (fail "no" ∷ assume (flag false) "no" ∷ print (name "x") ∷ [])
        ≡ Fail (note "no" (in_test 3)) ∷ Assumed (note "no" (in_test 3))
        ∷ Fault K.UnknownName (note "unknown name x" (in_test 3)) ∷ [] }
    ensures turn { (block_with [] 0 (on_row 2 (repeats 10000 ∷ []))).here.ending
        ≡ Fault K.OutOfSteps (note "out of steps" (in_test 2)) }
    ensures place { place_text (in_test 2) ≡ codes "test row 2" }
{}

/// A `repeat` takes a step, and so do the beginning of each turn and each statement in it.
#[tactic(auto, using(crate::proofs::ExampleLemmas::numerals))]
pub fn turns_take_steps()
    ensures ending { (by_itself repeats_twice).here.ending ≡ Well }
    ensures lines { (by_itself repeats_twice).here.lines ≡ codes "1" ∷ codes "1" ∷ [] }
    ensures steps { steps_left (by_itself repeats_twice) ≡ 10000 - 7 }
    ensures before_the_last { is_done (by_single_steps 6 repeats_twice).pieces ≡ false }
    ensures after_the_last { is_done (by_single_steps 7 repeats_twice).pieces ≡ true }
    ensures same_end { (by_single_steps 7 repeats_twice).state ≡ by_itself repeats_twice }
{}

/// A block has 10,000 steps. Past them a statement does nothing more.
pub fn steps_are_limited()
    ensures last { (by_itself (repeats 9999 ∷ [])).here.ending ≡ Well }
    ensures past { let s = block_with [] 0
        (act 1 (repeats 9999) (on_row 2 (print (name "x") ∷ []))) in
        s.here.ending ≡ Fault K.OutOfSteps (note "out of steps" (in_test 2)) }
{}

/// With no step left each statement ends the block, before any of its operands is evaluated.
pub fn steps_come_first()
    ensures { endings_without_steps (let_name "x" (name "y") ∷ assign "n" (name "y")
        ∷ print (name "y") ∷ assert (flag false)
        ∷ assert_equal (name "y") (name "z") ∷ assume (flag false) "no" ∷ fail "no"
        ∷ if_then (name "y") [] ∷ repeat (name "y") no_acts
        ∷ set_prop (number 1) (name "y") ∷ clear_prop (number 1) ∷ set_locale (number 1)
        ∷ write_file (number 1) (name "y") ∷ append_file (number 1) (name "y")
        ∷ delete_file (number 1) ∷ [])
        ≡ replicate 15 (fault_here K.OutOfSteps "out of steps") }
{}

/// A body prints 65,536 bytes at most, each line with its end.
pub fn output_is_limited()
    ensures last { (block_with [] 65535 (body (print (quoted "") ∷ []))).here.ending ≡ Well }
    ensures past { (block_with [] 65536 (body (print (quoted "") ∷ []))).here.ending
        ≡ fault_here K.OutputFull "output is full" }
{}

/// A text has 4,096 bytes at most, and so has a file. Whether a file may be changed is tested
/// first.
pub fn texts_are_limited()
    ensures last { (by_itself (let_name "x" (join (long 4095) (quoted "b" ∷ [])) ∷ [])).here.ending
        ≡ Well }
    ensures past { (by_itself (let_name "x" (join (long 4096) (quoted "b" ∷ [])) ∷ [])).here.ending
        ≡ fault_here K.TextTooLong "text is too long" }
    ensures file { (block_with (writes file_a ∷ []) 0
        (body (write_file (quoted "a") (long 4096) ∷ append_file (quoted "a") (quoted "b")
        ∷ []))).here.ending
        ≡ fault_here K.TextTooLong "text is too long" }
    ensures undeclared { (beside_a_long_file
        (append_file (quoted "a") (quoted "b") ∷ [])).here.ending
        ≡ fault_here K.Undeclared "undeclared READ_WRITE of file:a" }
{}

/// A file is made or replaced, grows, and is missing once it is deleted.
pub fn files_are_written_and_deleted()
    ensures grows { test_alone writes_and_deletes (empty_head ∷ []) empty_world
        ≡ passed ("mn" ∷ "true" ∷ "false" ∷ []) }
    ensures replaced { (block_with (writes file_a ∷ []) 0
        (body (write_file (quoted "a") (quoted "m") ∷ write_file (quoted "a") (quoted "n")
        ∷ print (file (quoted "a")) ∷ []))).here.lines
        ≡ lines ("n" ∷ []) }
{}

/// What isn't there is missing, by its name.
#[tactic(auto, using(crate::proofs::ExampleLemmas::properties))]
pub fn absent_resources_are_missing()
    ensures append { (block_with (writes file_a ∷ []) 0
        (body (append_file (quoted "a") (quoted "n") ∷ []))).here.ending
        ≡ fault_here K.Missing "missing file a" }
    ensures delete { (block_with (writes file_a ∷ []) 0
        (body (delete_file (quoted "a") ∷ []))).here.ending
        ≡ fault_here K.Missing "missing file a" }
    ensures file { (block_with (reads file_a ∷ []) 0
        (body (print (file (quoted "a")) ∷ []))).here.ending
        ≡ fault_here K.Missing "missing file a" }
    ensures property { test_alone reads_and_prints_a (empty_head ∷ []) empty_world
        ≡ faulted K.Missing "missing property a" (in_test 1) [] }
{}

/// An `if` does one of its two bodies.
pub fn one_body_is_chosen()
    ensures { (by_itself (if_else (flag true) (print (quoted "a") ∷ []) (print (quoted "b") ∷ [])
        ∷ if_else (flag false) (print (quoted "a") ∷ []) (print (quoted "b") ∷ [])
        ∷ [])).here.lines
        ≡ lines ("a" ∷ "b" ∷ []) }
{}
