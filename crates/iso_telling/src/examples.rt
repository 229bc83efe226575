//! Worked examples of the definitions, as public laws.
ghost use Rattle.std.specs.Prelude.{◌≡◌, ◌++◌, ◌∷◌, [], None, Some, codes, false, true};
ghost use Rattle.iso_failures.specs.Examples.{outcome_of, till_in_cart, unopened_of};
ghost use Rattle.iso_model.specs.declared.place.BlockName.TheVariants as N;
ghost use Rattle.iso_model.specs.declared.place.Lifecycle.TheVariants.{AfterAll, BeforeAll, BeforeEach};
ghost use Rattle.iso_model.specs.declared.place.Place.TheVariants.{Disabled, Row};
ghost use Rattle.iso_places.specs.Examples.{line_in};
ghost use Rattle.iso_telling.specs.Examples.{failed_at, faulted_of, numbered, six_lines, skipped_at, till_sites, two_names, two_texts, unassumed_of};
ghost use Rattle.iso_telling.specs.Excerpts.{around, failed_line};
ghost use Rattle.iso_telling.specs.Explained.{hints_told};
ghost use Rattle.iso_telling.specs.NodePlaces.{node_place, nowhere};
ghost use Rattle.iso_telling.specs.ToldLines.{line_told};
ghost use Rattle.iso_telling.specs.ToldNodes.{told_nodes};
ghost use Rattle.iso_telling.specs.ToldPlaces.{located};

/// Nodes that failed by themselves are told of, and no other where skipped tests aren't asked for.
pub fn failures_are_told()
    ensures failed { told_nodes till_in_cart outcome_of false ≡ 1 ∷ 3 ∷ 7 ∷ [] }
    ensures none { told_nodes till_in_cart unassumed_of false ≡ [] }
{}

/// Skipped and disabled tests are told of where they are asked for, in their places between the
/// others.
pub fn skipped_tests_are_told_where_they_are_asked_for()
    ensures { told_nodes till_in_cart outcome_of true ≡ 1 ∷ 3 ∷ 7 ∷ 9 ∷ 10 ∷ [] }
{}

/// A skipped class isn't told of, and what it holds is.
pub fn skipped_classes_are_not_told()
    ensures { told_nodes till_in_cart unassumed_of true ≡ 9 ∷ 10 ∷ [] }
{}

/// What is blocked is counted with the class that blocks it, and not told of.
pub fn blocked_nodes_are_not_told()
    ensures { told_nodes till_in_cart unopened_of true ≡ 1 ∷ [] }
{}

/// Of a row of a test's body the line is told from its opening brace on, wherever its name stands.
#[tactic(auto, unfolding(iso_plan::specs::Paths::path))]
pub fn rows_of_tests_are_told()
    ensures first { line_told till_in_cart till_sites (failed_at (Row N.Test 1)) 7 ≡ line_in 0 24 }
    ensures third { line_told till_in_cart till_sites (failed_at (Row N.Test 3)) 7 ≡ line_in 0 26 }
{}

/// Of a test that a block of a class failed, the line of that block is told, by the class's depth.
#[tactic(auto, unfolding(iso_plan::specs::Paths::path))]
pub fn rows_of_class_blocks_are_told()
    ensures outer { line_told till_in_cart till_sites (failed_at (Row (N.Class 1 BeforeEach) 2)) 4
        ≡ line_in 0 7 }
    ensures inner { line_told till_in_cart till_sites (failed_at (Row (N.Class 2 BeforeAll) 1)) 3
        ≡ line_in 0 12 }
{}

/// Of a disabled test the line of its own name is told.
#[tactic(auto, unfolding(iso_plan::specs::Paths::path))]
pub fn disabled_tests_are_told_at_their_names()
    ensures { line_told till_in_cart till_sites (skipped_at Disabled) 10 ≡ line_in 0 33 }
{}

/// So is that of a node whose verdict names a block which isn't written.
#[tactic(auto, unfolding(iso_plan::specs::Paths::path))]
pub fn what_is_not_written_is_told_at_the_name()
    ensures { line_told till_in_cart till_sites (failed_at (Row (N.Class 2 AfterAll) 1)) 4
        ≡ line_in 0 15 }
{}

/// What mends a fault is told where it is asked for, and nothing of what failed otherwise.
pub fn faults_are_explained_where_it_is_asked_for()
    ensures asked { hints_told true till_in_cart faulted_of 4
        ≡ codes "repeat takes a number of turns that is at least 0" ∷ [] }
    ensures unasked { hints_told false till_in_cart faulted_of 4 ≡ [] }
    ensures failed { hints_told true till_in_cart (failed_at (Row N.Test 1)) 4 ≡ [] }
{}

/// A line has its script's name and text, without its line end.
pub fn lines_have_their_files()
    ensures first { located two_names two_texts (line_in 0 2)
        ≡ record {
          file = codes "a.jtap";
          named = true;
          line = 2;
          source = codes "class A { }";
          hints = [];
        } }
    ensures second { located two_names two_texts (line_in 1 2)
        ≡ record {
          file = codes "my b.jtap";
          named = true;
          line = 2;
          source = codes "class B { }";
          hints = [];
        } }
    ensures past { located two_names two_texts (line_in 1 3)
        ≡ record { file = codes "my b.jtap"; named = true; line = 3; source = []; hints = [] } }
{}

/// Where no script has a name it is standard input.
pub fn lines_of_standard_input_have_no_file()
    ensures { located [] (codes "team a\nclass A { }\n" ∷ []) (line_in 0 2)
        ≡ record {
          file = codes "stdin";
          named = false;
          line = 2;
          source = codes "class A { }";
          hints = [];
        } }
{}

/// The XML and GitHub get each node's file, the line of its own name, and the line of what ended
/// it; of the root nothing.
#[tactic(auto, unfolding(iso_plan::specs::Paths::path))]
pub fn nodes_have_their_files_and_lines()
    ensures row { node_place two_names till_in_cart till_sites (failed_at (Row N.Test 3)) 7
        ≡ record { file = codes "a.jtap"; line = 23; ended = 26 } }
    ensures class_block { node_place two_names till_in_cart till_sites
        (failed_at (Row (N.Class 1 BeforeEach) 2)) 4
        ≡ record { file = codes "a.jtap"; line = 15; ended = 7 } }
    ensures unnamed { node_place [] till_in_cart till_sites (skipped_at Disabled) 10
        ≡ record { file = codes "stdin"; line = 33; ended = 33 } }
    ensures root { node_place two_names till_in_cart till_sites
        (failed_at (Row N.Test 1)) 0 ≡ nowhere }
{}

/// A page shows a line with two before and two after it, as far as there are these.
pub fn lines_stand_around_the_one_that_is_told()
    ensures middle { around six_lines 4 ≡ numbered 2 "b" ∷ numbered 3 "c" ∷ numbered 4 "d"
        ∷ numbered 5 "e" ∷ numbered 6 "f" ∷ [] }
    ensures first { around six_lines 1 ≡ numbered 1 "a" ∷ numbered 2 "b" ∷ numbered 3 "c" ∷ [] }
    ensures second { around six_lines 2 ≡ numbered 1 "a" ∷ numbered 2 "b" ∷ numbered 3 "c"
        ∷ numbered 4 "d" ∷ [] }
    ensures last { around six_lines 6 ≡ numbered 4 "d" ∷ numbered 5 "e" ∷ numbered 6 "f" ∷ [] }
    ensures line_feed { around (six_lines ++ codes "\n") 6 ≡ numbered 4 "d" ∷ numbered 5 "e"
        ∷ numbered 6 "f" ∷ [] }
    ensures empty_line { around (six_lines ++ codes "\n\n") 6 ≡ numbered 4 "d" ∷ numbered 5 "e"
        ∷ numbered 6 "f" ∷ numbered 7 "" ∷ [] }
{}

/// It shows none of a node that didn't fail, and none of the root.
#[tactic(auto, unfolding(iso_plan::specs::Paths::path))]
pub fn lines_are_shown_of_failures_alone()
    ensures failed { failed_line till_in_cart till_sites (failed_at (Row N.Test 1)) 7
        ≡ Some (line_in 0 24) }
    ensures skipped { failed_line till_in_cart till_sites (skipped_at Disabled) 10 ≡ None }
    ensures root { failed_line till_in_cart till_sites (failed_at (Row N.Test 1)) 0 ≡ None }
{}
