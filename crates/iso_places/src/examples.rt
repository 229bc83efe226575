//! Worked examples of the definitions, as public laws.
ghost use Rattle.std.specs.Prelude.{◌≡◌, ◌++◌, [], ◌∷◌, None, Some, codes};
ghost use Rattle.iso_model.specs.declared.place.BlockName.TheVariants as N;
ghost use Rattle.iso_model.specs.declared.place.Lifecycle.TheVariants.{BeforeAll, BeforeEach, AfterAll};
ghost use Rattle.iso_model.specs.declared.place.Place.TheVariants.{Disabled, Row};
ghost use Rattle.iso_places.specs.Ends.{end_line, node_at_depth};
ghost use Rattle.iso_places.specs.Examples.{desk_sites, first_places, second_places, two_scripts, two_sites};
ghost use Rattle.iso_places.specs.Examples.{line_in, twice_named};
ghost use Rattle.iso_places.specs.LineStarts.{line_starts};
ghost use Rattle.iso_places.specs.Located.{site_by_path};
ghost use Rattle.iso_places.specs.Sites.{all_sites, site_at, site_in};
ghost use Rattle.iso_places.specs.SourceLines.{source_line};
ghost use Rattle.iso_plan.specs.Examples.{cart_and_desk};
ghost use Rattle.iso_plan.specs.PathTexts.{path_text};
ghost use Rattle.iso_plan.specs.KeptNodes.{selection};
ghost use Rattle.iso_script.specs.Examples.{class_at, test_at};

/// Lines count from 1 and end with LF or CR LF. What isn't there is empty.
pub fn lines_count_from_one()
    ensures first { source_line (codes "a" ++ 10 ∷ codes "b") 1 ≡ codes "a" }
    ensures last { source_line (codes "a" ++ 10 ∷ codes "b") 2 ≡ codes "b" }
    ensures past { source_line (codes "a" ++ 10 ∷ codes "b") 3 ≡ [] }
    ensures zero { source_line (codes "a" ++ 10 ∷ codes "b") 0 ≡ [] }
    ensures carriage { source_line (codes "a" ++ 13 ∷ 10 ∷ codes "b") 1 ≡ codes "a" }
    ensures within { source_line (codes "a" ++ 13 ∷ codes "b" ++ 10 ∷ []) 1
        ≡ codes "a" ++ 13 ∷ codes "b" }
    ensures empty { source_line (10 ∷ 10 ∷ codes "c") 2 ≡ [] }
    ensures after { source_line (10 ∷ 10 ∷ codes "c") 3 ≡ codes "c" }
{}

/// Lines start at the beginning of a text and behind each line feed, be it the last byte.
pub fn lines_start_behind_line_feeds()
    ensures lines { line_starts (codes "a" ++ 13 ∷ 10 ∷ 10 ∷ codes "b") ≡ 0 ∷ 3 ∷ 4 ∷ [] }
    ensures ended { line_starts (codes "a" ++ 10 ∷ []) ≡ 0 ∷ 2 ∷ [] }
    ensures empty { line_starts [] ≡ 0 ∷ [] }
{}

/// The sites of all nodes are those of the first script, then those of the second and so on. The
/// root has none.
pub fn sites_stand_script_after_script()
    ensures all { all_sites (first_places ∷ [] ∷ second_places ∷ [])
        ≡ site_in 0 (class_at 2 7 0 0 0 0) ∷ site_in 0 (test_at 3 8 3)
        ∷ site_in 2 (class_at 1 17 0 0 0 0) ∷ site_in 2 (test_at 2 6 4) ∷ [] }
    ensures root { site_at two_sites 0 ≡ None }
    ensures class { site_at two_sites 1 ≡ Some (site_in 0 (class_at 2 7 0 0 0 0)) }
    ensures past { site_at two_sites 5 ≡ None }
{}

/// A node has the site of the node of all scripts that has its path, whatever number it has in a
/// plan of some of them.
#[tactic(auto, unfolding(iso_plan::specs::Paths::path))]
pub fn nodes_are_found_by_their_paths()
    ensures first { site_by_path two_scripts two_sites (codes "shop.A.t")
        ≡ Some (site_in 0 (test_at 3 8 3)) }
    ensures second { site_by_path two_scripts two_sites (codes "bank.A.t")
        ≡ Some (site_in 1 (test_at 2 6 4)) }
    ensures unknown { site_by_path two_scripts two_sites (codes "bank.A.u") ≡ None }
    ensures root { site_by_path two_scripts two_sites [] ≡ None }
    ensures kept { let part = selection two_scripts (codes "bank.A" ∷ []) in
        site_by_path two_scripts two_sites (path_text part 2) ≡ Some (site_in 1 (test_at 2 6 4)) }
    ensures short { site_by_path two_scripts (all_sites (first_places ∷ []))
        (codes "bank.A") ≡ None }
    ensures twice { site_by_path twice_named two_sites (codes "shop.A.t")
        ≡ Some (site_in 0 (test_at 3 8 3)) }
{}

/// Row 1 is on the line of the opening brace, wherever the name stands.
#[tactic(auto, unfolding(iso_plan::specs::Paths::path))]
pub fn rows_count_from_the_brace()
    ensures brace { end_line cart_and_desk desk_sites 7 (Row N.Test 1) ≡ Some (line_in 0 32) }
    ensures row { end_line cart_and_desk desk_sites 7 (Row N.Test 3) ≡ Some (line_in 0 34) }
    ensures sibling { end_line cart_and_desk desk_sites 5 (Row N.Test 3) ≡ Some (line_in 0 22) }
    ensures disabled { end_line cart_and_desk desk_sites 7 Disabled ≡ Some (line_in 0 30) }
    ensures class { end_line cart_and_desk desk_sites 6 Disabled ≡ Some (line_in 0 25) }
    ensures second { end_line two_scripts two_sites 4 (Row N.Test 2) ≡ Some (line_in 1 5) }
    ensures root { end_line cart_and_desk desk_sites 0 Disabled ≡ None }
{}

/// A class block is that of the class of the node's path at this depth, of the kind that is told.
#[tactic(auto, unfolding(iso_plan::specs::Paths::path))]
pub fn class_blocks_are_found_by_depth()
    ensures top { end_line cart_and_desk desk_sites 7 (Row (N.Class 1 BeforeAll) 2)
        ≡ Some (line_in 0 13) }
    ensures inner { end_line cart_and_desk desk_sites 7 (Row (N.Class 2 BeforeAll) 2)
        ≡ Some (line_in 0 27) }
    ensures kind { end_line cart_and_desk desk_sites 7 (Row (N.Class 1 BeforeEach) 2)
        ≡ Some (line_in 0 16) }
    ensures itself { end_line cart_and_desk desk_sites 4 (Row (N.Class 1 BeforeAll) 1)
        ≡ Some (line_in 0 12) }
    ensures outer { end_line cart_and_desk desk_sites 6 (Row (N.Class 1 BeforeAll) 1)
        ≡ Some (line_in 0 12) }
    ensures depth { node_at_depth cart_and_desk 7 2 ≡ Some 6 }
{}

/// Where no such block is written there is no line: the class has no block of this kind, or the
/// node of that depth is no class, or there is none.
#[tactic(auto, unfolding(iso_plan::specs::Paths::path))]
pub fn blocks_that_are_not_written_have_no_lines()
    ensures unwritten { end_line cart_and_desk desk_sites 7 (Row (N.Class 2 AfterAll) 1) ≡ None }
    ensures test { end_line cart_and_desk desk_sites 7 (Row (N.Class 3 BeforeAll) 1) ≡ None }
    ensures below { end_line cart_and_desk desk_sites 7 (Row (N.Class 4 BeforeAll) 1) ≡ None }
    ensures above { end_line cart_and_desk desk_sites 7 (Row (N.Class 0 BeforeAll) 1) ≡ None }
    ensures body { end_line cart_and_desk desk_sites 6 (Row N.Test 1) ≡ None }
{}
