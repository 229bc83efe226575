//! Worked examples of the definitions, as public laws.
ghost use Rattle.std.specs.Prelude.{◌≡◌, [], ◌∷◌, codes};
ghost use Rattle.iso_placed_plan.specs.PlacedPlan.{placed_line, placed_plan_text, placed_test_line, placed_tests_text};
ghost use Rattle.iso_places.specs.Examples.{desk_sites, two_scripts, two_sites};
ghost use Rattle.iso_plan.specs.Examples.{cart_and_desk, concurrent_by_default};
ghost use Rattle.iso_summary.specs.Examples.{text_of};

/// Each line has the place of the node's name as its last field, and names the script that the node
/// is written in.
pub fn lines_end_with_places()
    ensures { placed_plan_text two_scripts concurrent_by_default 2 two_sites
        (codes "shop.jtap" ∷ codes "bank.jtap" ∷ [])
        ≡ text_of
        ("workers 2"
        ∷ "1 class concurrent [r:iso:global] shop.A shop.jtap:2:7"
        ∷ "2 test concurrent [] shop.A.t shop.jtap:3:8"
        ∷ "3 class concurrent [r:iso:global] bank.A bank.jtap:1:17"
        ∷ "4 test concurrent [] bank.A.t bank.jtap:2:6"
        ∷ []) }
{}

/// Of the same plan its two tests.
pub fn tests_have_their_lines_of_the_plan()
    ensures { placed_tests_text two_scripts concurrent_by_default two_sites
        (codes "shop.jtap" ∷ codes "bank.jtap" ∷ [])
        ≡ text_of ("2 test concurrent [] shop.A.t shop.jtap:3:8"
        ∷ "4 test concurrent [] bank.A.t bank.jtap:2:6" ∷ []) }
{}

/// The script without a name is standard input.
pub fn script_without_a_name_is_standard_input()
    ensures alone { placed_tests_text two_scripts concurrent_by_default two_sites []
        ≡ text_of ("2 test concurrent [] shop.A.t stdin:3:8"
        ∷ "4 test concurrent [] bank.A.t stdin:2:6" ∷ []) }
    ensures second { placed_line two_scripts concurrent_by_default two_sites
        (codes "shop.jtap" ∷ []) 4
        ≡ codes "4 test concurrent [] bank.A.t stdin:2:6\n" }
{}

/// A script's name has its control characters escaped, so that the place stays in its line.
pub fn names_of_scripts_stay_in_their_line()
    ensures { placed_line two_scripts concurrent_by_default two_sites (codes "my\nshop.jtap" ∷ []) 2
        ≡ codes "2 test concurrent [] shop.A.t my\\nshop.jtap:3:8\n" }
{}

/// A class has the place of its own name, and among tests no line.
pub fn classes_have_their_own_places()
    ensures class { placed_line cart_and_desk concurrent_by_default desk_sites
        (codes "cart.jtap" ∷ []) 4
        ≡ codes "4 class concurrent [w:iso:global] shop.Desk cart.jtap:10:7\n" }
    ensures inside { placed_line cart_and_desk concurrent_by_default desk_sites
        (codes "cart.jtap" ∷ []) 6
        ≡ codes "6 class same_thread [] shop.Desk.Till cart.jtap:25:16\n" }
    ensures tests { placed_test_line cart_and_desk concurrent_by_default desk_sites
        (codes "cart.jtap" ∷ []) 6 ≡ [] }
{}

/// A node that has no site has the fields of its line alone.
pub fn node_without_a_site_has_no_place()
    ensures { placed_line two_scripts concurrent_by_default [] (codes "shop.jtap" ∷ []) 2
        ≡ codes "2 test concurrent [] shop.A.t\n" }
{}
