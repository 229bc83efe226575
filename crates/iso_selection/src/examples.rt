//! Worked examples of the definitions, as public laws.

ghost use Rattle.std.specs.Prelude.{◌≡◌, ◌++◌, [], ◌∷◌, None, Some, codes, false, true};
ghost use Rattle.iso_plan.specs.Examples.{cart_and_desk, two_classes};
ghost use Rattle.iso_plan.specs.Paths.{is_top};
ghost use Rattle.iso_plan.specs.KeptNodes.{those_below};
ghost use Rattle.iso_selection.specs.Lists.{listed};
ghost use Rattle.iso_selection.specs.Patterns.{is_match};
ghost use Rattle.iso_selection.specs.Picks.{picked_paths};
ghost use Rattle.iso_selection.specs.Shards.{shard_of};
ghost use Rattle.iso_selection.specs.Wishes.{all_wishes, first_in_vain, is_named_by, path, pattern};

/// A star stands for any bytes, as many as there have to be, and for none.
pub fn stars_stand_for_any_bytes()
    ensures none { is_match (codes "a*b") (codes "ab") ≡ true }
    ensures some { is_match (codes "shop.*.adds") (codes "shop.Cart.Inner.adds") ≡ true }
    ensures last { is_match (codes "shop.*") (codes "shop.") ≡ true }
    ensures first { is_match (codes "*.adds") (codes "shop.Cart.adds") ≡ true }
    ensures several { is_match (codes "*a*b*") (codes "xaxxb") ≡ true }
    ensures order { is_match (codes "*a*b*") (codes "xbxa") ≡ false }
    ensures back { is_match (codes "a*bc") (codes "abxbc") ≡ true }
    ensures beside { is_match (codes "a**c") (codes "ac") ≡ true }
    ensures alone { is_match (codes "*") [] ≡ true }
    ensures itself { is_match (codes "a*") (codes "a*") ≡ true }
{}

/// Each other byte stands for itself, and the whole path has to match.
pub fn whole_paths_match()
    ensures front { is_match (codes "shop") (codes "shop.Cart") ≡ false }
    ensures end { is_match (codes "Cart") (codes "shop.Cart") ≡ false }
    ensures same { is_match (codes "shop.Cart") (codes "shop.Cart") ≡ true }
    ensures case { is_match (codes "shop.cart") (codes "shop.Cart") ≡ false }
    ensures dot { is_match (codes "a.c") (codes "abc") ≡ false }
    ensures mark { is_match (codes "a?c") (codes "abc") ≡ false }
    ensures past { is_match (codes "shop.*") (codes "shop") ≡ false }
    ensures empty { is_match [] (codes "a") ≡ false }
    ensures nothing { is_match [] [] ≡ true }
{}

/// Lines end with LF or CR LF, empty ones are skipped, and all else belongs to a path.
pub fn files_list_paths()
    ensures lines { listed (codes "a" ++ 13 ∷ 10 ∷ 13 ∷ 10 ∷ 10 ∷ codes "b" ++ 10 ∷ codes "c")
        ≡ codes "a" ∷ codes "b" ∷ codes "c" ∷ [] }
    ensures empty { listed [] ≡ [] }
    ensures ends { listed (codes "a" ++ 10 ∷ []) ≡ codes "a" ∷ [] }
    ensures alone { listed (codes "a" ++ 13 ∷ []) ≡ (codes "a" ++ 13 ∷ []) ∷ [] }
    ensures comment { listed (codes "# a") ≡ codes "# a" ∷ [] }
{}

/// What is asked for is looked for in this order: paths, patterns, then the paths of a file. An
/// empty file asks for no node.
pub fn wishes_are_in_order()
    ensures order { all_wishes (codes "a" ∷ []) (codes "b" ∷ []) (Some (codes "c"))
        ≡ Some (path (codes "a") ∷ pattern (codes "b") ∷ path (codes "c") ∷ []) }
    ensures none { all_wishes [] [] None ≡ None }
    ensures empty { all_wishes [] [] (Some []) ≡ Some [] }
{}

/// A node is named by its path or by a pattern. A path is no pattern. Where nothing is asked for,
/// top-level classes are named.
#[tactic(auto, unfolding(iso_plan::specs::Paths::path))]
pub fn wishes_name_nodes()
    ensures both { those_below (is_named_by cart_and_desk
        (Some (pattern (codes "shop.Cart*") ∷ path (codes "shop.Desk.c") ∷ []))) 8
        ≡ 1 ∷ 2 ∷ 3 ∷ 5 ∷ [] }
    ensures star { those_below (is_named_by two_classes (Some (path (codes "shop.*") ∷ []))) 5
        ≡ [] }
    ensures root { those_below (is_named_by two_classes (Some (pattern (codes "*") ∷ []))) 5
        ≡ 1 ∷ 2 ∷ 3 ∷ 4 ∷ [] }
    ensures all { those_below (is_named_by cart_and_desk None) 8 ≡ 1 ∷ 4 ∷ [] }
    ensures paths { picked_paths two_classes
        (Some (path (codes "shop.B") ∷ pattern (codes "*.A.t") ∷ [])) None
        ≡ codes "shop.A.t" ∷ codes "shop.B" ∷ [] }
    ensures twice { picked_paths two_classes
        (Some (path (codes "shop.A") ∷ pattern (codes "*.A") ∷ path (codes "shop.A") ∷ [])) None
        ≡ codes "shop.A" ∷ [] }
{}

/// The first thing that names no node is told, be it a path or a pattern.
#[tactic(auto, unfolding(iso_plan::specs::Paths::path))]
pub fn first_in_vain_is_told()
    ensures pattern { first_in_vain two_classes
        (Some (path (codes "shop.A") ∷ pattern (codes "*.C") ∷ path (codes "shop") ∷ [])) ≡ Some 1 }
    ensures path { first_in_vain two_classes
        (Some (pattern (codes "*.t") ∷ path (codes "shop.*") ∷ [])) ≡ Some 1 }
    ensures root { first_in_vain two_classes (Some (pattern [] ∷ [])) ≡ Some 0 }
    ensures none { first_in_vain two_classes (Some (pattern (codes "shop.A") ∷ [])) ≡ None }
    ensures empty { first_in_vain two_classes (Some []) ≡ None }
{}

/// Of the top-level classes that hold a named node the first goes to shard 1, the second to shard 2
/// and so on, and then to shard 1 again.
#[tactic(auto, unfolding(iso_plan::specs::Paths::path))]
pub fn classes_go_to_shards_in_turn()
    ensures first { shard_of two_classes (is_top two_classes) 2 1 ≡ 1 }
    ensures second { shard_of two_classes (is_top two_classes) 2 3 ≡ 2 }
    ensures again { shard_of two_classes (is_top two_classes) 1 3 ≡ 1 }
    ensures more { shard_of two_classes (is_top two_classes) 3 3 ≡ 2 }
    ensures named { shard_of two_classes
        (is_named_by two_classes (Some (path (codes "shop.B.t") ∷ []))) 2 3 ≡ 1 }
{}
