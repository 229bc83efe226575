//! Worked examples of the definitions, as public laws.

ghost use Rattle.std.specs.Prelude.{◌≡◌, [], ◌∷◌, Some, None, codes, false, slice_set, true};
ghost use Rattle.iso_model.specs.ResourceKeys.{global_key};
ghost use Rattle.iso_model.specs.declared.access.Access.TheVariants.{Read, Write};
ghost use Rattle.iso_model.specs.declared.script.Mode.TheVariants.{SameThread, Concurrent};
ghost use Rattle.iso_plan.specs.Conflicts.{lowest_in_the_way};
ghost use Rattle.iso_plan.specs.Examples.{cart_and_desk, class_and_test, concurrent_by_default, concurrent_classes, keys_of_children, keys_of_no_node, reading_children, writing_children, isolated_alone, isolated_deep, isolated_with_keys, first_and_second, for_children, key_k, key_l, loose, nested, one_thread, read_lock, reads, titled, two_classes, write_lock, writes};
ghost use Rattle.iso_model.specs.Rights.{is_readable, is_writable};
ghost use Rattle.iso_plan.specs.HeldNodes.{is_held, takers};
ghost use Rattle.iso_plan.specs.KeyGroups.{are_alike, lead, lead_locks};
ghost use Rattle.iso_plan.specs.KeyTable.{keys, kind_marks};
ghost use Rattle.iso_plan.specs.Locks.{conflict, locking_node, locks};
ghost use Rattle.iso_plan.specs.Merged.{merged};
ghost use Rattle.iso_plan.specs.Modes.{mode};
ghost use Rattle.iso_plan.specs.NodeChains.{node_rights};
ghost use Rattle.iso_plan.specs.Paths.{children, path, row_at};
ghost use Rattle.iso_plan.specs.PathTexts.{found, path_text};
ghost use Rattle.iso_plan.specs.KeptNodes.{first_unknown, is_kept, selection, those_below};
ghost use Rattle.iso_plan.specs.TopClasses.{all_top_classes};

/// Nodes are numbered in preorder, and a path leads up to the root, innermost first.
#[tactic(auto, unfolding(crate::specs::Paths::path))]
pub fn nodes_are_numbered_in_preorder()
    ensures root { children cart_and_desk 0 ≡ 1 ∷ 4 ∷ [] }
    ensures desk { children cart_and_desk 4 ≡ 5 ∷ 6 ∷ [] }
    ensures path { path cart_and_desk 7 ≡ 7 ∷ 6 ∷ 4 ∷ [] }
{}

/// Keys are numbered as they are first marked, after the global key.
pub fn keys_are_numbered_as_they_are_marked()
    ensures one { keys cart_and_desk ≡ global_key ∷ key_k ∷ [] }
    ensures two { keys nested ≡ global_key ∷ key_k ∷ key_l ∷ [] }
{}

/// A locking node takes its own and its descendants' keys, each in the strongest access, and they
/// take none.
#[tactic(auto, unfolding(crate::specs::Paths::path))]
pub fn locks_are_gathered()
    ensures class { locks cart_and_desk 1 ≡ read_lock 0 ∷ write_lock 1 ∷ [] }
    ensures test { locks cart_and_desk 3 ≡ [] }
    ensures node { locking_node cart_and_desk 3 ≡ Some 1 }
    ensures own { locks loose 2 ≡ write_lock 1 ∷ [] }
    ensures none { locking_node loose 4 ≡ None }
    ensures top { locks loose 1 ≡ read_lock 0 ∷ [] }
{}

/// A top-level class that holds an isolated class takes the global key for READ_WRITE.
#[tactic(auto, unfolding(crate::specs::Paths::path))]
pub fn isolation_reaches_up_to_the_top_level_class()
    ensures desk { locks cart_and_desk 4 ≡ write_lock 0 ∷ [] }
    ensures test { locking_node cart_and_desk 5 ≡ Some 4 }
    ensures till { locks cart_and_desk 6 ≡ [] }
    ensures others { conflict cart_and_desk 1 4 ≡ true }
{}

/// So does one that is isolated itself, and one that holds an isolated class in a class of its own.
#[tactic(auto, unfolding(crate::specs::Paths::path))]
pub fn isolation_is_found_at_each_depth()
    ensures itself { locks isolated_alone 1 ≡ write_lock 0 ∷ [] }
    ensures deep { locks isolated_deep 1 ≡ write_lock 0 ∷ [] }
    ensures between { locks isolated_deep 2 ≡ [] }
    ensures test { locking_node isolated_deep 4 ≡ Some 1 }
{}

/// Such a class takes every key that is marked in it.
#[tactic(auto, unfolding(crate::specs::Paths::path))]
pub fn isolation_gathers_at_the_top_level_class()
    ensures top { locks isolated_with_keys 1 ≡ write_lock 0 ∷ read_lock 1 ∷ write_lock 2 ∷ [] }
    ensures test { locks isolated_with_keys 2 ≡ [] }
    ensures isolated { locks isolated_with_keys 3 ≡ [] }
    ensures node { locking_node isolated_with_keys 4 ≡ Some 1 }
{}

/// A mark for children counts on each child and not on the class, which takes it for none of its
/// own blocks.
#[tactic(auto, unfolding(crate::specs::Paths::path))]
pub fn children_take_what_is_marked_for_them()
    ensures class { locks writing_children 1 ≡ read_lock 0 ∷ [] }
    ensures first { locks writing_children 2 ≡ write_lock 1 ∷ [] }
    ensures second { locks writing_children 3 ≡ write_lock 1 ∷ [] }
    ensures siblings { conflict writing_children 2 3 ≡ true }
    ensures modes { mode writing_children concurrent_by_default 3 ≡ Concurrent }
    ensures rights { is_readable (node_rights writing_children 1 key_k) ≡ false }
    ensures child { is_writable (node_rights writing_children 2 key_k) ≡ true }
{}

/// It isn't a grandchild's: that takes what it is marked with itself, gathered where its class
/// takes the key.
#[tactic(auto, unfolding(crate::specs::Paths::path))]
pub fn grandchildren_are_no_children()
    ensures class { locks reading_children 1 ≡ read_lock 0 ∷ [] }
    ensures inner { locks reading_children 2 ≡ write_lock 1 ∷ [] }
    ensures test { locks reading_children 3 ≡ [] }
    ensures marks { kind_marks (row_at reading_children 3).kind ≡ [] }
    ensures forced { mode reading_children concurrent_by_default 4 ≡ SameThread }
{}

/// Of marks of one key for one target the stronger counts, where the first of them stands.
pub fn marks_of_one_key_are_one()
    ensures stronger { merged (reads key_k ∷ reads key_l ∷ writes key_k ∷ [])
        ≡ writes key_k ∷ reads key_l ∷ [] }
    ensures weaker { merged (writes key_k ∷ reads key_k ∷ []) ≡ writes key_k ∷ [] }
    ensures apart { merged (reads key_k ∷ for_children (writes key_k) ∷ [])
        ≡ reads key_k ∷ for_children (writes key_k) ∷ [] }
{}

/// Keys are numbered where the mark is written.
pub fn keys_are_numbered_where_they_are_written()
    ensures { keys keys_of_children ≡ global_key ∷ key_k ∷ key_l ∷ [] }
{}

/// A key's lead is the lowest key that each node takes alike: not one that a node takes in another
/// access, nor one that some of the nodes alone take alike. Keys that no node takes are alike.
#[tactic(auto, unfolding(crate::specs::Paths::path))]
pub fn the_lowest_of_keys_that_are_taken_alike_leads()
    ensures alike { are_alike keys_of_children 2 0 ≡ true }
    ensures lowest { lead keys_of_children 2 ≡ 0 }
    ensures access { lead keys_of_children 1 ≡ 1 }
    ensures locks { lead_locks keys_of_children 1 ≡ read_lock 0 ∷ write_lock 1 ∷ [] }
    ensures some_nodes { lead nested 2 ≡ 2 }
    ensures untaken { lead keys_of_no_node 1 ≡ 1 }
    ensures both_untaken { lead keys_of_no_node 2 ≡ 1 }
{}

/// Nodes conflict where they take one key and one of them takes it for READ_WRITE.
#[tactic(auto, unfolding(crate::specs::Paths::path))]
pub fn writers_conflict()
    ensures class { locks nested 2 ≡ read_lock 1 ∷ read_lock 2 ∷ [] }
    ensures test { locks nested 4 ≡ write_lock 2 ∷ [] }
    ensures conflict { conflict nested 2 4 ≡ true }
    ensures readers { conflict two_classes 1 3 ≡ false }
    ensures others { conflict nested 1 4 ≡ false }
{}

/// Of held nodes it is counted how many read and how many write each key. A node is excluded by one
/// that writes a key which it takes, and by one that reads a key which it writes, as long as that
/// is held; readers don't exclude each other.
#[tactic(auto, unfolding(crate::specs::Paths::path))]
pub fn held_nodes_are_counted_by_key()
    ensures class_reads { takers writing_children class_and_test Read 0 ≡ 1 }
    ensures test_writes { takers writing_children class_and_test Write 1 ≡ 1 }
    ensures none_reads { takers writing_children class_and_test Read 1 ≡ 0 }
    ensures excluded { lowest_in_the_way writing_children (is_held class_and_test) 3 ≡ Some 2 }
    ensures released { lowest_in_the_way writing_children
        (is_held (slice_set class_and_test 2 false)) 3 ≡ None }
    ensures both_read { takers two_classes first_and_second Read 0 ≡ 2 }
    ensures readers { lowest_in_the_way two_classes (is_held first_and_second) 1 ≡ None }
{}

/// The descendants of a node that takes a key for READ_WRITE are on the same thread, and that node
/// itself need not be.
#[tactic(auto, unfolding(crate::specs::Paths::path))]
pub fn descendants_of_a_writer_are_forced()
    ensures cart { mode cart_and_desk concurrent_by_default 1 ≡ Concurrent }
    ensures marked { mode cart_and_desk concurrent_by_default 2 ≡ SameThread }
    ensures desk { mode cart_and_desk concurrent_by_default 4 ≡ Concurrent }
    ensures test { mode cart_and_desk concurrent_by_default 5 ≡ SameThread }
    ensures deep { mode cart_and_desk concurrent_by_default 7 ≡ SameThread }
{}

/// The nearest mark counts, then the default: one for top-level classes, another for all other
/// nodes.
#[tactic(auto, unfolding(crate::specs::Paths::path))]
pub fn nearest_mark_counts()
    ensures nearest { mode nested concurrent_by_default 3 ≡ SameThread }
    ensures outer { mode nested concurrent_classes 4 ≡ Concurrent }
    ensures marked { mode loose concurrent_by_default 3 ≡ SameThread }
    ensures enclosing { mode loose concurrent_by_default 4 ≡ SameThread }
    ensures class { mode loose concurrent_classes 1 ≡ Concurrent }
    ensures test { mode loose concurrent_classes 2 ≡ SameThread }
    ensures other { mode loose concurrent_by_default 2 ≡ Concurrent }
    ensures off { mode loose one_thread 1 ≡ SameThread }
    ensures root { mode loose concurrent_by_default 0 ≡ SameThread }
{}

/// A node's path is the names on the way down to it. A title is none, and neither is a part of a
/// path.
#[tactic(auto, unfolding(crate::specs::Paths::path))]
pub fn paths_are_of_names()
    ensures root { path_text two_classes 0 ≡ [] }
    ensures class { path_text two_classes 3 ≡ codes "shop.B" }
    ensures test { path_text cart_and_desk 7 ≡ codes "shop.Desk.Till.d" }
    ensures found { found two_classes (codes "shop.B.t") ≡ Some 4 }
    ensures name { found titled (codes "shop.A.t") ≡ Some 2 }
    ensures title { found titled (codes "shop.B.u") ≡ None }
    ensures part { found two_classes (codes "B.t") ≡ None }
    ensures empty { found two_classes [] ≡ None }
{}

/// The descendants of a top-level class, at any depth, have it as their top-level class.
#[tactic(auto, unfolding(crate::specs::Paths::path))]
pub fn top_level_classes_are_known_at_each_depth()
    ensures { all_top_classes cart_and_desk ≡ 0 ∷ 1 ∷ 1 ∷ 1 ∷ 4 ∷ 4 ∷ 4 ∷ 4 ∷ [] }
{}

/// A named node is kept with its descendants and its enclosing classes, numbered anew.
/// Keys are gathered of what is kept.
#[tactic(auto, unfolding(crate::specs::Paths::path))]
pub fn named_nodes_are_kept()
    ensures test { those_below (is_kept cart_and_desk (codes "shop.Desk.Till.d" ∷ [])) 8
        ≡ 0 ∷ 4 ∷ 6 ∷ 7 ∷ [] }
    ensures class { those_below (is_kept cart_and_desk (codes "shop.Cart" ∷ [])) 8
        ≡ 0 ∷ 1 ∷ 2 ∷ 3 ∷ [] }
    ensures both { those_below (is_kept cart_and_desk
        (codes "shop.Desk.c" ∷ codes "shop.Cart.a" ∷ [])) 8 ≡ 0 ∷ 1 ∷ 2 ∷ 4 ∷ 5 ∷ [] }
    ensures all { those_below (is_kept two_classes []) 5 ≡ 0 ∷ 1 ∷ 2 ∷ 3 ∷ 4 ∷ [] }
    ensures numbers { children (selection cart_and_desk (codes "shop.Desk.Till.d" ∷ [])) 1
        ≡ 2 ∷ [] }
    ensures locks { locks (selection cart_and_desk (codes "shop.Cart.a" ∷ [])) 1
        ≡ read_lock 0 ∷ read_lock 1 ∷ [] }
    ensures mode { mode (selection cart_and_desk (codes "shop.Cart.a" ∷ [])) concurrent_by_default 2
        ≡ Concurrent }
{}

/// The first path that names no node is told; an empty one names none.
#[tactic(auto, unfolding(crate::specs::Paths::path))]
pub fn first_unknown_path_is_told()
    ensures first { first_unknown two_classes (codes "shop.A" ∷ codes "shop.C" ∷ codes "shop" ∷ [])
        ≡ Some 1 }
    ensures empty { first_unknown two_classes ([] ∷ []) ≡ Some 0 }
    ensures none { first_unknown two_classes (codes "shop.A.t" ∷ []) ≡ None }
{}
