//! Worked examples of the definitions, as public laws.
ghost use Rattle.std.specs.Prelude.{◌≡◌, [], ◌∷◌, codes};
ghost use Rattle.iso_conflicts.specs.Chains.{class_chain, key_chain, tests_in};
ghost use Rattle.iso_conflicts.specs.ConflictsText.{conflicts_text, last_line};
ghost use Rattle.iso_conflicts.specs.Examples.{lines};
ghost use Rattle.iso_conflicts.specs.Takers.{takers};
ghost use Rattle.iso_model.specs.declared.access.Access.TheVariants.{Read, Write};
ghost use Rattle.iso_plan.specs.Examples.{cart_and_desk, concurrent_by_default, concurrent_classes, loose, nested, one_thread, two_classes};

/// Each key has the nodes that take it, and the tests that wait for one another: those of all that
/// write it, and of the largest that reads it.
pub fn keys_have_their_takers()
    ensures { conflicts_text cart_and_desk concurrent_by_default 2 ≡ lines
        (codes "workers 2"
        ∷ codes "iso:global: longest chain 4 tests"
        ∷ codes "    write: shop.Desk"
        ∷ codes "    read: shop.Cart"
        ∷ codes "K: longest chain 2 tests"
        ∷ codes "    write: shop.Cart"
        ∷ codes "longest chain of all: 4 tests, key iso:global"
        ∷ []) }
{}

/// Of several readers the largest alone counts, and of writers all.
pub fn one_reader_counts()
    ensures readers { takers two_classes Read 0 ≡ 1 ∷ 3 ∷ [] }
    ensures global { key_chain two_classes 0 ≡ 1 }
    ensures both { key_chain nested 2 ≡ 2 }
    ensures reader { takers nested Read 2 ≡ 2 ∷ [] }
    ensures writer { takers nested Write 2 ≡ 4 ∷ [] }
{}

/// A class has the tests of all its descendants; its chain those of its children on the same
/// thread.
pub fn children_on_one_thread_are_a_chain()
    ensures inside { tests_in cart_and_desk 4 ≡ 2 }
    ensures test { tests_in cart_and_desk 2 ≡ 1 }
    ensures forced { class_chain cart_and_desk concurrent_by_default 1 ≡ 2 }
    ensures apart { class_chain nested concurrent_by_default 1 ≡ 1 }
    ensures root { class_chain cart_and_desk concurrent_by_default 0 ≡ 0 }
    ensures one_thread { class_chain cart_and_desk one_thread 0 ≡ 4 }
{}

/// The longest is a class's where a key's is no longer, and the first of several.
pub fn first_of_the_longest_is_told()
    ensures root { last_line cart_and_desk one_thread
        ≡ codes "longest chain of all: 4 tests, top-level classes\n" }
    ensures class { last_line two_classes concurrent_classes
        ≡ codes "longest chain of all: 1 test, class shop.A\n" }
    ensures key { last_line loose concurrent_by_default
        ≡ codes "longest chain of all: 2 tests, key iso:global\n" }
{}
