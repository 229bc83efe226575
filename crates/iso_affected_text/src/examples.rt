//! Worked examples of the definitions, as public laws.
ghost use Rattle.std.specs.Prelude.{◌≡◌, [], ◌∷◌, codes};
ghost use Rattle.iso_affected_text.specs.Examples.{last_of_all, moved_row, some_rows};
ghost use Rattle.iso_affected_text.specs.Texts.{affected_text, paths_text, row_text};
ghost use Rattle.iso_summary.specs.Examples.{text_of};

/// Each row is a line, and behind them all stands how many tests have which fate.
pub fn rows_are_lines()
    ensures { affected_text some_rows last_of_all ≡ text_of
        ("changed shop.Cart.adds"
        ∷ "  test: cart.jtap:12: was 11: assert_equal 6, price + 2;"
        ∷ "changed shop.Env.reads"
        ∷ "  before_each of shop.Env: env.jtap:7: was 7: set_prop \"mode\", \"fast\";"
        ∷ "  start of java.lang.System.properties: db.url"
        ∷ "new shop.Cart.removes"
        ∷ "gone shop.Cart.deletes"
        ∷ "4 of 401 tests can have another result than in ../base: 2 changed, 1 new, 1 gone; 397 have the same, by proof"
        ∷ []) }
{}

/// The paths to run again are those of changed and new nodes.
pub fn paths_are_of_changed_and_new_nodes()
    ensures { paths_text some_rows ≡ text_of
        ("shop.Cart.adds" ∷ "shop.Env.reads" ∷ "shop.Cart.removes" ∷ []) }
{}

/// Where a block was in another file, that is named.
pub fn other_files_are_named()
    ensures { row_text moved_row ≡ codes "  test: b.jtap:4: was a.jtap:9: print 1;\n" }
{}
