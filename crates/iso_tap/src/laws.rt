//! Laws of reports, over any tree of nodes. Each function does nothing: its contract is the law,
//! and is proved.
ghost use Rattle.std.specs.Prelude.{◌≡◌, ◌<◌, ◌+◌, ◌&&◌, ◌++◌, ℕ, List, length};
ghost use Rattle.std.specs.List.{list_all};
ghost use Rattle.iso_model.specs.declared.outcome.Outcome.{Outcome};
ghost use Rattle.iso_plan.specs.Paths.{IsTree, children, row_at};
ghost use Rattle.iso_plan.specs.Tree.{Row};
ghost use Rattle.iso_tap.specs.ReportBlocks.{point};
ghost use Rattle.iso_tap.specs.ReportLines.{is_ok_verdict};
ghost use Rattle.iso_tap.specs.Reports.{is_ok, reported, subtest};

/// What is reported of a node is its subtest, in which its children are reported four spaces
/// further in, and then its point.
pub fn reports_go_down_the_tree()
    ensures { (tree : List Row) (outcome : ℕ → Outcome) → IsTree tree → (indent number n : ℕ)
        → 0 < n → n < length tree
        → reported tree outcome indent number n
        ≡ subtest indent (row_at tree n) (reported tree outcome (indent + 4)) (children tree n)
        ++ point indent number (is_ok tree outcome n) (row_at tree n).title (outcome n) }
{}

/// A point is ok where the node's own verdict lets it and all its children's points are ok.
pub fn points_are_ok_with_those_below()
    ensures { (tree : List Row) (outcome : ℕ → Outcome) → IsTree tree → (n : ℕ) → 0 < n
        → n < length tree
        → is_ok tree outcome n
        ≡ (is_ok_verdict (outcome n).verdict && list_all (is_ok tree outcome) (children tree n)) }
{}
