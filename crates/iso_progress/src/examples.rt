//! Worked examples of the definitions, as public laws that the checker computes.
ghost use Rattle.std.specs.Prelude.{◌≡◌, [], ◌∷◌, ◌++◌, eqb, false, not, true, None, Some};
ghost use Rattle.iso_isolation.specs.Events.{Enter, Leave, Shut, Step};
ghost use Rattle.iso_isolation.specs.ExampleRuns.{barred_class, closing, finished, live, opened, over, waiting};
ghost use Rattle.iso_isolation.specs.Examples.{counting};
ghost use Rattle.iso_isolation.specs.States.{first};
ghost use Rattle.iso_progress.specs.Examples.{ComesToAStand, after_in, both_opened, by_candidates, candidate_after, candidate_at, crossed_rows, failed, is_complete_in, is_run_in, isolated_opened, mall, mall_rows, nested_rows, one_by_one, outer_done, rooted_rows, suite_in, writer_opened};
ghost use Rattle.iso_progress.specs.NeverStuck.{IsReached};
ghost use Rattle.iso_progress.specs.ProgressLaws.{HoldersGather, RootIsFree, TestsHoldNone};

/// From candidate to candidate a suite comes to its end, node by node; then there is none.
pub fn candidates_lead_to_the_end()
    ensures events { by_candidates 40 (first counting mall) ≡ one_by_one }
    ensures run { is_run_in mall_rows one_by_one ≡ true }
    ensures complete { is_complete_in mall_rows one_by_one ≡ true }
    ensures end { candidate_after one_by_one ≡ None }
    ensures unfinished { is_complete_in mall_rows isolated_opened ≡ false }
{}

/// The candidate is of the lowest worker with a body, goes by locks, and is the owner's: in an
/// isolated class its test and not a class that waits for it, and by the worker that entered it.
pub fn candidate_keeps_locks_and_owners()
    ensures body { candidate_after (Enter 1 1 ∷ []) ≡ Some (Step 1) }
    ensures ended { candidate_after (Enter 1 1 ∷ Step 1 ∷ []) ≡ Some (Leave 1) }
    ensures lower { candidate_after (Enter 1 1 ∷ Enter 0 7 ∷ []) ≡ Some (Step 0) }
    ensures isolated { candidate_after isolated_opened ≡ Some (Enter 1 6) }
    ensures shut { candidate_after (isolated_opened ++ Enter 1 6 ∷ Step 1 ∷ Leave 1 ∷ [])
        ≡ Some (Shut 1 5) }
    ensures writer { candidate_after writer_opened ≡ Some (Enter 1 3) }
    ensures failed { candidate_after failed ≡ Some (Shut 1 7) }
    ensures closing { candidate_after (failed ++ Shut 1 7 ∷ []) ≡ Some (Step 1) }
{}

/// Node 6 is a child of node 3, and all others of node 1. Before a SAME_THREAD node its earlier
/// SAME_THREAD siblings are finished, a barred class is shut whatever waits in it, and none is left
/// after a stop.
pub fn candidate_keeps_the_order_of_siblings()
    ensures same_thread { candidate_at (λ n. true)
        (opened ∷ opened ∷ finished ∷ opened ∷ waiting ∷ finished ∷ waiting ∷ finished ∷ []) false
        ≡ Some (Enter 1 6) }
    ensures concurrent { candidate_at (λ n. not (eqb n 4))
        (opened ∷ opened ∷ finished ∷ opened ∷ waiting ∷ finished ∷ waiting ∷ finished ∷ []) false
        ≡ Some (Enter 1 4) }
    ensures barred { candidate_at (λ n. true)
        (opened ∷ opened ∷ finished ∷ barred_class ∷ waiting ∷ finished ∷ waiting ∷ finished ∷ [])
        false ≡ Some (Shut 1 3) }
    ensures childless { candidate_at (λ n. true)
        (opened ∷ opened ∷ opened ∷ opened ∷ waiting ∷ finished ∷ waiting ∷ finished ∷ []) false
        ≡ Some (Shut 1 2) }
    ensures live { candidate_at (λ n. true)
        (opened ∷ opened ∷ opened ∷ opened ∷ live ∷ finished ∷ waiting ∷ finished ∷ []) false
        ≡ Some (Step 0) }
    ensures over { candidate_at (λ n. true)
        (opened ∷ opened ∷ opened ∷ opened ∷ over ∷ finished ∷ waiting ∷ finished ∷ []) false
        ≡ Some (Leave 0) }
    ensures stopped { candidate_at (λ n. true)
        (opened ∷ opened ∷ opened ∷ opened ∷ live ∷ finished ∷ waiting ∷ finished ∷ []) true
        ≡ None }
{}

/// Each law of `ProgressLaws` is needed: a suite that keeps all but it deadlocks. Two classes
/// cross, of which each holds what a test of the other waits for; a test is a child of a test; and
/// a root takes a key.
pub fn each_law_is_needed()
    ensures crossed { ComesToAStand crossed_rows both_opened }
    ensures crossed_root { RootIsFree (suite_in crossed_rows) }
    ensures crossed_tests { TestsHoldNone counting (suite_in crossed_rows) }
    ensures nested { ComesToAStand nested_rows outer_done }
    ensures nested_root { RootIsFree (suite_in nested_rows) }
    ensures nested_gathered { HoldersGather (suite_in nested_rows) }
    ensures rooted { ComesToAStand rooted_rows [] }
    ensures rooted_gathered { HoldersGather (suite_in rooted_rows) }
    ensures rooted_tests { TestsHoldNone counting (suite_in rooted_rows) }
{}

/// What the laws ask of a state is met: a run reaches it.
pub fn states_are_reached()
    ensures { IsReached counting mall 2 (after_in mall_rows isolated_opened) }
{}
