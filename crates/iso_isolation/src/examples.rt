//! Worked examples of the definitions, as public laws that the checker computes.

ghost use Rattle.std.specs.Prelude.{◌≡◌, [], ◌∷◌, ◌++◌, eqb, false, true, Some, None};
ghost use Rattle.iso_isolation.specs.Alone.{restricted, run_alone};
ghost use Rattle.iso_isolation.specs.Events.{Enter, Step, Leave, Shut};
ghost use Rattle.iso_isolation.specs.Examples.{class_head, counting, numbers, shop, test_head};
ghost use Rattle.iso_isolation.specs.ExampleRuns.{all_but_8, barred, barred_class, barred_to_its_end, begun_shop, both_left, by_itself, came_to, closed_first, closed_history, closed_in_full, closing, entered_both, entered_reader, finished, history, in_full, is_run_of_shop, is_whole, is_written_after, kiosk, last_opened_after, late_steps, live, node_of_worker, opened, opened_both, opened_by_1, over, readers, refused_after, side_by_side, standing_after, value_after, value_after_history, waiting, whole, why, why_first, why_stopped, why_test, why_where};
ghost use Rattle.iso_isolation.specs.Histories.{IsHistory, SameHistory};
ghost use Rattle.iso_isolation.specs.Isolation.{AgreeOn, Gives};
ghost use Rattle.iso_isolation.specs.Refusals as Why;
ghost use Rattle.iso_isolation.specs.Runs.{full, history_of};

/// What the nodes of the example come to by themselves: a class opens on what the class around it
/// left, a test runs on what its class left, `after_all` goes on from `before_all`, and nothing
/// runs under a class whose `before_all` failed.
pub fn chains_run_alone()
    ensures class { by_itself 1 ≡ Some (Some 7 ∷ Some 8 ∷ []) }
    ensures test { by_itself 2 ≡ Some (Some 7 ∷ Some 8 ∷ Some 9 ∷ []) }
    ensures nested { run_alone counting (test_head 2 false false 1 ∷ class_head 2 true true
        ∷ class_head 2 true true ∷ []) numbers
        ≡ Some (Some 7 ∷ Some 8 ∷ Some 9 ∷ []) }
    ensures undeclared { by_itself 4 ≡ Some (None ∷ None ∷ []) }
    ensures writer { by_itself 5 ≡ Some (None ∷ Some 5 ∷ Some 6 ∷ []) }
    ensures reader { by_itself 6 ≡ Some (None ∷ Some 5 ∷ []) }
    ensures failed { by_itself 8 ≡ Some (None ∷ None ∷ []) }
    ensures blocked { by_itself 10 ≡ None }
    ensures own_key { restricted (eqb 2) numbers 2 ≡ Some 7 }
    ensures other_key { restricted (eqb 2) numbers 1 ≡ None }
{}

/// Bodies of two workers, one step of the one after one of the other: each result is that of the
/// chain alone, a test's values are put back when it leaves, and a class's when its `after_all`
/// leaves.
pub fn bodies_run_side_by_side()
    ensures accepted { is_run_of_shop closed_first ≡ true }
    ensures first { came_to both_left 2 ≡ Some (Some (Some 7 ∷ Some 8 ∷ Some 9 ∷ [])) }
    ensures second { came_to both_left 5 ≡ Some (Some (None ∷ Some 5 ∷ Some 6 ∷ [])) }
    ensures under_way { node_of_worker side_by_side 0 ≡ Some 2 }
    ensures free { node_of_worker both_left 0 ≡ None }
    ensures unfinished { came_to side_by_side 2 ≡ None }
    ensures changed { value_after side_by_side 1 ≡ Some 7 }
    ensures put_back { value_after both_left 1 ≡ Some 5 }
    ensures others_stay { value_after (side_by_side ++ Leave 0 ∷ []) 1 ≡ Some 7 }
    ensures left_by_the_class { value_after both_left 2 ≡ Some 8 }
    ensures readers_left { came_to readers 6 ≡ Some (Some (None ∷ Some 5 ∷ [])) }
    ensures sibling { came_to closed_first 3 ≡ Some (Some (Some 7 ∷ Some 8 ∷ [])) }
    ensures closed { came_to (closed_first ++ Leave 0 ∷ []) 1 ≡ Some (Some (Some 7 ∷ Some 8 ∷ [])) }
    ensures at_its_start { value_after (closed_first ++ Leave 0 ∷ []) 2 ≡ Some 7 }
{}

/// Under a class whose `before_all` failed all is finished at its Leave, and the class is shut at
/// once.
pub fn barred_class_runs_nothing()
    ensures below { came_to barred 10 ≡ Some None }
    ensures child { came_to barred 9 ≡ Some None }
    ensures elsewhere { came_to barred 2 ≡ None }
    ensures itself { came_to barred 8 ≡ None }
    ensures child_refused { refused_after barred (Enter 0 9) ≡ Some Why.ParentClosed }
    ensures accepted { is_run_of_shop barred_to_its_end ≡ true }
    ensures closed { came_to barred_to_its_end 8 ≡ Some (Some (None ∷ None ∷ [])) }
{}

/// A run is whole when all nodes but the root have finished; then every key stands at its start.
pub fn run_is_whole_when_all_nodes_have_finished()
    ensures accepted { is_run_of_shop whole ≡ true }
    ensures whole { is_whole whole ≡ true }
    ensures unfinished { is_whole closed_first ≡ false }
    ensures closing { is_whole (all_but_8 ++ barred ++ Shut 2 8 ∷ Step 2 ∷ []) ≡ false }
    ensures barred { is_whole (all_but_8 ++ barred) ≡ false }
    ensures one { value_after whole 1 ≡ Some 5 }
    ensures two { value_after whole 2 ≡ Some 7 }
{}

/// What the locks and the order of siblings refuse: a reader beside a writer, the lowest holder
/// named, and a forced test before its earlier sibling has finished.
pub fn locks_and_siblings_are_waited_for()
    ensures reader_beside_writer { refused_after (opened_both ++ Enter 1 5 ∷ []) (Enter 2 6)
        ≡ Some (Why.LockHeld 5) }
    ensures writer_beside_readers { refused_after (opened_both ++ Enter 1 7 ∷ Enter 2 6 ∷ [])
        (Enter 0 5) ≡ Some (Why.LockHeld 6) }
    ensures readers { refused_after (opened_both ++ Enter 1 7 ∷ []) (Enter 2 6) ≡ None }
    ensures other_key { refused_after (opened_both ++ Enter 0 2 ∷ []) (Enter 1 5) ≡ None }
    ensures sibling { refused_after opened_both (Enter 0 3) ≡ Some Why.EarlierSibling }
    ensures stranger { refused_after opened_both (Enter 2 2) ≡ Some Why.NotOwner }
    ensures unshut { refused_after both_left (Shut 0 1) ≡ Some Why.ChildrenLeft }
    ensures after_the_last { refused_after closed_first (Leave 0) ≡ None }
{}

/// A history in full has before each Leave the steps that its body still needs; without them it is
/// the history again. After it a key stands where the last opening of its writer left it, whatever
/// bodies are under way.
pub fn history_in_full_has_the_steps_before_each_leave()
    ensures full { full counting shop begun_shop history ≡ in_full }
    ensures accepted { is_run_of_shop in_full ≡ true }
    ensures history { history_of in_full ≡ history }
    ensures closed { full counting shop begun_shop closed_history ≡ closed_in_full }
    ensures closed_accepted { is_run_of_shop closed_in_full ≡ true }
    ensures left_by_the_class { value_after_history entered_both 2 ≡ Some 8 }
    ensures at_its_start { value_after_history entered_both 1 ≡ Some 5 }
    ensures class { last_opened_after entered_both 2 ≡ Some 1 }
    ensures no_class { last_opened_after entered_both 1 ≡ None }
    ensures finished_class { last_opened_after closed_history 2 ≡ None }
    ensures standing { standing_after entered_both 2 ≡ Some 8 }
    ensures standing_at_start { standing_after entered_both 1 ≡ Some 5 }
    ensures gathered { is_written_after entered_both 2 ≡ true }
    ensures own { is_written_after entered_both 1 ≡ true }
    ensures unwritten { is_written_after closed_history 2 ≡ false }
    ensures read { is_written_after entered_reader 1 ≡ false }
{}

/// Worker 0 owns the root, so it enters the top-level classes that are SAME_THREAD; and the worker
/// that entered a class owns it, so it enters the class's SAME_THREAD children.
pub fn owner_enters_same_thread_children()
    ensures top_level { why_first (Enter 0 1) ≡ None }
    ensures of_root { why_first (Enter 1 1) ≡ Some Why.NotOwner }
    ensures child { refused_after opened_by_1 (Enter 1 2) ≡ None }
    ensures of_class { refused_after opened_by_1 (Enter 0 2) ≡ Some Why.NotOwner }
{}

/// Of the kinds that apply to an Enter the first is answered. Node 3 is entered by worker 1, in a
/// class that worker 0 owns.
pub fn enter_is_refused_by_the_first_kind()
    ensures stopped { why_stopped (barred_class ∷ barred_class ∷ waiting ∷ finished ∷ live ∷ live
        ∷ []) 0 (Enter 9 99) ≡ Some Why.Stopped }
    ensures stopped_first { why_stopped (barred_class ∷ barred_class ∷ waiting ∷ finished ∷ live
        ∷ live ∷ []) 0 (Enter 0 3) ≡ Some Why.Stopped }
    ensures no_worker { why (barred_class ∷ barred_class ∷ waiting ∷ finished ∷ live ∷ live ∷ []) 0
        (Enter 9 99) ≡ Some Why.NoWorker }
    ensures no_worker_first { why (barred_class ∷ barred_class ∷ waiting ∷ finished ∷ live ∷ live
        ∷ []) 0 (Enter 9 3) ≡ Some Why.NoWorker }
    ensures no_node { why (barred_class ∷ barred_class ∷ waiting ∷ finished ∷ live ∷ live ∷ []) 0
        (Enter 0 99) ≡ Some Why.NoNode }
    ensures no_node_first { why (barred_class ∷ barred_class ∷ waiting ∷ finished ∷ live ∷ live
        ∷ []) 0 (Enter 1 99) ≡ Some Why.NoNode }
    ensures worker_busy { why (barred_class ∷ barred_class ∷ waiting ∷ finished ∷ live ∷ live ∷ [])
        0 (Enter 0 3) ≡ Some Why.WorkerBusy }
    ensures parent_closed { why (barred_class ∷ barred_class ∷ waiting ∷ finished ∷ live ∷ live
        ∷ []) 0 (Enter 1 3) ≡ Some Why.ParentClosed }
    ensures already_entered { why (opened ∷ opened ∷ waiting ∷ finished ∷ live ∷ live ∷ []) 0
        (Enter 1 3) ≡ Some Why.AlreadyEntered }
    ensures not_owner { why (opened ∷ opened ∷ waiting ∷ waiting ∷ live ∷ live ∷ []) 0 (Enter 1 3)
        ≡ Some Why.NotOwner }
    ensures earlier_sibling { why (opened ∷ opened ∷ waiting ∷ waiting ∷ live ∷ live ∷ []) 1
        (Enter 1 3) ≡ Some Why.EarlierSibling }
    ensures lock_held { why (opened ∷ opened ∷ finished ∷ waiting ∷ live ∷ live ∷ []) 1 (Enter 1 3)
        ≡ Some (Why.LockHeld 4) }
    ensures none { why (opened ∷ opened ∷ finished ∷ waiting ∷ finished ∷ finished ∷ []) 1
        (Enter 1 3) ≡ None }
{}

/// Of the kinds that apply to a Step or a Leave the first is answered.
pub fn step_and_leave_are_refused_by_the_first_kind()
    ensures stopped { why_stopped (opened ∷ opened ∷ waiting ∷ waiting ∷ over ∷ []) 0 (Step 7)
        ≡ Some Why.Stopped }
    ensures stopped_first { why_stopped (opened ∷ opened ∷ waiting ∷ waiting ∷ over ∷ []) 0 (Step 0)
        ≡ Some Why.Stopped }
    ensures no_worker { why (opened ∷ opened ∷ waiting ∷ waiting ∷ over ∷ []) 0 (Step 7)
        ≡ Some Why.NoWorker }
    ensures no_worker_first { why (opened ∷ opened ∷ waiting ∷ waiting ∷ over ∷ []) 0 (Step 9)
        ≡ Some Why.NoWorker }
    ensures no_body { why (opened ∷ opened ∷ waiting ∷ waiting ∷ over ∷ []) 0 (Step 1)
        ≡ Some Why.NoBody }
    ensures body_ended { why (opened ∷ opened ∷ waiting ∷ waiting ∷ over ∷ []) 0 (Step 0)
        ≡ Some Why.BodyEnded }
    ensures step { why (opened ∷ opened ∷ waiting ∷ waiting ∷ live ∷ []) 0 (Step 0) ≡ None }
    ensures leave_stopped { why_stopped (opened ∷ opened ∷ waiting ∷ waiting ∷ live ∷ []) 0
        (Leave 0) ≡ Some Why.Stopped }
    ensures leave_no_worker { why (opened ∷ opened ∷ waiting ∷ waiting ∷ live ∷ []) 0 (Leave 7)
        ≡ Some Why.NoWorker }
    ensures leave_no_worker_first { why (opened ∷ opened ∷ waiting ∷ waiting ∷ live ∷ []) 0
        (Leave 9) ≡ Some Why.NoWorker }
    ensures leave_no_body { why (opened ∷ opened ∷ waiting ∷ waiting ∷ live ∷ []) 0 (Leave 1)
        ≡ Some Why.NoBody }
    ensures body_not_ended { why (opened ∷ opened ∷ waiting ∷ waiting ∷ live ∷ []) 0 (Leave 0)
        ≡ Some Why.BodyNotEnded }
    ensures closing_ended { why (opened ∷ opened ∷ waiting ∷ waiting ∷ closing ∷ []) 0 (Step 0)
        ≡ Some Why.BodyEnded }
    ensures leave { why (opened ∷ opened ∷ waiting ∷ waiting ∷ over ∷ []) 0 (Leave 0) ≡ None }
{}

/// Of the kinds that apply to a Shut the first is answered. Node 6 is a child of node 3.
pub fn shut_is_refused_by_the_first_kind()
    ensures stopped { why_stopped (opened ∷ opened ∷ waiting ∷ opened ∷ live ∷ live ∷ waiting ∷ [])
        0 (Shut 9 99) ≡ Some Why.Stopped }
    ensures stopped_first { why_stopped (opened ∷ opened ∷ waiting ∷ opened ∷ live ∷ live ∷ waiting
        ∷ []) 0 (Shut 0 3) ≡ Some Why.Stopped }
    ensures no_worker { why_test (opened ∷ opened ∷ waiting ∷ opened ∷ live ∷ live ∷ waiting ∷ []) 0
        (Shut 9 99) ≡ Some Why.NoWorker }
    ensures no_worker_first { why_test (opened ∷ opened ∷ waiting ∷ opened ∷ live ∷ live ∷ waiting
        ∷ []) 0 (Shut 9 3) ≡ Some Why.NoWorker }
    ensures no_node { why_test (opened ∷ opened ∷ waiting ∷ opened ∷ live ∷ live ∷ waiting ∷ []) 0
        (Shut 0 99) ≡ Some Why.NoNode }
    ensures no_node_first { why_test (opened ∷ opened ∷ waiting ∷ opened ∷ live ∷ live ∷ waiting
        ∷ []) 0 (Shut 1 99) ≡ Some Why.NoNode }
    ensures worker_busy { why_test (opened ∷ opened ∷ waiting ∷ opened ∷ live ∷ live ∷ waiting ∷ [])
        0 (Shut 0 3) ≡ Some Why.WorkerBusy }
    ensures busy_before_open { why_test (opened ∷ opened ∷ waiting ∷ live ∷ live ∷ live ∷ waiting
        ∷ []) 0 (Shut 0 3) ≡ Some Why.WorkerBusy }
    ensures not_class { why_test (opened ∷ opened ∷ waiting ∷ live ∷ live ∷ live ∷ waiting ∷ []) 0
        (Shut 1 3) ≡ Some Why.NotClass }
    ensures class_before_children { why_test (opened ∷ opened ∷ waiting ∷ opened ∷ live ∷ live
        ∷ waiting ∷ []) 0 (Shut 1 3) ≡ Some Why.NotClass }
    ensures root { why (opened ∷ opened ∷ waiting ∷ waiting ∷ live ∷ []) 0 (Shut 1 0)
        ≡ Some Why.NotClass }
    ensures not_open { why (opened ∷ opened ∷ waiting ∷ live ∷ live ∷ live ∷ waiting ∷ []) 0
        (Shut 1 3) ≡ Some Why.NotOpen }
    ensures finished { why (opened ∷ opened ∷ waiting ∷ finished ∷ live ∷ live ∷ finished ∷ []) 1
        (Shut 1 3) ≡ Some Why.NotOpen }
    ensures not_owner { why (opened ∷ opened ∷ waiting ∷ opened ∷ live ∷ live ∷ waiting ∷ []) 0
        (Shut 1 3) ≡ Some Why.NotOwner }
    ensures children_left { why (opened ∷ opened ∷ waiting ∷ opened ∷ live ∷ live ∷ waiting ∷ []) 1
        (Shut 1 3) ≡ Some Why.ChildrenLeft }
    ensures none { why (opened ∷ opened ∷ waiting ∷ opened ∷ live ∷ live ∷ finished ∷ []) 1
        (Shut 1 3) ≡ None }
    ensures barred { why (opened ∷ opened ∷ waiting ∷ barred_class ∷ live ∷ live ∷ waiting ∷ []) 1
        (Shut 1 3) ≡ None }
{}

/// Where each kind of refusal begins and ends.
pub fn kinds_of_refusal_have_their_limits()
    ensures last_worker { why (opened ∷ opened ∷ finished ∷ waiting ∷ []) 2 (Enter 2 3)
        ≡ Some Why.NoWorker }
    ensures last_node { why (opened ∷ opened ∷ finished ∷ waiting ∷ []) 1 (Enter 1 8)
        ≡ Some Why.NoNode }
    ensures root { why (barred_class ∷ opened ∷ finished ∷ waiting ∷ []) 1 (Enter 1 0)
        ≡ Some Why.AlreadyEntered }
    ensures later_sibling { why (opened ∷ opened ∷ waiting ∷ waiting ∷ []) 1 (Enter 1 2) ≡ None }
    ensures no_sibling { why (opened ∷ opened ∷ finished ∷ finished ∷ finished ∷ finished ∷ waiting
        ∷ waiting ∷ []) 1 (Enter 1 7) ≡ None }
    ensures concurrent { why_where (λ n. eqb n 2) (opened ∷ opened ∷ waiting ∷ waiting ∷ []) 0
        (Enter 1 3) ≡ None }
    ensures concurrent_sibling { why_where (λ n. eqb n 3)
        (opened ∷ opened ∷ waiting ∷ waiting ∷ []) 1 (Enter 1 3) ≡ None }
    ensures sibling_under_way { why (opened ∷ opened ∷ live ∷ waiting ∷ []) 1 (Enter 1 3)
        ≡ Some Why.EarlierSibling }
    ensures open_sibling { why (opened ∷ opened ∷ opened ∷ waiting ∷ []) 1 (Enter 1 3)
        ≡ Some Why.EarlierSibling }
    ensures barred_sibling { why (opened ∷ opened ∷ barred_class ∷ waiting ∷ []) 1 (Enter 1 3)
        ≡ Some Why.EarlierSibling }
    ensures closing_sibling { why (opened ∷ opened ∷ closing ∷ waiting ∷ []) 1 (Enter 1 3)
        ≡ Some Why.EarlierSibling }
    ensures entered_twice { why (opened ∷ opened ∷ finished ∷ live ∷ []) 1 (Enter 1 3)
        ≡ Some Why.AlreadyEntered }
    ensures open_twice { why (opened ∷ opened ∷ finished ∷ opened ∷ []) 1 (Enter 1 3)
        ≡ Some Why.AlreadyEntered }
    ensures barred_twice { why (opened ∷ opened ∷ finished ∷ barred_class ∷ []) 1 (Enter 1 3)
        ≡ Some Why.AlreadyEntered }
    ensures closing_twice { why (opened ∷ opened ∷ finished ∷ closing ∷ []) 1 (Enter 1 3)
        ≡ Some Why.AlreadyEntered }
    ensures barred_child { why (opened ∷ opened ∷ barred_class ∷ []) 1 (Shut 1 1)
        ≡ Some Why.ChildrenLeft }
    ensures closing_child { why (opened ∷ opened ∷ closing ∷ []) 1 (Shut 1 1)
        ≡ Some Why.ChildrenLeft }
    ensures lowest_holder { why (opened ∷ opened ∷ finished ∷ waiting ∷ finished ∷ live ∷ waiting
        ∷ live ∷ []) 1 (Enter 1 3) ≡ Some (Why.LockHeld 5) }
    ensures open_holder { why (opened ∷ opened ∷ finished ∷ waiting ∷ opened ∷ []) 1 (Enter 1 3)
        ≡ Some (Why.LockHeld 4) }
    ensures barred_holder { why (opened ∷ opened ∷ finished ∷ waiting ∷ barred_class ∷ []) 1
        (Enter 1 3) ≡ Some (Why.LockHeld 4) }
    ensures closing_holder { why (opened ∷ opened ∷ finished ∷ waiting ∷ closing ∷ []) 1 (Enter 1 3)
        ≡ Some (Why.LockHeld 4) }
    ensures closing_parent { why (opened ∷ closing ∷ finished ∷ waiting ∷ []) 1 (Enter 1 3)
        ≡ Some Why.ParentClosed }
{}

/// What the laws ask of runs is met: a result that a run gives, two suites that agree on a chain
/// though they differ at a key that it has no right to, a history, and two runs with one history.
pub fn runs_give_what_the_laws_ask()
    ensures given { Gives counting shop 5 (Some (None ∷ Some 5 ∷ Some 6 ∷ [])) }
    ensures agree { AgreeOn counting shop kiosk 3 2 }
    ensures history { IsHistory counting shop 3 closed_history }
    ensures same_history { SameHistory counting shop 3 in_full late_steps }
{}
