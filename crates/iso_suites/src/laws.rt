//! Laws of the runs of every plan. Each function does nothing: its contract is the law, and is
//! proved.
ghost use Rattle.std.specs.Prelude.{◌≡◌, ◌∷◌, [], ℕ, List, None, Some, false, map, true};
ghost use Rattle.iso_suites.specs.PlanSuites.{IsClassAt, IsTestAt, Launch, MayEnd, launch, launched, suite_of};
ghost use Rattle.iso_suites.specs.ScriptLanguage.{of_class, of_test, scripts};
ghost use Rattle.iso_suites.specs.Selected.{KeepsResults};
ghost use Rattle.iso_suites.specs.SuiteStates.{GoesOnByLeave, booking_refusal, suite_at};
ghost use Rattle.iso_isolation.specs.Alone.{run_alone};
ghost use Rattle.iso_isolation.specs.Events.{Event, Leave};
ghost use Rattle.iso_isolation.specs.Histories.{EndLaws, GoesOn, IsHistory, SameHistory, has_no_step, is_being_written, standing_value, state_of};
ghost use Rattle.iso_isolation.specs.Languages.{BodyLaws};
ghost use Rattle.iso_isolation.specs.Refusals.{refusal};
ghost use Rattle.iso_isolation.specs.Refusals as Why;
ghost use Rattle.iso_isolation.specs.Runs.{after_all_of, is_accepted, result_of};
ghost use Rattle.iso_isolation.specs.States.{first};
ghost use Rattle.iso_isolation.specs.Suites.{SuiteLaws};
ghost use Rattle.iso_model.specs.ChainAgreement.{ClassesAgree, TestsAgree};
ghost use Rattle.iso_model.specs.Alone.{class_alone, test_alone};
ghost use Rattle.iso_model.specs.Chains.{ClassHead, TestHead, class_rights, test_rights};
ghost use Rattle.iso_model.specs.Resources.{Resources, restricted};
ghost use Rattle.iso_model.specs.Scripts.{Script};
ghost use Rattle.iso_model.specs.declared.outcome.Outcome.{Outcome};
ghost use Rattle.iso_plan.specs.RowView.{tree_of};
ghost use Rattle.iso_plan.specs.KeptNodes.{plan_tree, selection};
ghost use Rattle.iso_progress.specs.ProgressLaws.{ProgressLaws};
ghost use Rattle.iso_settings.specs.Worlds.{Start};

use iso_plan::laws;
use iso_plan::plan::Plan;

/// The isolation theorem: whatever scripts, or what some paths keep of them, settings and starting
/// values are run, on any number of workers and in any order of events that the locks allow, the
/// outcome of each finished test is that of the test run alone on the starting values of the keys
/// that it and its classes are marked with; and so is the outcome of each finished class.
pub fn outcomes_are_those_of_tests_and_classes_run_alone()
    ensures tests { (l : Launch) (n : ℕ) (t : TestHead) (cs : List ClassHead) (r : Outcome)
        → MayEnd l n r → IsTestAt l n t cs → r ≡ test_alone t cs l.start }
    ensures classes { (l : Launch) (n : ℕ) (c : ClassHead) (cs : List ClassHead) (r : Outcome)
        → MayEnd l n r → IsClassAt l n c cs → r ≡ class_alone c cs l.start }
{}

/// The suite of a plan with the nodes that some paths keep of scripts, as
/// `iso_plan::plan::build_only` answers it, is that of their launch.
pub fn plan_of_scripts_has_the_suite_of_their_launch(plan: &Plan)
    ensures { (written : List Script) (only : List (List ℕ)) (start : Resources) → tree_of plan.now
        ≡ plan_tree written only
        → suite_of (tree_of plan.now) plan.now.settings start
        ≡ launched (launch written only plan.now.settings start) }
{}

/// Running a few tests gives what they give in the whole run: a node that some paths keep of a plan
/// has in each run of the selected plan the outcome that it has in each run of the whole, on any
/// numbers of workers, in any orders of events that the locks allow and under whatever settings,
/// where the resources start alike at the keys that the node and the classes around it are marked
/// with.
pub fn selected_nodes_have_the_results_of_the_whole_run(whole: &Plan, selected: &Plan)
    ensures { (only : List (List ℕ)) → tree_of selected.now ≡ selection (tree_of whole.now) only
        → KeepsResults whole.now selected.now only }
{
    laws::nodes_are_a_tree(whole);
    laws::nodes_are_a_tree(selected);
    laws::selected_nodes_keep_their_chains(whole);
}

/// Tests, and classes, that agree on their heads, on those of the classes around them and on the
/// starting values of the keys that these are marked with have equal outcomes, whatever else is run
/// beside them, under whatever settings and in whatever order.
pub fn what_agrees_has_equal_outcomes()
    ensures tests { (l m : Launch) (i j : ℕ) (t u : TestHead) (cs ds : List ClassHead)
        (r q : Outcome)
        → IsTestAt l i t cs → IsTestAt m j u ds → TestsAgree t cs l.start u ds m.start
        → MayEnd l i r → MayEnd m j q → r ≡ q }
    ensures classes { (l m : Launch) (i j : ℕ) (c d : ClassHead) (cs ds : List ClassHead)
        (r q : Outcome)
        → IsClassAt l i c cs → IsClassAt m j d ds → ClassesAgree c cs l.start d ds m.start
        → MayEnd l i r → MayEnd m j q → r ≡ q }
{}

/// Tests, and classes, agree though their starting values differ at keys that neither they nor the
/// classes around them are marked with: each start agrees with what it says of the marked keys
/// alone.
pub fn agreement_is_at_marked_keys_alone()
    ensures tests { (t : TestHead) (cs : List ClassHead) (start : Resources)
        → TestsAgree t cs start t cs (restricted (test_rights t cs) start) }
    ensures classes { (c : ClassHead) (cs : List ClassHead) (start : Resources)
        → ClassesAgree c cs start c cs (restricted (class_rights (c ∷ cs)) start) }
{}

/// A history goes on by each event that is accepted after it, and by a Leave against which nothing
/// stands but the steps that its body still needs.
pub fn histories_go_on()
    ensures accepted { (l : Launch) (workers : ℕ) (h : List Event) (e : Event)
        → IsHistory scripts (launched l) workers h → has_no_step (e ∷ []) ≡ true
        → is_accepted scripts (launched l) workers (state_of scripts (launched l) h) e ≡ true
        → GoesOn scripts (launched l) workers h e }
    ensures leaves { (l : Launch) (workers : ℕ) (h : List Event) (w : ℕ)
        → IsHistory scripts (launched l) workers h
        → refusal scripts (launched l) workers (state_of scripts (launched l) h) (Leave w)
        ≡ Some Why.BodyNotEnded
        → GoesOn scripts (launched l) workers h (Leave w) }
{}

/// A history of a plan goes on by each Leave against which nothing stands but the steps that its
/// body still needs: those are made, and the body has ended.
pub fn histories_go_on_by_leaves(plan: &Plan)
    ensures { (world : Start) (workers : ℕ) (h : List Event) (w : ℕ)
        → IsHistory scripts (suite_at plan.now world) workers h
        → booking_refusal (suite_at plan.now world) workers
        (state_of scripts (suite_at plan.now world) h) w ≡ None
        → GoesOnByLeave plan.now world workers h w }
{
    laws::nodes_are_a_tree(plan);
}

/// After a history each key stands as the innermost class left it whose `before_all` was left, that
/// isn't finished and that may change the key, or at its start where there is none; so a key that
/// no unfinished node takes for READ_WRITE stands at its start.
pub fn resources_stand_where_histories_tell()
    ensures value { (l : Launch) (workers : ℕ) (h : List Event) (k : List ℕ)
        → IsHistory scripts (launched l) workers h
        → (state_of scripts (launched l) h).nodes.flat k
        ≡ standing_value scripts (launched l) (state_of scripts (launched l) h) k }
    ensures home { (l : Launch) (workers : ℕ) (h : List Event) (k : List ℕ)
        → IsHistory scripts (launched l) workers h
        → is_being_written scripts (launched l) (state_of scripts (launched l) h) k ≡ false
        → (state_of scripts (launched l) h).nodes.flat k ≡ l.start k }
{}

/// Two runs with the same Enters, Leaves and Shuts in the same order give every node the same
/// outcome, wherever their Steps stand.
pub fn steps_may_stand_anywhere()
    ensures { (l : Launch) (workers : ℕ) (es fs : List Event)
        → SameHistory scripts (launched l) workers es fs
        → (n : ℕ) → result_of (after_all_of scripts (launched l) (first scripts (launched l)) es) n
        ≡ result_of (after_all_of scripts (launched l) (first scripts (launched l)) fs) n }
{}

/// Bodies of scripts keep what the isolation theorem asks of bodies: they change and look at what
/// the marks of their chain let them, come to the same in whatever steps they are done, and end.
pub fn scripts_keep_the_laws_of_bodies()
    ensures bodies { BodyLaws scripts }
    ensures ends { EndLaws scripts }
{}

/// The plan of all scripts keeps what the isolation theorem asks of suites: its locks cover the
/// access rights, and the descendants of a node that takes a key for READ_WRITE are forced to
/// SAME_THREAD.
pub fn plans_keep_the_laws_of_suites()
    ensures { (l : Launch) → SuiteLaws scripts (launched l) }
{}

/// A chain run alone in the language of scripts is the test, or the class, run alone.
pub fn chains_run_alone_are_tests_and_classes_run_alone()
    ensures test { (t : TestHead) (cs : List ClassHead) (start : Resources)
        → run_alone scripts (of_test t ∷ map of_class cs) start ≡ test_alone t cs start }
    ensures class { (c : ClassHead) (cs : List ClassHead) (start : Resources)
        → run_alone scripts (of_class c ∷ map of_class cs) start ≡ class_alone c cs start }
{}

/// The suite of every plan keeps what a run needs so that it never deadlocks.
pub fn plans_keep_the_laws_of_progress(plan: &Plan)
    ensures { (world : Start) → ProgressLaws scripts (suite_at plan.now world) }
{
    laws::nodes_are_a_tree(plan);
}
