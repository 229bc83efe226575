//! How the results and the bodies of a core follow the events of a run. Each function does nothing:
//! its contract is the law, and is proved.
ghost use Rattle.std.specs.Prelude.{◌≡◌, ◌<◌, ℕ, List, Option, None, Some, false, length, not, replicate, slice_set, true};
ghost use Rattle.iso_standing.specs.ResultStates.{AreResultsOf, AtLeave};
ghost use Rattle.iso_suites.specs.ScriptLanguage.{scripts};
ghost use Rattle.iso_suites.specs.SuiteStates.{RunNodes, RunState, IsReached, suite_at};
ghost use Rattle.iso_standing.specs.UnderWay.{AreBodiesOf, IsUnderWay, body_at, is_after_all};
ghost use Rattle.iso_isolation.specs.Events as E;
ghost use Rattle.iso_isolation.specs.Runs.{result_of};
ghost use Rattle.iso_isolation.specs.States.{body_in, first, is_at_rest, is_closing, is_open, is_waiting};
ghost use Rattle.iso_isolation.specs.Suites.{chain};
ghost use Rattle.iso_lifecycle.specs.BodyViews.{Stands, kind_of_body, stage_of_body, subject_of};
ghost use Rattle.iso_lifecycle.specs.ResultViews.{AreOpened, CanPut, ResultsView, is_barring, no_results, result_in, with_done_of};
ghost use Rattle.iso_lifecycle.specs.Subjects.{begun, enclosing, is_kind_of, opening_of, subject};
ghost use Rattle.iso_lifecycle.specs.declared.body.Body.{Body as Under};
ghost use Rattle.iso_lifecycle.specs.declared.kind.BodyKind.{BodyKind as Kind};
ghost use Rattle.iso_lifecycle.specs.declared.kind.BodyKind.TheVariants.{BeforeAll, AfterAll};
ghost use Rattle.iso_model.specs.Bodies.{Stage, is_ended};
ghost use Rattle.iso_plan.specs.Paths.{parent, path, row_at};
ghost use Rattle.iso_plan.specs.RowView.{tree_of};
ghost use Rattle.iso_settings.specs.Worlds.{Start};

use iso_plan::laws;
use iso_plan::plan::Plan;

/// How results follow what happens to a node.
pub fn results_follow_nodes(plan: &Plan)
    ensures begin { (world : Start) → AreResultsOf (no_results plan.now world)
        (first scripts (suite_at plan.now world)).nodes }
    ensures enter { (world : Start) (r : ResultsView) (s : RunNodes) (n : ℕ) → AreResultsOf r s
        → is_waiting (s.status n) ≡ true
        → AreResultsOf r (E.entering scripts (suite_at plan.now world) n s) }
    ensures step { (world : Start) (r : ResultsView) (s : RunNodes) (n : ℕ) (b : Stage)
        → AreResultsOf r s → body_in (s.status n) ≡ Some b
        → AreResultsOf r (E.stepping scripts (suite_at plan.now world) n s b) }
    ensures shut { (world : Start) (r : ResultsView) (s : RunNodes) (n : ℕ) → AreResultsOf r s
        → is_at_rest (s.status n) ≡ true
        → AreResultsOf r (E.shutting scripts (suite_at plan.now world) n s) }
{}

/// How results follow a Leave: what the body came to may be put, and then they are those of the
/// state after it. And of which nodes there are results.
pub fn results_follow_leaves(plan: &Plan)
    ensures put { (world : Start) (r : ResultsView) (s : RunState) (n : ℕ) (b : Stage) (kind : Kind)
        → AtLeave plan.now world r s n b kind
        → CanPut (record { subject = subject plan.now world n; kind = kind }) r }
    ensures leave { (world : Start) (r : ResultsView) (s : RunState) (n : ℕ)
        (b : Stage) (kind : Kind)
        → AtLeave plan.now world r s n b kind → is_ended b ≡ true
        → AreResultsOf (with_done_of kind n r)
        (E.leaving scripts (suite_at plan.now world) n s.nodes (s.nodes.status n)) }
    ensures well { (world : Start) (r : ResultsView) (s : RunState) (n : ℕ) (b : Stage)
        → AtLeave plan.now world r s n b BeforeAll → is_ended b ≡ true
        → E.ended_well scripts (suite_at plan.now world) n b s.nodes
        ≡ not (is_barring (with_done_of BeforeAll n r) n) }
    ensures outcomes { (world : Start) (r : ResultsView) (s : RunState) (n : ℕ)
        → IsReached plan.now world s → AreResultsOf r s.nodes
        → r.plan ≡ plan.now → r.start ≡ world → n < length plan.now.rows
        → result_in r n ≡ result_of s n }
{
    laws::nodes_are_a_tree(plan);
}

/// How the bodies of workers follow the events of a run.
pub fn bodies_follow_events(plan: &Plan)
    ensures begin { (world : Start) (workers : ℕ) → AreBodiesOf plan.now world
        (replicate workers None) (first scripts (suite_at plan.now world)) }
    ensures enter { (world : Start) (bodies : List (Option Under)) (s : RunState) (w n : ℕ)
        (b : Under) → AreBodiesOf plan.now world bodies s → w < length bodies
        → s.busy w ≡ None → is_waiting (s.nodes.status n) ≡ true
        → IsUnderWay plan.now world n b (E.entering scripts (suite_at plan.now world) n s.nodes)
        → AreBodiesOf plan.now world (slice_set bodies w (Some b))
        (E.after scripts (suite_at plan.now world) s (E.Enter w n)) }
    ensures step { (world : Start) (bodies : List (Option Under)) (s : RunState) (w n : ℕ)
        (b c : Under) → AreBodiesOf plan.now world bodies s → w < length bodies
        → s.busy w ≡ Some n → body_at bodies w ≡ Some b → subject_of c ≡ subject_of b
        → kind_of_body c ≡ kind_of_body b
        → stage_of_body c ≡ (scripts.step (chain (suite_at plan.now world) n)
        (stage_of_body b) s.nodes.flat).body
        → AreBodiesOf plan.now world (slice_set bodies w (Some c))
        (E.after scripts (suite_at plan.now world) s (E.Step w)) }
    ensures leave { (world : Start) (bodies : List (Option Under)) (s : RunState) (w n : ℕ)
        → AreBodiesOf plan.now world bodies s → w < length bodies
        → s.busy w ≡ Some n → AreBodiesOf plan.now world (slice_set bodies w None)
        (E.after scripts (suite_at plan.now world) s (E.Leave w)) }
    ensures shut { (world : Start) (bodies : List (Option Under)) (s : RunState) (w n : ℕ)
        (b : Under) → AreBodiesOf plan.now world bodies s → w < length bodies
        → s.busy w ≡ None → is_at_rest (s.nodes.status n) ≡ true
        → IsUnderWay plan.now world n b (E.shutting scripts (suite_at plan.now world) n s.nodes)
        → AreBodiesOf plan.now world (slice_set bodies w (Some b))
        (E.after scripts (suite_at plan.now world) s (E.Shut w n)) }
{}

/// Where bodies begin in a state that a run leads to, and that they stand where some number of
/// steps of them alone has left them.
pub fn bodies_stand_as_alone(plan: &Plan)
    ensures stands { (world : Start) (bodies : List (Option Under)) (s : RunState) (w n : ℕ)
        (b : Under) → IsReached plan.now world s → AreBodiesOf plan.now world bodies s
        → w < length bodies → s.busy w ≡ Some n → body_at bodies w ≡ Some b
        → Stands b s.nodes.flat }
    ensures inside { (world : Start) (bodies : List (Option Under)) (s : RunState) (w n : ℕ)
        → IsReached plan.now world s → AreBodiesOf plan.now world bodies s
        → w < length bodies → s.busy w ≡ Some n → (0 < n) × (n < length plan.now.rows) }
    ensures enter { (world : Start) (s : RunState) (n : ℕ) (kind : Kind)
        → IsReached plan.now world s → 0 < n → n < length plan.now.rows
        → is_open (s.nodes.status (parent (tree_of plan.now) n)) ≡ true → is_after_all kind ≡ false
        → is_kind_of kind (row_at (tree_of plan.now) n).kind ≡ true
        → body_in ((E.entering scripts (suite_at plan.now world) n s.nodes).status n)
        ≡ Some (begun kind (subject plan.now world n)).stage }
    ensures shut { (world : Start) (s : RunState) (n : ℕ) → IsReached plan.now world s → 0 < n
        → n < length plan.now.rows → is_at_rest (s.nodes.status n) ≡ true
        → is_kind_of AfterAll (row_at (tree_of plan.now) n).kind ≡ true
        → body_in ((E.shutting scripts (suite_at plan.now world) n s.nodes).status n)
        ≡ Some (begun AfterAll (subject plan.now world n)).stage }
    ensures enclosed { (world : Start) (s : RunState) (n : ℕ) → IsReached plan.now world s → 0 < n
        → n < length plan.now.rows
        → is_open (s.nodes.status (parent (tree_of plan.now) n)) ≡ true
        → (opening_of (enclosing (subject plan.now world n))).well ≡ true }
    ensures around { (world : Start) (s : RunState) (n : ℕ) → IsReached plan.now world s → 0 < n
        → n < length plan.now.rows → is_at_rest (s.nodes.status n) ≡ true
        → is_open (s.nodes.status (parent (tree_of plan.now) n)) ≡ true }
    ensures opened { (world : Start) (r : ResultsView) (s : RunState) (n : ℕ)
        → IsReached plan.now world s → AreResultsOf r s.nodes → n < length plan.now.rows
        → is_open (s.nodes.status n) ≡ true → AreOpened r (path (tree_of plan.now) n) }
    ensures opened_at_rest { (world : Start) (r : ResultsView) (s : RunState) (n : ℕ)
        → IsReached plan.now world s → AreResultsOf r s.nodes → n < length plan.now.rows
        → is_at_rest (s.nodes.status n) ≡ true → AreOpened r (path (tree_of plan.now) n) }
{
    laws::nodes_are_a_tree(plan);
}
