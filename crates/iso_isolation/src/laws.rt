//! Laws of runs, over any language of bodies and any suite. Each function does nothing: its
//! contract is the law, and is proved.
ghost use Rattle.std.specs.Prelude.{◌≡◌, ◌++◌, ◌∷◌, [], ℕ, List, Some, false, true};
ghost use Rattle.iso_isolation.specs.Events.{Event, Leave, stop};
ghost use Rattle.iso_isolation.specs.Examples.{counting, shop};
ghost use Rattle.iso_isolation.specs.Histories.{EndLaws, GoesOn, IsHistory, SameHistory, has_no_step, is_being_written, standing_value, state_of};
ghost use Rattle.iso_isolation.specs.Isolation.{Isolated, Unaffected};
ghost use Rattle.iso_isolation.specs.Languages.{BodyLaws, Language};
ghost use Rattle.iso_isolation.specs.Refusals.{refusal};
ghost use Rattle.iso_isolation.specs.Refusals as Why;
ghost use Rattle.iso_isolation.specs.Runs.{after_all_of, full, history_of, is_accepted, result_of};
ghost use Rattle.iso_isolation.specs.States.{State, first};
ghost use Rattle.iso_isolation.specs.Suites.{Suite, SuiteLaws};

/// The isolation theorem: after every list of accepted events, on any number of workers, the result
/// of each finished test, and of each finished class, is that of its class chain run alone on the
/// starting values of the keys of its rights.
pub fn results_are_those_of_a_chain_run_alone<H, K, V, B, F, R>()
    ensures { (l : Language H K V B F R) (x : Suite H K V) → BodyLaws l → SuiteLaws l x
        → Isolated l x }
{}

/// Two suites with equal class chains at two nodes, and with starting values that are equal at the
/// keys of that chain's rights, give both nodes equal results, whatever else stands in the suites
/// and in whatever order their events come.
pub fn suites_that_agree_give_equal_results<H, K, V, B, F, R>()
    ensures { (l : Language H K V B F R) (x y : Suite H K V) → BodyLaws l → SuiteLaws l x
        → SuiteLaws l y → Unaffected l x y }
{}

/// A run that was stopped refuses every event, and keeps its results.
pub fn stopped_run_refuses_every_event<H, K, V, B, F, R>()
    ensures results { (s : State K V B F R) (n : ℕ) → result_of (stop s) n ≡ result_of s n }
    ensures refused { (l : Language H K V B F R) (x : Suite H K V) (workers : ℕ)
        (s : State K V B F R) (e : Event)
        → refusal l x workers (stop s) e ≡ Some Why.Stopped }
{}

/// A history goes on by each event that is accepted after it, and by a Leave against which nothing
/// stands but the steps that its body still needs. Both give the state after the event and these
/// steps.
pub fn history_goes_on<H, K, V, B, F, R>()
    ensures accepted { (l : Language H K V B F R) (x : Suite H K V) → BodyLaws l → EndLaws l
        → SuiteLaws l x
        → (workers : ℕ) (h : List Event) (e : Event) → IsHistory l x workers h
        → has_no_step (e ∷ []) ≡ true
        → is_accepted l x workers (state_of l x h) e ≡ true → GoesOn l x workers h e }
    ensures leaves { (l : Language H K V B F R) (x : Suite H K V) → BodyLaws l → EndLaws l
        → SuiteLaws l x
        → (workers : ℕ) (h : List Event) (w : ℕ) → IsHistory l x workers h
        → refusal l x workers (state_of l x h) (Leave w) ≡ Some Why.BodyNotEnded
        → GoesOn l x workers h (Leave w) }
{}

/// A history in full is the history with Steps put in: without them it is the history again.
pub fn history_in_full_has_only_steps_more<H, K, V, B, F, R>()
    ensures { (l : Language H K V B F R) (x : Suite H K V) (s : State K V B F R) (h : List Event)
        → has_no_step h ≡ true → history_of (full l x s h) ≡ h }
{}

/// After a history in full each key stands as the innermost class left it whose `before_all` was
/// left, that isn't finished and that may change the key, or at its start where there is none; so a
/// key that no unfinished node takes for READ_WRITE stands at its start.
pub fn keys_stand_where_histories_tell<H, K, V, B, F, R>()
    ensures value { (l : Language H K V B F R) (x : Suite H K V) → BodyLaws l → SuiteLaws l x
        → (workers : ℕ) (h : List Event) (k : K) → IsHistory l x workers h
        → (state_of l x h).nodes.flat k ≡ standing_value l x (state_of l x h) k }
    ensures home { (l : Language H K V B F R) (x : Suite H K V) → BodyLaws l → SuiteLaws l x
        → (workers : ℕ) (h : List Event) (k : K) → IsHistory l x workers h
        → is_being_written l x (state_of l x h) k ≡ false
        → (state_of l x h).nodes.flat k ≡ x.start k }
{}

/// Two runs with the same Enters, Leaves and Shuts in the same order give every node the same
/// result, wherever their Steps stand.
pub fn steps_may_stand_anywhere<H, K, V, B, F, R>()
    ensures { (l : Language H K V B F R) (x : Suite H K V) → BodyLaws l → SuiteLaws l x
        → (workers : ℕ) (es fs : List Event) → SameHistory l x workers es fs
        → (n : ℕ) → result_of (after_all_of l x (first l x) es) n
        ≡ result_of (after_all_of l x (first l x) fs) n }
{}

/// There are a language and a suite that keep all that the theorem asks, with locks, nested classes
/// and bodies that change values.
#[tactic(auto, using(crate::proofs::ExampleLaws::counting_laws, crate::proofs::ExampleLaws::counting_ends, crate::proofs::ExampleLaws::shop_laws))]
pub fn laws_can_be_kept()
    ensures bodies { BodyLaws counting }
    ensures ends { EndLaws counting }
    ensures suite { SuiteLaws counting shop }
{}
