//! Laws of runs, over any language of bodies and any suite. Each function does nothing: its
//! contract is the law, and is proved.
ghost use Rattle.std.specs.Prelude.{◌≡◌, ℕ, None};
ghost use Rattle.iso_isolation.specs.Events.{stop};
ghost use Rattle.iso_isolation.specs.Examples.{counting};
ghost use Rattle.iso_isolation.specs.Languages.{BodyLaws, Language};
ghost use Rattle.iso_isolation.specs.States.{State};
ghost use Rattle.iso_isolation.specs.Suites.{Suite, SuiteLaws};
ghost use Rattle.iso_progress.specs.Candidates.{candidate};
ghost use Rattle.iso_progress.specs.Examples.{mall};
ghost use Rattle.iso_progress.specs.NeverStuck.{Accepts, CandidateServes, NeverStuck, IsReached, IsStuck, SearchServes};
ghost use Rattle.iso_progress.specs.ProgressLaws.{ProgressLaws};

/// Never stuck: in every state that accepted events reach, on any number of workers but none, an
/// event is accepted while a node but the root is unfinished.
pub fn run_is_never_stuck<H, K, V, B, F, R>()
    ensures { (l : Language H K V B F R) (x : Suite H K V) → BodyLaws l → SuiteLaws l x
        → ProgressLaws l x → NeverStuck l x }
{}

/// A search over workers, and then over nodes, finds such an event: each that it finds is accepted,
/// and where it finds none all nodes but the root are finished.
pub fn search_finds_an_accepted_event<H, K, V, B, F, R>()
    ensures { (l : Language H K V B F R) (x : Suite H K V) → BodyLaws l → SuiteLaws l x
        → ProgressLaws l x
        → (workers : ℕ) (s : State K V B F R) → IsReached l x workers s
        → SearchServes l x workers s }
{}

/// The candidate is such an event: it is accepted, and there is one exactly while a node but the
/// root is unfinished.
pub fn candidate_is_accepted<H, K, V, B, F, R>()
    ensures { (l : Language H K V B F R) (x : Suite H K V) → BodyLaws l → SuiteLaws l x
        → ProgressLaws l x
        → (workers : ℕ) (s : State K V B F R) → IsReached l x workers s
        → CandidateServes l x workers s }
{}

/// In any state where there is no candidate, no event is accepted: the search leaves none out.
pub fn state_without_candidate_is_stuck<H, K, V, B, F, R>()
    ensures { (l : Language H K V B F R) (x : Suite H K V) (workers : ℕ) (s : State K V B F R)
        → candidate l x workers s ≡ None → IsStuck l x workers s }
{}

/// A stuck state accepts no event, of whatever kind.
pub fn stuck_state_accepts_no_event<H, K, V, B, F, R>()
    ensures { (l : Language H K V B F R) (x : Suite H K V) (workers : ℕ) (s : State K V B F R)
        → IsStuck l x workers s → Accepts l x workers s → ⊥ }
{}

/// A run that was stopped has no candidate.
pub fn stopped_run_has_no_candidate<H, K, V, B, F, R>()
    ensures { (l : Language H K V B F R) (x : Suite H K V) (workers : ℕ) (s : State K V B F R)
        → candidate l x workers (stop s) ≡ None }
{}

/// There are a language and a suite that keep all that is asked, with a class that is isolated, one
/// that takes a key for its descendants, and one that takes none.
pub fn laws_can_be_kept()
    ensures bodies { BodyLaws counting }
    ensures suite { SuiteLaws counting mall }
    ensures progress { ProgressLaws counting mall }
{}
