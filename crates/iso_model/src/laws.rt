//! Laws of the definitions. Each function does nothing: its contract is the law, and is proved.
ghost use Rattle.std.specs.Prelude.{◌≡◌, ◌+◌, ◌-◌, ◌<◌, ℕ, List, [], ◌∷◌, true, false, length, map};
ghost use Rattle.iso_model.specs.ChainAgreement.{Alike, AlikeAt, AlikeBodies, AlikeOpenings, ClassesAgree, EqualAt, LooksWithin, TestsAgree};
ghost use Rattle.iso_model.specs.Alone.{after_all, class_alone, class_from, test_alone, test_from};
ghost use Rattle.iso_model.specs.Blocks.{begun, block};
ghost use Rattle.iso_model.specs.Chains.{ClassHead, TestHead, class_rights, test_rights};
ghost use Rattle.iso_model.specs.Changes.{OneChange, PrintsMore, bytes_of, kind_at, lasting};
ghost use Rattle.iso_model.specs.Environments.{Environment};
ghost use Rattle.iso_model.specs.Evaluation.{evaluated};
ghost use Rattle.iso_model.specs.Openings.{Opening, before_all, opening};
ghost use Rattle.iso_model.specs.Resources.{Resources, restricted};
ghost use Rattle.iso_model.specs.Rights.{Rights, is_writable};
ghost use Rattle.iso_model.specs.Statements.{State, is_live, kept, run, runs_out};
ghost use Rattle.iso_model.specs.Steps.{IsReady, Machine, Piece, Point, distance, finish, finished, first_point, is_done, is_ready, machine, machine_at, point_of, step, steps, steps_left, steps_to};
ghost use Rattle.iso_model.specs.Syntax.{Acts, Term};
ghost use Rattle.iso_model.specs.Tests.{seen_from, test, test_names};
ghost use Rattle.iso_model.specs.Verdicts.{verdict};
ghost use Rattle.iso_model.specs.declared.fault.FaultKind.{FaultKind};
ghost use Rattle.iso_model.specs.declared.limits.TheConstants.{BLOCK_STEPS};
ghost use Rattle.iso_model.specs.declared.names.Binding.{Binding};
ghost use Rattle.iso_model.specs.declared.outcome.Ending.{Ending};
ghost use Rattle.iso_model.specs.declared.outcome.Ending.TheVariants.{Assumed, Fail, Fault, Well};
ghost use Rattle.iso_model.specs.declared.outcome.Note.{Note};
ghost use Rattle.iso_model.specs.declared.outcome.Verdict.TheVariants as Verdicts;

/// What is left, done, is the same before and after a step, and from the beginning it is the block.
pub fn step_keeps_what_a_block_comes_to()
    ensures step { (r : Rights) (m : Machine) → finished r (step r m) ≡ finished r m }
    ensures block { (r : Rights) (acts : Acts) (env : Environment) (m : Resources)
        → kept (length env.names) (finished r (machine_at (first_point acts env) m))
        ≡ block r acts env m }
{}

/// A step that has a piece to do brings the end nearer, and leaves a piece that has something to
/// do, or none.
pub fn step_brings_the_end_nearer()
    ensures nearer { (r : Rights) (m : Machine) → IsReady (point_of m) → is_done m.pieces ≡ false
        → distance (step r m) < distance m }
    ensures ready { (r : Rights) (m : Machine) → IsReady (point_of m)
        → IsReady (point_of (step r m)) }
    ensures begins_ready { (acts : Acts) (env : Environment) → IsReady (first_point acts env) }
{}

/// An ended block stays as it is.
pub fn ended_block_stays()
    ensures step { (r : Rights) (m : Machine) → is_live m.state ≡ false → step r m ≡ m }
    ensures none_left { (r : Rights) (s : State) → step r (machine [] s) ≡ machine [] s }
    ensures finish { (r : Rights) (ps : List Piece) (s : State) → is_live s ≡ false
        → finish r ps s ≡ s }
    ensures run { (r : Rights) (acts : Acts) (s : State) → is_live s ≡ false → run r acts s ≡ s }
{}

/// A step that has a piece to do uses one of the steps that are left; where none is left, it ends
/// the block.
pub fn step_uses_one_step_or_ends_the_block()
    ensures used { (r : Rights) (m : Machine) → IsReady (point_of m) → is_done m.pieces ≡ false
        → steps_left (step r m) ≡ steps_left m - 1 }
    ensures ended { (r : Rights) (m : Machine) → IsReady (point_of m) → is_done m.pieces ≡ false
        → steps_left m ≡ 0
        → (row : ℕ) × (step r m ≡ machine [] (runs_out row m.state)) }
{}

/// The whole meaning of a block takes exactly as many steps as its single steps do.
pub fn steps_of_a_block_are_its_single_steps()
    ensures last { (r : Rights) (m : Machine) → is_live m.state ≡ true → is_ready m.pieces ≡ true
        → steps r (steps_to m.state.here (finished r m).here) m ≡ machine [] (finished r m) }
    ensures none_sooner { (r : Rights) (m : Machine) → is_live m.state ≡ true
        → is_ready m.pieces ≡ true
        → (n : ℕ) → n < steps_to m.state.here (finished r m).here
        → is_done (steps r n m).pieces ≡ false }
    ensures block { (r : Rights) (acts : Acts) (env : Environment) (m : Resources)
        → let whole = block r acts env m in
        let last =
        steps r (steps_to (begun env) whole.here) (machine_at (first_point acts env) m) in
        (last.pieces ≡ []) × (kept (length env.names) last.state ≡ whole) }
{}

/// A block of any length has ended after 10,001 single steps: its 10,000, and the one that finds
/// none left.
pub fn block_ends_within_its_steps()
    ensures { (r : Rights) (acts : Acts) (env : Environment) (m : Resources) (n : ℕ)
        → BLOCK_STEPS < n
        → let last = steps r n (machine_at (first_point acts env) m) in
        (last.pieces ≡ []) × (kept (length env.names) last.state ≡ block r acts env m) }
{}

/// A step changes one key at most, and only one that the rights let it change.
pub fn step_changes_one_key_at_most()
    ensures { (r : Rights) (m : Machine)
        → OneChange r m.state.resources (step r m).state.resources }
{}

/// A block changes no key that its rights don't let it change.
pub fn block_changes_no_other_key()
    ensures block { (r : Rights) (acts : Acts) (env : Environment) (m : Resources) (k : List ℕ)
        → is_writable (r k) ≡ false → (block r acts env m).resources k ≡ m k }
    ensures finish { (r : Rights) (ps : List Piece) (s : State) (k : List ℕ) → is_writable (r k)
        ≡ false → (finish r ps s).resources k ≡ s.resources k }
    ensures step { (r : Rights) (m : Machine) (k : List ℕ) → is_writable (r k) ≡ false
        → (step r m).state.resources k ≡ m.state.resources k }
{}

/// A block keeps the kind of every resource.
pub fn block_keeps_the_kinds_of_resources()
    ensures block { (r : Rights) (acts : Acts) (env : Environment) (m : Resources) (k : List ℕ)
        → kind_at (block r acts env m).resources k ≡ kind_at m k }
    ensures finish { (r : Rights) (ps : List Piece) (s : State) (k : List ℕ)
        → kind_at (finish r ps s).resources k ≡ kind_at s.resources k }
    ensures step { (r : Rights) (m : Machine) (k : List ℕ) → kind_at (step r m).state.resources k
        ≡ kind_at m.state.resources k }
{}

/// The first fail or fault of a body's blocks is its verdict, whatever comes after it. A false
/// assumption before it is weaker.
pub fn first_fail_or_fault_is_the_verdict()
    ensures fail { (n : Note) (es : List Ending) → verdict (Fail n ∷ es) ≡ Verdicts.Fail n }
    ensures fault { (k : FaultKind) (n : Note) (es : List Ending) → verdict (Fault k n ∷ es)
        ≡ Verdicts.Fault k n }
    ensures well { (es : List Ending) → verdict (Well ∷ es) ≡ verdict es }
    ensures assumed { (m n : Note) (k : FaultKind) (es : List Ending)
        → (verdict (Assumed m ∷ Fail n ∷ es) ≡ Verdicts.Fail n)
        × (verdict (Assumed m ∷ Fault k n ∷ es) ≡ Verdicts.Fault k n) }
{}

/// The bytes that are counted as printed are those of the lines, with one for the end of each.
pub fn printed_bytes_are_those_of_the_lines()
    ensures block { (r : Rights) (acts : Acts) (env : Environment) (m : Resources)
        → let after =
        (block r acts env m).here in after.env.printed ≡ env.printed + bytes_of after.lines }
    ensures finish { (r : Rights) (ps : List Piece) (s : State)
        → PrintsMore s.here (finish r ps s).here }
    ensures step { (r : Rights) (m : Machine) → PrintsMore m.state.here (step r m).state.here }
{}

/// A block leaves as many names as it found, with their names and sorts, and frozen ones with their
/// values.
pub fn names_outlast_a_block()
    ensures count { (r : Rights) (acts : Acts) (env : Environment) (m : Resources)
        → length (block r acts env m).here.env.names ≡ length env.names }
    ensures lasting { (r : Rights) (acts : Acts) (env : Environment) (m : Resources)
        → map lasting (block r acts env m).here.env.names ≡ map lasting env.names }
{}

/// The names of a test outlast its blocks in the same way. Of a chain that was opened well, a block
/// of the innermost class sees all of them, and one of the enclosing classes those that these have
/// by themselves.
pub fn names_of_a_test_outlast_it()
    ensures lasting { (t : TestHead) (cs : List ClassHead) (o : Opening)
        → map lasting (test t cs o).names ≡ map lasting (test_names cs o.frames) }
    ensures seen { (cs : List ClassHead) (start : Resources) → (opening cs start).well ≡ true
        → let names = test_names cs (opening cs start).frames in seen_from cs names ≡ names }
    ensures seen_by_enclosing { (c : ClassHead) (cs : List ClassHead) (start : Resources)
        → (opening (c ∷ cs) start).well ≡ true
        → seen_from cs (test_names (c ∷ cs) (opening (c ∷ cs) start).frames)
        ≡ test_names cs (opening cs start).frames }
{}

/// An expression has the same value over resources that are equal at the keys of the rights.
pub fn evaluation_is_the_same_where_resources_are_equal()
    ensures { (r : Rights) (names : List Binding) (m n : Resources) (e : Term)
        → EqualAt r m n → evaluated names m r e ≡ evaluated names n r e }
{}

/// A block looks at no key that its rights don't let it look at: over resources that are equal at
/// the others it does the same, and leaves resources that are equal there again.
pub fn block_is_the_same_where_resources_are_equal()
    ensures block { (r : Rights) (acts : Acts) (env : Environment) (m n : Resources)
        → EqualAt r m n → Alike r (block r acts env m) (block r acts env n) }
    ensures finish { (r : Rights) (ps : List Piece) (s t : State) → Alike r s t
        → Alike r (finish r ps s) (finish r ps t) }
    ensures step { (r : Rights) (p : Point) (m n : Resources) → EqualAt r m n
        → AlikeAt r (step r (machine_at p m)) (step r (machine_at p n)) }
{}

/// The opening of a chain, a test, and a class's `before_all` and `after_all` change no key that
/// their rights don't let them change.
pub fn chain_changes_no_other_key()
    ensures opening { (cs : List ClassHead) (start : Resources) (k : List ℕ)
        → is_writable (class_rights cs k) ≡ false → (opening cs start).resources k ≡ start k }
    ensures before_all { (c : ClassHead) (cs : List ClassHead) (o : Opening) (k : List ℕ)
        → is_writable (class_rights (c ∷ cs) k) ≡ false → (before_all c cs o).resources k
        ≡ o.resources k }
    ensures after_all { (c : ClassHead) (cs : List ClassHead) (o : Opening) (k : List ℕ)
        → is_writable (class_rights (c ∷ cs) k) ≡ false → (after_all c cs o).resources k
        ≡ o.resources k }
    ensures test { (t : TestHead) (cs : List ClassHead) (o : Opening) (k : List ℕ)
        → is_writable (test_rights t cs k) ≡ false → (test t cs o).resources k ≡ o.resources k }
{}

/// They come to the same on resources that are equal at the keys of their rights. An opening, a
/// `before_all` and an `after_all` keep the resources equal at further keys, at which they were
/// equal before.
pub fn chain_is_the_same_where_resources_are_equal()
    ensures opening { (r : Rights) (cs : List ClassHead) (m n : Resources)
        → LooksWithin (class_rights cs) r
        → EqualAt r m n → AlikeOpenings r (opening cs m) (opening cs n) }
    ensures before_all { (r : Rights) (c : ClassHead) (cs : List ClassHead) (o p : Opening)
        → LooksWithin (class_rights (c ∷ cs)) r
        → AlikeOpenings r o p → Alike r (before_all c cs o) (before_all c cs p) }
    ensures after_all { (r : Rights) (c : ClassHead) (cs : List ClassHead) (o p : Opening)
        → LooksWithin (class_rights (c ∷ cs)) r
        → AlikeOpenings r o p → Alike r (after_all c cs o) (after_all c cs p) }
    ensures test { (t : TestHead) (cs : List ClassHead) (o p : Opening)
        → AlikeOpenings (test_rights t cs) o p
        → AlikeBodies (test_rights t cs) (test t cs o) (test t cs p) }
{}

/// A test, and a class, use nothing but what their chain declares: on a start they come to what
/// they come to on its values at the keys of their rights alone.
pub fn outcome_uses_declared_keys_alone()
    ensures test { (t : TestHead) (cs : List ClassHead) (start : Resources)
        → test_from t cs start ≡ test_from t cs (restricted (test_rights t cs) start) }
    ensures class { (c : ClassHead) (cs : List ClassHead) (start : Resources)
        → class_from c cs start ≡ class_from c cs (restricted (class_rights (c ∷ cs)) start) }
{}

/// Tests that agree, and classes that agree, have equal outcomes when they are run alone.
pub fn agreeing_chains_have_equal_outcomes()
    ensures test { (t : TestHead) (cs : List ClassHead) (m : Resources) (u : TestHead)
        (ds : List ClassHead) (n : Resources)
        → TestsAgree t cs m u ds n → test_alone t cs m ≡ test_alone u ds n }
    ensures class { (c : ClassHead) (cs : List ClassHead) (m : Resources) (d : ClassHead)
        (ds : List ClassHead) (n : Resources)
        → ClassesAgree c cs m d ds n → class_alone c cs m ≡ class_alone d ds n }
{}
