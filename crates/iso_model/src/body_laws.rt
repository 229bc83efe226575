//! Laws of whole bodies, which do a list of jobs step by step. Each function does nothing: its
//! contract is the law, and is proved.
ghost use Rattle.std.specs.Prelude.{◌≡◌, ◌<◌, ◌≤◌, ℕ, List, [], ◌∷◌, true, false};
ghost use Rattle.iso_model.specs.ChainAgreement.{AlikeBodies};
ghost use Rattle.iso_model.specs.Alone.{after_all};
ghost use Rattle.iso_model.specs.Bodies.{Account, Going, IsReadyStage, Stage, body_at, body_distance, body_finish, body_finished, body_step, body_steps, closing_stage, ended, frame_left, going, is_ended, jobs_distance, opening_stage, stage_from, test_stage};
ghost use Rattle.iso_model.specs.BodyAgreement.{AlikeGoing};
ghost use Rattle.iso_model.specs.Changes.{OneChange, kind_at};
ghost use Rattle.iso_model.specs.Chains.{ClassHead, TestHead, class_rights, test_rights};
ghost use Rattle.iso_model.specs.Jobs.{Job, body_of_block, with_jobs};
ghost use Rattle.iso_model.specs.Openings.{Opening, before_all, opened};
ghost use Rattle.iso_model.specs.Resources.{Resources};
ghost use Rattle.iso_model.specs.Rights.{Rights, is_writable};
ghost use Rattle.iso_model.specs.Tests.{test};

/// What is left of a body, done, is the same before and after a step, and after any number of them.
pub fn step_keeps_what_a_body_comes_to()
    ensures step { (r : Rights) (g : Going) → body_finished r (body_step r g) ≡ body_finished r g }
    ensures steps { (r : Rights) (n : ℕ) (g : Going) → body_finished r (body_steps r n g)
        ≡ body_finished r g }
    ensures jobs { (r : Rights) (js : List Job) (a : Account) (m : Resources)
        → body_finish r (stage_from js a) m ≡ with_jobs r js (body_at a m) }
{}

/// From its beginning, on what an opening left, a body comes to the test, or to the class's
/// `before_all` or `after_all`.
pub fn body_comes_to_its_definition()
    ensures test { (t : TestHead) (cs : List ClassHead) (o : Opening)
        → body_finish (test_rights t cs) (test_stage t cs o.frames) o.resources ≡ test t cs o }
    ensures before_all { (c : ClassHead) (cs : List ClassHead) (o : Opening)
        → body_finish (class_rights (c ∷ cs)) (opening_stage c cs o.frames) o.resources
        ≡ body_of_block (before_all c cs o) }
    ensures frame { (c : ClassHead) (cs : List ClassHead) (o : Opening)
        → frame_left o.frames (body_finish (class_rights (c ∷ cs)) (opening_stage c cs o.frames)
        o.resources) ∷ o.frames ≡ (opened o (before_all c cs o)).frames }
    ensures after_all { (c : ClassHead) (cs : List ClassHead) (o : Opening)
        → body_finish (class_rights (c ∷ cs)) (closing_stage c cs o.frames) o.resources
        ≡ body_of_block (after_all c cs o) }
{}

/// An ended body stays as it is.
pub fn ended_body_stays()
    ensures step { (r : Rights) (a : Account) (m : Resources) → body_step r (going (ended a) m)
        ≡ going (ended a) m }
    ensures finish { (r : Rights) (a : Account) (m : Resources) → body_finish r (ended a) m
        ≡ body_at a m }
{}

/// A step of a body that hasn't ended brings its end nearer. A body is ready at its beginning and
/// stays so, and begins no farther from its end than its jobs allow.
pub fn step_brings_the_end_of_a_body_nearer()
    ensures nearer { (r : Rights) (g : Going) → IsReadyStage g.stage → is_ended g.stage ≡ false
        → body_distance (body_step r g).stage < body_distance g.stage }
    ensures ready { (r : Rights) (g : Going) → IsReadyStage g.stage
        → IsReadyStage (body_step r g).stage }
    ensures begins_ready { (js : List Job) (a : Account) → IsReadyStage (stage_from js a) }
    ensures within { (js : List Job) (a : Account)
        → body_distance (stage_from js a) ≤ jobs_distance js }
{}

/// A step changes one key at most, and only one that the rights let it change; neither does all
/// that is left of a body change another. A step keeps the kind of every resource.
pub fn body_changes_no_other_key()
    ensures one { (r : Rights) (g : Going) → OneChange r g.resources (body_step r g).resources }
    ensures step { (r : Rights) (g : Going) (k : List ℕ) → is_writable (r k) ≡ false
        → (body_step r g).resources k ≡ g.resources k }
    ensures finish { (r : Rights) (s : Stage) (m : Resources) (k : List ℕ) → is_writable (r k)
        ≡ false → (body_finish r s m).resources k ≡ m k }
    ensures kinds { (r : Rights) (g : Going) (k : List ℕ) → kind_at (body_step r g).resources k
        ≡ kind_at g.resources k }
{}

/// A body looks at no key that its rights don't let it look at: over resources that are equal at
/// the others, a step, any number of them and all that is left come to the same, and leave
/// resources that are equal there again.
pub fn body_is_the_same_where_resources_are_equal()
    ensures step { (r : Rights) (g h : Going) → AlikeGoing r g h
        → AlikeGoing r (body_step r g) (body_step r h) }
    ensures steps { (r : Rights) (n : ℕ) (g h : Going) → AlikeGoing r g h
        → AlikeGoing r (body_steps r n g) (body_steps r n h) }
    ensures finish { (r : Rights) (g h : Going) → AlikeGoing r g h
        → AlikeBodies r (body_finished r g) (body_finished r h) }
{}
