//! Worked examples of what is told, as public laws.
ghost use Rattle.std.specs.Prelude.{◌≡◌, [], ◌∷◌, Some, codes, take};
ghost use Rattle.iso_explain_plan.specs.Doubles.{double_notes};
ghost use Rattle.iso_explain_plan.specs.Examples.{at, fault_at, lines_of, shop_scripts, sized, some_paths};
ghost use Rattle.iso_explain_plan.specs.Largest.{by_size};
ghost use Rattle.iso_explain_plan.specs.Plans.{keys_notes, nodes_notes, scripts_note};
ghost use Rattle.iso_explain_plan.specs.Refusals.{why_notes};
ghost use Rattle.iso_explain_plan.specs.RefusedEvents.{why_text};
ghost use Rattle.iso_explain_plan.specs.Schedules.{fault_text};
ghost use Rattle.iso_explain_plan.specs.UnfinishedTexts.{unfinished_notes};
ghost use Rattle.iso_explain_plan.specs.Unselected.{unselected_notes};
ghost use Rattle.iso_explain_plan.specs.declared.unfinished.Stage.TheVariants as Stage;
ghost use Rattle.iso_plan.specs.Examples.{cart_and_desk, two_classes};
ghost use Rattle.iso_schedule.specs.declared.fault.ScheduleFaultKind.TheVariants as K;
ghost use Rattle.iso_standing.specs.declared.event.Event.TheVariants.{Enter, Leave, Shut, Step};
ghost use Rattle.iso_standing.specs.declared.refused.Refused.TheVariants as R;

/// Of two classes of one path both places are told, or that one file is named twice.
pub fn both_classes_are_told()
    ensures two { double_notes (codes "shop.Cart") (at "a.jtap" 3 7) (at "b\n.jtap" 12 7)
        ≡ lines_of
        (" = class shop.Cart stands at a.jtap:3:7 and at b\\n.jtap:12:7"
        ∷ " = two classes of one team have one name: rename one of them"
        ∷ []) }
    ensures twice { double_notes (codes "shop.Cart") (at "a.jtap" 3 7) (at "a.jtap" 3 7)
        ≡ lines_of (" = a.jtap is named twice, so each of its classes stands twice: name it once"
        ∷ []) }
{}

/// Of too many classes and tests, keys or scripts it is told how many there are, and of which
/// classes most are.
pub fn largest_classes_are_told()
    ensures nodes { nodes_notes 5000
        (take 3 (by_size (sized "shop.A" 7 ∷ sized "shop.B" 4000 ∷ sized "shop.C" 7
        ∷ sized "shop.D" 986 ∷ [])))
        ≡ lines_of
        (" = the scripts have 5000 classes and tests, and a plan has at most 4095"
        ∷ " = shop.B has 4000 of them"
        ∷ " = shop.D has 986 of them"
        ∷ " = shop.A has 7 of them"
        ∷ " = --only, --match and --shard keep a part of a suite"
        ∷ []) }
    ensures keys { keys_notes 300 (take 3 (by_size (sized "shop.A" 300 ∷ [])))
        ≡ lines_of
        (" = the scripts declare 300 different keys, and a plan has at most 255"
        ∷ " = shop.A has 300 of them"
        ∷ " = --only, --match and --shard keep a part of a suite"
        ∷ []) }
    ensures scripts { scripts_note 65 ≡ lines_of
        (" = there are 65 scripts, and at most 64 may be given" ∷ []) }
{}

/// Of a word that names nothing it is told what was meant: a team is no class, the last name alone
/// is no path, and else the nearest.
pub fn what_was_meant_is_told()
    ensures team { unselected_notes (codes "shop") shop_scripts some_paths
        ≡ lines_of (" = shop is a team: name a class, as shop.Cart, or all of it by --match 'shop.*'" ∷ []) }
    ensures name { unselected_notes (codes "Cart") shop_scripts some_paths
        ≡ lines_of (" = did you mean shop.Cart?" ∷ []) }
    ensures names { unselected_notes (codes "a") []
        (codes "s.A.a" ∷ codes "s.B.a" ∷ codes "s.C.a" ∷ codes "s.D.a" ∷ [])
        ≡ lines_of (" = did you mean s.A.a, s.B.a or s.C.a?" ∷ []) }
    ensures near { unselected_notes (codes "shop.Dask") shop_scripts some_paths
        ≡ lines_of (" = did you mean shop.Desk or shop.Cart?" ∷ []) }
    ensures star { unselected_notes (codes "Cart*") shop_scripts some_paths
        ≡ lines_of (" = the whole path has to match a pattern of --match, where * stands for any bytes: begin with * or a team" ∷ []) }
    ensures far { unselected_notes (codes "x") shop_scripts some_paths
        ≡ lines_of (" = a path is the names of the team, the classes and the test, with dots between: `jtap plan` prints them" ∷ []) }
{}

/// Of bytes that are no schedule the line is shown, and what an event is; of a number and of a
/// schedule, how large it may be.
pub fn faults_of_schedules_are_told()
    ensures line { fault_text (fault_at K.BadLine 2) (codes "enter 0 1\r\nEnter 1 5\r\n")
        ≡ lines_of
        (" 2 | Enter 1 5"
        ∷ "   | ^^^^^^^^^ this is no event"
        ∷ " = an event is `enter W N`, `step W`, `leave W` or `shut W N`: W is a worker, N a node, both in digits"
        ∷ " = spaces stand between its words, and none before or behind them"
        ∷ []) }
    ensures number { fault_text (fault_at K.NumberTooBig 1) (codes "step 0000000000")
        ≡ lines_of
        (" 1 | step 0000000000"
        ∷ "   | ^^^^^^^^^^^^^^^ a number here is too long"
        ∷ " = it has 10 digits, and at most 9 are read, zeros in front among them"
        ∷ []) }
    ensures long { fault_text (fault_at K.TooLong 1) (codes "step 0")
        ≡ lines_of (" = at most 1048576 bytes stand in a schedule" ∷ []) }
{}

/// Of an event that is refused the line is shown, and why.
pub fn refused_events_are_told()
    ensures locked { why_text 12 (codes "enter 1 4") (Enter 1 4) (R.LockHeld 1) cart_and_desk
        ≡ lines_of
        (" 12 | enter 1 4"
        ∷ "    | ^^^^^^^^^ this event is refused"
        ∷ " = shop.Desk takes iso:global for write; shop.Cart holds it for read, entered and not left"
        ∷ " = shop.Cart has to be finished first: a test by its leave, a class by the leave of its after_all"
        ∷ []) }
    ensures worker { why_notes cart_and_desk (Step 7) R.NoWorker
        ≡ lines_of (" = there is no worker 7: workers count from 0, and `jtap plan` tells how many there are" ∷ []) }
    ensures node { why_notes cart_and_desk (Enter 0 9) R.NoNode
        ≡ lines_of (" = there is no node 9: classes and tests are 1 to 7" ∷ []) }
    ensures busy { why_notes cart_and_desk (Enter 1 4) R.WorkerBusy
        ≡ lines_of (" = worker 1 has a body: `leave 1` has to come first" ∷ []) }
    ensures owner { why_notes cart_and_desk (Enter 1 3) R.NotOwner
        ≡ lines_of (" = shop.Cart.b is same_thread: the worker that entered shop.Cart has to enter it" ∷ []) }
    ensures sibling { why_notes cart_and_desk (Enter 0 3) R.EarlierSibling
        ≡ lines_of (" = shop.Cart.b is same_thread: each same_thread node before it in shop.Cart has to be finished first" ∷ []) }
    ensures root { why_notes cart_and_desk (Enter 0 0) R.AlreadyEntered
        ≡ lines_of (" = node 0 is the root, which no worker enters" ∷ []) }
    ensures body { why_notes cart_and_desk (Leave 3) R.BodyNotEnded
        ≡ lines_of (" = the body of worker 3 has a step left: `step 3` has to come first" ∷ []) }
    ensures shut { why_notes cart_and_desk (Shut 0 2) R.NotClass
        ≡ lines_of (" = shop.Cart.a is a test: classes alone are shut" ∷ []) }
{}

/// Of a schedule that leaves a class the first such class is told.
pub fn what_is_left_is_told()
    ensures { unfinished_notes two_classes (Some (record { node = 3; stage = Stage.Untouched }))
        ≡ lines_of
        (" = the schedule ends before every class and test is finished"
        ∷ " = the first that isn't is shop.B: it isn't entered"
        ∷ []) }
{}
