//! Worked examples of the definitions, as public laws.
ghost use Rattle.std.specs.Prelude.{◌≡◌, [], ◌∷◌, codes, false, true};
ghost use Rattle.iso_plan.specs.Examples.{cart_and_desk, concurrent_by_default, isolated_with_keys, loose, nested, one_thread, read_lock, reading_children, write_lock, writing_children};
ghost use Rattle.iso_why.specs.Examples.{lines};
ghost use Rattle.iso_why.specs.Givers.{givers};
ghost use Rattle.iso_why.specs.ModeReasons.{reason};
ghost use Rattle.iso_why.specs.PlanWhy.{plan_why, tests_why};
ghost use Rattle.iso_why.specs.declared.why.Cause.TheVariants.{Default, Forced, Marked, Off};

/// Below the line of a node stand its mode's and those of its locks.
pub fn plan_has_its_reasons()
    ensures { plan_why cart_and_desk concurrent_by_default 2 [] [] ≡ lines
        (codes "workers 2"
        ∷ codes "1 class concurrent [r:iso:global,w:K] shop.Cart"
        ∷ codes "    mode: marked"
        ∷ codes "    r:iso:global from every top-level class"
        ∷ codes "    w:K from shop.Cart.b"
        ∷ codes "2 test same_thread [] shop.Cart.a"
        ∷ codes "    mode: forced by w:K of shop.Cart"
        ∷ codes "3 test same_thread [] shop.Cart.b"
        ∷ codes "    mode: forced by w:K of shop.Cart"
        ∷ codes "4 class concurrent [w:iso:global] shop.Desk"
        ∷ codes "    mode: by mode.classes.default"
        ∷ codes "    w:iso:global from isolated shop.Desk.Till"
        ∷ codes "5 test same_thread [] shop.Desk.c"
        ∷ codes "    mode: forced by w:iso:global of shop.Desk"
        ∷ codes "6 class same_thread [] shop.Desk.Till"
        ∷ codes "    mode: forced by w:iso:global of shop.Desk"
        ∷ codes "7 test same_thread [] shop.Desk.Till.d"
        ∷ codes "    mode: forced by w:iso:global of shop.Desk"
        ∷ []) }
{}

/// Of tests alone the same.
pub fn tests_have_their_reasons()
    ensures { tests_why nested concurrent_by_default [] [] ≡ lines
        (codes "3 test same_thread [] shop.Out.In.i"
        ∷ codes "    mode: marked on shop.Out.In"
        ∷ codes "4 test concurrent [w:L] shop.Out.w"
        ∷ codes "    mode: marked on shop.Out"
        ∷ codes "    w:L from shop.Out.w"
        ∷ []) }
{}

/// A class that writes forces its descendants, whatever is marked there, and not itself; then a
/// mark counts, the nearest; then the default.
pub fn force_comes_before_marks()
    ensures off { reason cart_and_desk one_thread 2 ≡ Off }
    ensures forced { reason cart_and_desk concurrent_by_default 2 ≡ Forced 1 1 }
    ensures marked { reason cart_and_desk concurrent_by_default 1 ≡ Marked 1 }
    ensures inherited { reason loose concurrent_by_default 4 ≡ Marked 3 }
    ensures top { reason loose concurrent_by_default 1 ≡ Default true }
    ensures default { reason loose concurrent_by_default 2 ≡ Default false }
{}

/// Who writes gave a key that is taken for READ_WRITE, and who reads doesn't; a mark for children
/// is one of each child.
pub fn marks_gave_the_locks()
    ensures writer { givers cart_and_desk 1 (write_lock 1) ≡ 3 ∷ [] }
    ensures readers { givers nested 2 (read_lock 1) ≡ 2 ∷ [] }
    ensures below { givers nested 2 (read_lock 2) ≡ 3 ∷ [] }
    ensures isolated { givers isolated_with_keys 1 (write_lock 0) ≡ 3 ∷ [] }
    ensures inside { givers isolated_with_keys 1 (write_lock 2) ≡ 4 ∷ [] }
    ensures child { givers writing_children 2 (write_lock 1) ≡ 2 ∷ [] }
    ensures grandchild { givers reading_children 2 (write_lock 1) ≡ 4 ∷ [] }
{}
