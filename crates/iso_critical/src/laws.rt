//! Laws of critical bodies. Each function does nothing: its contract is the law, and is proved.
ghost use Rattle.std.specs.Prelude.{◌≡◌, ◌+◌, ◌<◌, ◌≤◌, ℕ, IfSome, None, Some, length};
ghost use Rattle.iso_critical.specs.Bodies.{Run, ran};
ghost use Rattle.iso_critical.specs.Critical.{back_from, critical, previous};
ghost use Rattle.iso_critical.specs.declared.body.Body.{Body};

/// The body before another had ended when that one began, and ended before it did.
pub fn time_goes_back()
    ensures { (run : Run) (b : Body)
        → IfSome (previous run (Some b)) (λ p. (p.time.end ≤ b.time.begin)
        × (p.time.end < b.time.end)) }
{}

/// The way back ends where no body comes before: if more bodies were allowed for, it would be no
/// longer.
pub fn way_back_is_whole()
    ensures { (run : Run) (more : ℕ)
        → back_from run (length (ran run.bodies (length run.tree)) + more) (previous run None)
        ≡ critical run }
{}
