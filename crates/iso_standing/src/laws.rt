//! Laws of standings. Each function does nothing: its contract is the law, and is proved.
ghost use Rattle.std.specs.Prelude.{ℕ};
ghost use Rattle.iso_isolation.specs.Events.{Step};
ghost use Rattle.iso_model.specs.Resources.{Resources};
ghost use Rattle.iso_standing.specs.Standings.{LooksLike, Standing, after_in, plain_state};
ghost use Rattle.iso_suites.specs.SuiteStates.{RunState};

/// Every standing is that of some state, so that what it tells of all states that look so is never
/// empty; and the Steps of a body leave it as it is.
pub fn standings_tell_of_states()
    ensures some { (v : Standing) → LooksLike v (plain_state v) }
    ensures step { (v : Standing) (start : Resources) (s : RunState) (w : ℕ) → LooksLike v s
        → LooksLike v (after_in v start s (Step w)) }
{}
