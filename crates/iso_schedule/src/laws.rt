//! Laws of the grammar, each a function whose contract it is.
ghost use Rattle.std.specs.Prelude.{◌≡◌, ℕ, List};
ghost use Rattle.iso_schedule.specs.Schedules.{AreRead, Reading};

/// Bytes are read as one thing: events, or a fault.
pub fn bytes_have_one_reading()
    ensures some { (bytes : List ℕ) → (r : Reading) × AreRead bytes r }
    ensures no_other { (bytes : List ℕ) (r q : Reading) → AreRead bytes r
        → AreRead bytes q → r ≡ q }
{}
