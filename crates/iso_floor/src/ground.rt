//! What is run on a floor.
ghost use Rattle.std.specs.Prelude.{ℕ};
ghost use Rattle.iso_floor.specs.Grounds.{no_plan};
ghost use Rattle.iso_plan.specs.Planned.{Planned};
ghost use Rattle.iso_settings.specs.Worlds.{Start, empty_start};

use std::marker::Brand;

/// What is run on a floor: a plan, starting values, and a number of workers. A floor and its seats
/// are of one ground by their type, so that no call of the floor compares plans: whoever makes a
/// floor picks its ground (`Brand`).
pub trait Ground {
    ghost plan: { Planned };

    ghost start: { Start };

    ghost workers: { ℕ };
}

impl Ground for Brand {
    ghost plan = { no_plan };

    ghost start = { empty_start };

    ghost workers = { 0 };
}
