//! Laws of the table and of what is answered of it. Each function does nothing: its contract is the
//! law, and is proved.
ghost use Rattle.std.specs.Prelude.{◌≡◌, ◌≢◌, ◌<◌, ◌≤◌, ◌*◌, ℕ, IfSome, List, Option};
ghost use Rattle.iso_lifecycle.specs.declared.kind.BodyKind.{BodyKind};
ghost use Rattle.iso_lifecycle.specs.declared.kind.BodyKind.TheVariants.{AfterAll, BeforeAll};
ghost use Rattle.iso_times.specs.Tables.{first_begin, slot_of, time_in};
ghost use Rattle.iso_times.specs.declared.times.BodyTime.{BodyTime};

/// A table has a place for each body of its nodes. No place is that of two nodes, and a class's two
/// bodies have two.
pub fn each_body_has_a_place_of_its_own()
    ensures nodes { (m n : ℕ) (j k : BodyKind) → slot_of m j ≡ slot_of n k → m ≡ n }
    ensures bodies { (n : ℕ) → slot_of n BeforeAll ≢ slot_of n AfterAll }
    ensures within { (n nodes : ℕ) (k : BodyKind) → n < nodes → slot_of n k < 2 * nodes }
{}

/// No body begins before the first begin: what is told from then on is told from 0.
pub fn first_begin_is_the_lowest()
    ensures { (bodies : List (Option BodyTime)) (n : ℕ) (k : BodyKind)
        → IfSome (time_in bodies n k) (λ t. first_begin bodies ≤ t.begin) }
{}
