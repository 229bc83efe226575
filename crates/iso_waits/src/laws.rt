//! Laws of waits. Each function does nothing: its contract is the law, and is proved.
ghost use Rattle.std.specs.Prelude.{◌≡◌, ◌<◌, ◌≤◌, ℕ, IfSome, List, Option, filter, length};
ghost use Rattle.std.specs.List.{All, Any, list_any};
ghost use Rattle.std.specs.Option.{is_some};
ghost use Rattle.iso_plan.specs.Locks.{conflict, locks};
ghost use Rattle.iso_plan.specs.Tree.{Row};
ghost use Rattle.iso_settings.specs.declared.settings.Settings.{Settings};
ghost use Rattle.iso_times.specs.declared.times.BodyTime.{BodyTime};
ghost use Rattle.iso_waits.specs.AllWaits.{IsFor, has_key, key_of, node_waits, wait_for};
ghost use Rattle.iso_waits.specs.ContendedKeys.{contended_key};
ghost use Rattle.iso_waits.specs.Covers.{AddUpTo, Covers};
ghost use Rattle.iso_waits.specs.Turns.{AreInTurn, waited_for};
ghost use Rattle.iso_waits.specs.Moments.{waits_within};
ghost use Rattle.iso_waits.specs.Waits.{waits};
ghost use Rattle.iso_waits.specs.declared.wait.Wait.{Wait};

/// The waits between two moments lie between them and follow one another: none begins before the
/// one before it is over.
pub fn waits_follow_one_another()
    ensures { (holder : ℕ → Option ℕ) (from until : ℕ)
        → AreInTurn from until (waits_within holder from until) }
{}

/// At each moment between, who is waited for is who is in the way then, and nobody else.
pub fn each_moment_is_told()
    ensures { (holder : ℕ → Option ℕ) (from until t : ℕ) → from ≤ t → t < until
        → waited_for t (waits_within holder from until) ≡ holder t }
{}

/// A node waits for nodes that conflict with it.
pub fn waits_are_for_conflicting_nodes()
    ensures { (tree : List Row) (settings : Settings) (bodies : List (Option BodyTime)) (n : ℕ)
        → All (IsFor tree n) (waits tree settings bodies n) }
{}

/// Two nodes have a key on which they conflict just where they conflict.
pub fn nodes_conflict_on_a_key()
    ensures { (tree : List Row) (m n : ℕ) → is_some (contended_key tree m n) ≡ conflict tree m n }
{}

/// Each single wait of a node lies within what is told of its waits for the same key, and isn't
/// longer than the longest that is told.
pub fn single_waits_lie_within()
    ensures { (tree : List Row) (settings : Settings) (bodies : List (Option BodyTime)) (n : ℕ)
        → All (λ w. Any (λ sum. Covers (key_of tree n w) sum w) (node_waits tree settings bodies n))
        (waits tree settings bodies n) }
{}

/// What is told of a node's waits for a key is how long its single waits for this key took
/// together, and how many there were.
pub fn single_waits_add_up()
    ensures { (tree : List Row) (n k : ℕ) (ws : List Wait)
        → IfSome (wait_for tree n ws k) (AddUpTo (filter (has_key tree n k) ws)) }
{}

/// A wait for a key is told just where there is a single one.
pub fn waits_are_told_where_there_are_any()
    ensures { (tree : List Row) (n k : ℕ) (ws : List Wait) → is_some (wait_for tree n ws k)
        ≡ list_any (has_key tree n k) ws }
{}

/// A node has at most as many waits as it takes keys.
pub fn waits_are_no_more_than_locks()
    ensures { (tree : List Row) (settings : Settings) (bodies : List (Option BodyTime)) (n : ℕ)
        → length (node_waits tree settings bodies n) ≤ length (locks tree n) }
{}
