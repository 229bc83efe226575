//! Values that move between slots of the same numbers.
ghost use Rattle.std.specs.Prelude.{◌≡◌, ◌<◌, None, false, length, slice_set, true};
ghost use Rattle.std.specs.List.{list_any};
ghost use Rattle.std.specs.Option.{option_or};
ghost use Rattle.iso_locks.specs.Moves.{AreAllButFirst, AreWithin, BeginAtSecond, moved_away, moved_here, put_here, taken_away, writes_key};
ghost use Rattle.iso_locks.specs.Slots.{slot};
ghost use Rattle.iso_locks.specs.declared.moves.Moves.TheVariants.{AllButFirst, Nothing};
ghost use Rattle.iso_plan.specs.Locks.{is_write};

use crate::slots::Slots;
use iso_model::access::Access;
use iso_plan::lock::Lock;
use std::mem;

/// What of some locks' values moves, as far as it is known without a look at each.
#[derive(Clone, Copy)]
pub(crate) enum Moves {
    /// Nothing: no lock is for READ_WRITE.
    Nothing,
    /// The values of all keys but the first: the locks are on these for READ_WRITE.
    AllButFirst,
    /// What the locks for READ_WRITE are on.
    Written,
}

/// Moves what locks for READ_WRITE are on from there to here, where it is there. Takes no memory.
pub(crate) fn move_values(locks: &[Lock], moves: Moves, there: &mut Slots, here: &mut Slots)
    requires fits { length there.old ≡ length here.old }
    requires within { AreWithin (length here.old) locks.now }
    requires nothing { moves ≡ Nothing → list_any is_write locks.now ≡ false }
    requires all { moves ≡ AllButFirst → AreAllButFirst (length there.old) locks.now }
    ensures here { here.new ≡ moved_here locks.now there.old here.old }
    ensures there { there.new ≡ moved_away locks.now there.old }
{
    match moves {
        Moves::Nothing => {}
        Moves::AllButFirst => move_all_but_first(locks, there, here),
        Moves::Written => move_written(locks, there, here),
    }
}

/// Moves the values of all keys but the first, which these locks are on. If nothing but the first
/// value is here, it costs the same for many keys as for one.
fn move_all_but_first(locks: &[Lock], there: &mut Slots, here: &mut Slots)
    requires fits { length there.old ≡ length here.old }
    requires within { AreWithin (length here.old) locks.now }
    requires all { AreAllButFirst (length there.old) locks.now }
    ensures here { here.new ≡ moved_here locks.now there.old here.old }
    ensures there { there.new ≡ moved_away locks.now there.old }
{
    if here.has_none_from(1) {
        swap_but_first(there, here);
    } else {
        move_written(locks, there, here);
    }
}

/// Moves what locks for READ_WRITE are on, one value after another.
fn move_written(locks: &[Lock], there: &mut Slots, here: &mut Slots)
    requires fits { length there.old ≡ length here.old }
    requires within { AreWithin (length here.old) locks.now }
    ensures here { here.new ≡ moved_here locks.now there.old here.old }
    ensures there { there.new ≡ moved_away locks.now there.old }
{
    'locks: for n in 0..locks.len() {
        move_locked(locks[n], there, here);
    }
}

/// Swaps all values but the first.
fn swap_but_first(there: &mut Slots, here: &mut Slots)
    requires there { 0 < length there.old }
    requires here { 0 < length here.old }
    ensures here { here.new ≡ slice_set there.old 0 (slot here.old 0) }
    ensures there { there.new ≡ slice_set here.old 0 (slot there.old 0) }
{
    let first = here.take(0);
    mem::swap(there, here);
    let other = here.take(0);
    here.put(0, first);
    there.put(0, other);
}

/// Whether the first of some locks is on the second key, for READ_WRITE.
pub(crate) fn begin_at_second(locks: &[Lock]) -> bool
    ensures { result ≡ true → BeginAtSecond locks.now }
{
    if locks.is_empty() {
        return false;
    }
    writes(locks[0], 1)
}

/// Whether a lock is on a key for READ_WRITE.
fn writes(lock: Lock, key: u32) -> bool
    ensures { result ≡ writes_key lock key }
{
    match lock.access {
        Access::Write => lock.key == key,
        Access::Read => false,
    }
}

/// Moves what one lock is on, if it is for READ_WRITE.
fn move_locked(lock: Lock, there: &mut Slots, here: &mut Slots)
    requires there { lock.key < length there.old }
    requires here { lock.key < length here.old }
    ensures here { here.new ≡ put_here lock there.old here.old }
    ensures there { there.new ≡ taken_away lock there.old }
{
    match lock.access {
        Access::Write => move_slot(lock.key as usize, there, here),
        Access::Read => {}
    }
}

/// Moves the value with a number, if it is there.
fn move_slot(number: usize, there: &mut Slots, here: &mut Slots)
    requires there { number < length there.old }
    requires here { number < length here.old }
    ensures here { here.new ≡ slice_set here.old number
        (option_or (slot there.old number) (slot here.old number)) }
    ensures there { there.new ≡ slice_set there.old number None }
{
    if let Some(held) = there.take(number) {
        here.put(number, Some(held));
    }
}
