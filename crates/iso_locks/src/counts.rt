//! Counts by number.
ghost use Rattle.std.specs.Prelude.{◌≡◌, ◌<◌, ◌+◌, ◌-◌, ◌++◌, ◌≤◌, IfOk, length, replicate, slice_index_or, slice_set, vec_capacity};
ghost use Rattle.iso_locks.specs.Lockers.{under_it};

use std::alloc::{AllocError, Global};
use std::marker::Model;

/// A count for each number, at first 0. Those behind the last that was set aren't written down:
/// each worker has such counts of all nodes, and sets few of them, or none.
#[derive(Drop)]
pub(crate) struct Counts {
    // Of 16 bits, which hold the number of a plan's nodes.
    written: Vec<u16>,
    all: usize,
}

impl Model for Counts {
    ghost use Rattle.std.specs.Prelude.{List, ℕ, vec_capacity};
    ghost use Rattle.std.specs.Coded.{coded_list, coded_ℕ};
    ghost use Rattle.iso_locks.specs.Lockers.{HasRoom, with_zeros};

    ghost Value = { List ℕ };

    ghost coded = { coded_list coded_ℕ };

    ghost view = { λ c. with_zeros c.written.items c.all };

    ghost invariant = { λ c. HasRoom c.written.items c.all (vec_capacity c.written) };
}

impl Counts {
    /// Of these many numbers. It takes all memory that its calls need.
    pub(crate) fn new(alloc: Global, all: usize) -> Result<Counts, AllocError>
        ensures { IfOk result (λ c. c ≡ replicate all 0) }
    {
        Ok(Counts {
            written: Vec::with_capacity(alloc, all)?,
            all,
        })
    }

    /// The count of a number.
    pub(crate) fn get(&self, number: usize) -> u16
        ensures { result ≡ under_it self.now number }
    {
        count_of(&self.written, number)
    }

    /// Sets the count of a number. Takes no memory.
    pub(crate) fn set(&mut self, number: usize, count: u16)
        requires { number < length self.old }
        ensures { self.new ≡ slice_set self.old number count }
    {
        reach(&mut self.written, number);
        self.written[number] = count;
    }
}

/// The count that is written for a number, or 0.
fn count_of(written: &[u16], number: usize) -> u16
    ensures { result ≡ slice_index_or written.now number 0 }
{
    match written.get(number) {
        Some(count) => *count,
        None => 0,
    }
}

/// Writes down zeros up to a number, for which there is room.
fn reach(written: &mut Vec<u16>, number: usize)
    requires { number < vec_capacity written.old }
    ensures zeros { written.new.items ≡ written.old.items
        ++ replicate (number + 1 - length written.old.items) 0 }
    ensures room { vec_capacity written.old ≤ vec_capacity written.new }
{
    if number >= written.len() {
        let _reached = written.resize(number + 1, 0);
    }
}
