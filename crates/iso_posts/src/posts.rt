//! A deque for each worker of a pool.
ghost use Rattle.std.specs.Prelude.{◌+◌, IfOk, length, OnOk};
ghost use Rattle.iso_posts.specs.Seats.{ArePosts};

use crate::owner::Owner;
use crate::thief::Thief;
use std::alloc::{AllocError, Global};

/// What a worker of a pool has of its deques.
pub struct PostSeat {
    /// Of its own deque.
    pub owner: Owner,
    /// Of every other worker's deque, in the order of the workers.
    pub thieves: Vec<Thief>,
}

impl Drop for PostSeat {
    fn drop(self) {
        let PostSeat {
            owner: _,
            thieves: _,
        } = self;
    }
}

/// The deques of a pool.
pub struct Posts;

impl Posts {
    /// A seat for each worker, in their order. Nothing lies in their deques.
    pub fn new(alloc: Global, workers: usize) -> Result<Vec<PostSeat>, AllocError>
        ensures { IfOk result (λ seats. ArePosts workers seats.items) }
    {
        let mut seats = Vec::with_capacity(alloc, workers)?;
        for _ in 0..workers {
            add_seat(alloc, workers, &mut seats)?;
        }
        Ok(seats)
    }
}

// The seat of one worker more, who steals from all others, and from whom all others steal. It has
// room for thieves of `workers` workers.
fn add_seat(alloc: Global, workers: usize, seats: &mut Vec<PostSeat>) -> Result<(), AllocError>
    requires { ArePosts (length seats.old.items) seats.old.items }
    ensures { OnOk result (ArePosts (length seats.old.items + 1) seats.new.items) }
{
    let mut owner = Owner::new(alloc)?;
    let mut thieves = Vec::with_capacity(alloc, workers)?;
    for at in 0..seats.len() {
        let other: &mut PostSeat = &mut seats[at];
        thieves.push(other.owner.thief()?)?;
        other.thieves.push(owner.thief()?)?;
    }
    seats.push(PostSeat { owner, thieves })?;
    Ok(())
}
