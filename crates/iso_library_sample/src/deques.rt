//! Deques alone: what the first of four workers posts all of them take or steal.
use anyhow::Result;
use iso_posts::posts::{PostSeat, Posts};
use iso_posts::thief::Stolen;
use std::sync::Wait;
use std::sync::atomic::{AtomicU64, Ordering};
use std::thread::{self, Threads};

/// Posts the numbers from 1 to 100, and prints the sum of those that the workers got.
pub fn run<R: AllocGlobal + Print + Threads + Wait + Sync>(rt: &R) -> Result<()> {
    let mut seats = Posts::new(rt.alloc(), 4)?;
    for number in 1..=100 {
        seats[0].owner.post(number).map_err(|(_, fault)| fault)?;
    }
    let sum = AtomicU64::new(0);
    thread::map_vec(rt, seats, &|seat| add_up(rt, seat, &sum))?;
    println!(rt; "1 + .. + 100 = {}", sum.load(Ordering::SeqCst))?;
    Ok(())
}

/// Adds up what a worker gets, until it finds no more.
fn add_up<R: Wait>(rt: &R, mut seat: PostSeat, sum: &AtomicU64) {
    for _ in rt.forever() {
        let Some(number) = next(rt, &mut seat) else {
            return;
        };
        sum.fetch_add(u64::from(number), Ordering::SeqCst);
    }
}

/// A number from the worker's own deque, else from another's.
fn next<R: Wait>(rt: &R, seat: &mut PostSeat) -> Option<u32> {
    if let Some(number) = seat.owner.take() {
        return Some(number);
    }
    for thief in seat.thieves.iter_mut() {
        for _ in rt.forever() {
            match thief.steal() {
                Stolen::Node(number) => return Some(number),
                Stolen::Empty => break,
                Stolen::Again => {}
            }
        }
    }
    None
}
