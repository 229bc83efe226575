//! Deques, by their owner and by thieves in threads of their own.
use iso_posts::owner::Owner;
use iso_posts::posts::Posts;
use iso_posts::thief::{Stolen, Thief};
use std::alloc::Global;
use std::test::Fail;
use std::thread;

/// The owner of one deque and its only thief.
fn pair(alloc: Global) -> Result<(Owner, Thief), Fail> {
    let mut owner = Owner::new(alloc)?;
    let thief = owner.thief()?;
    Ok((owner, thief))
}

/// The node that a steal gives in the end, or none where the deque is empty.
fn steal_on(thief: &mut Thief) -> Option<u32> {
    for _ in 0..u64::MAX {
        match thief.steal() {
            Stolen::Node(node) => return Some(node),
            Stolen::Empty => return None,
            Stolen::Again => {}
        }
    }
    None
}

/// Whether an owner posts the nodes 4, 5 and 6.
fn posts_three(owner: &mut Owner) -> bool {
    owner.post(4).is_ok() && owner.post(5).is_ok() && owner.post(6).is_ok()
}

/// What an owner takes before each of some steals and after the last, and what these steal.
fn turns(owner: &mut Owner, thief: &mut Thief) -> [Option<u32>; 5] {
    [
        owner.take(),
        steal_on(thief),
        owner.take(),
        steal_on(thief),
        owner.take(),
    ]
}

#[test]
fn owner_and_thief_get_each_node_once(rt: HostRuntime) -> Result<(), Fail> {
    let (mut owner, mut thief) = pair(rt.alloc())?;
    assert!(&rt; posts_three(&mut owner) && owner.balance() == 3);
    let told = turns(&mut owner, &mut thief);
    assert_eq!(&rt; told, [Some(4), Some(5), Some(6), None, None]);
    assert_eq!(&rt; owner.balance(), 0);
    Ok(())
}

/// What two thieves steal in turns, and what their owner takes then.
fn steals(owner: &mut Owner, first: &mut Thief, second: &mut Thief) -> [Option<u32>; 5] {
    [
        steal_on(first),
        steal_on(second),
        steal_on(first),
        steal_on(second),
        owner.take(),
    ]
}

#[test]
fn thieves_alone_get_each_node_once(rt: HostRuntime) -> Result<(), Fail> {
    let (mut owner, mut first) = pair(rt.alloc())?;
    let mut second = owner.thief()?;
    assert!(&rt; posts_three(&mut owner));
    let told = steals(&mut owner, &mut first, &mut second);
    assert_eq!(&rt; told, [Some(4), Some(5), Some(6), None, None]);
    Ok(())
}

#[test]
fn nodes_come_first_in_first_out(rt: HostRuntime) -> Result<(), Fail> {
    let mut owner = Owner::new(rt.alloc())?;
    let thief = owner.thief()?;
    owner.join(thief);
    for node in 0..5_000 {
        assert!(&rt; owner.post(node).is_ok());
    }
    for node in 0..5_000 {
        assert_eq!(&rt; owner.take(), Some(node));
    }
    assert_eq!(&rt; owner.take(), None);
    Ok(())
}

/// So many that two thieves are in each other's way, on one processor too.
const MANY: u32 = 200_000;

/// Whether an owner posts `MANY` nodes.
fn posts_many(owner: &mut Owner) -> bool {
    for node in 0..MANY {
        if owner.post(node).is_err() {
            return false;
        }
    }
    true
}

/// How often a thief asks again who was told that the deque is empty.
const ASKED_AGAIN: u32 = 100;

/// Whether a thief finds the deque empty each time that it asks again.
fn stays_empty(thief: &mut Thief) -> bool {
    for _ in 0..ASKED_AGAIN {
        if thief.steal() != Stolen::Empty {
            return false;
        }
    }
    true
}

/// How many nodes a thief steals until it is told that the deque is empty, or nothing where it
/// isn't from then on.
fn count_stolen(mut thief: Thief) -> Option<u32> {
    let mut count: u32 = 0;
    for _ in 0..u64::MAX {
        match thief.steal() {
            Stolen::Node(_) => count = count.saturating_add(1),
            Stolen::Empty => break,
            Stolen::Again => {}
        }
    }
    stays_empty(&mut thief).then_some(count)
}

/// Both thieves' nodes.
fn sum(first: Option<u32>, second: Option<u32>) -> Option<u32> {
    Some(first?.saturating_add(second?))
}

/// Two thieves steal at once, and nobody posts any more: who is told that the deque is empty finds
/// it so for ever, and who is told to try again isn't told that.
#[test]
fn thief_is_told_of_an_empty_deque_when_it_is_empty(rt: HostRuntime) -> Result<(), Fail> {
    let (mut owner, first) = pair(rt.alloc())?;
    let second = owner.thief()?;
    assert!(&rt; posts_many(&mut owner));
    let (one, other) = thread::join(
        &rt,
        move || count_stolen(first),
        move || count_stolen(second),
    );
    assert_eq!(&rt; sum(one, other), Some(MANY));
    Ok(())
}

/// Whether the thieves of the first of `workers` workers steal what each other worker posted, in
/// the order of the workers.
fn first_finds_all(alloc: Global, workers: u32) -> Result<bool, Fail> {
    let mut seats = Posts::new(alloc, workers as usize)?;
    for worker in 0..workers {
        let Some(seat) = seats.get_mut(worker as usize) else {
            return Ok(false);
        };
        if seat.owner.post(worker).is_err() {
            return Ok(false);
        }
    }
    let Some(first) = seats.get_mut(0) else {
        return Ok(false);
    };
    for worker in 1..workers {
        let Some(thief) = first.thieves.get_mut(worker as usize - 1) else {
            return Ok(false);
        };
        if steal_on(thief) != Some(worker) {
            return Ok(false);
        }
    }
    Ok(first.owner.take() == Some(0))
}

#[test]
fn a_worker_steals_from_every_other(rt: HostRuntime) -> Result<(), Fail> {
    for workers in [1, 2, 64] {
        assert!(&rt; first_finds_all(rt.alloc(), workers)?);
    }
    Ok(())
}
