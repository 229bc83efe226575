//! The workers who wait, and whom a change calls. Its rules:
//!
//! 1. It is kept of each worker whether it waits, whether it was called since, and what it saw.
//! 2. A call marks just one worker that waits, wasn't called and has something to wake for, if any.
//! 3. One is enough: who is called makes a turn, which ends with a call, so that it calls the next.
ghost use Rattle.std.specs.Prelude.{◌≡◌, ◌<◌, ◌≤◌, ℕ, false, true, length, MatchOption, IfOk, slice_set};
ghost use Rattle.iso_desk.specs.Crews.{HasNothing, HaveNothing, IsToCall, awaiting_in, awaits, called, idle_crew, looking, member_of, waiting};
ghost use Rattle.iso_desk.specs.Marking.{room};

use crate::count::recounted;
use crate::scene::{Scene, has_nothing_for};
use std::alloc::{AllocError, Global};

/// What is kept of a worker.
#[derive(Clone, Copy)]
pub struct Member {
    /// Whether it waits.
    pub waits: bool,
    /// Whether it was called since it began to wait.
    pub called: bool,
    /// How often nodes had been posted before its last look into the deques, if that found each of
    /// them empty.
    pub seen: Option<u64>,
}

impl Member {
    /// Whether it waits and wasn't called since.
    fn awaits(self) -> bool
        ensures { result ≡ awaits self }
    {
        self.waits && !self.called
    }
}

/// The workers of a desk.
pub struct Crew {
    members: Vec<Member>,
    /// How many wait and weren't called since: mostly none, and then nobody is looked for.
    awaiting: usize,
    ghost counted: { awaiting ≡ awaiting_in members.items },
}

impl Drop for Crew {
    fn drop(self) {
        let Crew {
            members: _,
            awaiting: _,
        } = self;
    }
}

impl Crew {
    /// Of `workers` workers, of whom none waits or has looked.
    pub fn new(alloc: Global, workers: u32) -> Result<Crew, AllocError>
        ensures { IfOk result (λ crew. crew.members.items ≡ idle_crew workers) }
    {
        let fresh = Member {
            waits: false,
            called: false,
            seen: None,
        };
        let members = vec![in alloc; fresh; workers as usize]?;
        Ok(Crew {
            members,
            awaiting: 0,
        })
    }

    /// What is kept of a worker.
    pub fn member(&self, worker: u32) -> Member
        requires { worker < length self.now.members.items }
        ensures { result ≡ member_of self.now.members.items worker }
    {
        self.members[worker as usize]
    }

    /// A worker begins to wait with what it has seen.
    pub fn wait(&mut self, worker: u32, seen: Option<u64>)
        requires { worker < length self.old.members.items }
        ensures { self.new.members.items ≡ waiting worker seen self.old.members.items }
    {
        let waiting = Member {
            waits: true,
            called: false,
            seen,
        };
        self.put(worker, waiting);
    }

    /// A worker waits no more, and what it has seen is past.
    pub fn wake(&mut self, worker: u32)
        requires { worker < length self.old.members.items }
        ensures { self.new.members.items ≡ looking worker self.old.members.items }
    {
        let looking = Member {
            waits: false,
            called: false,
            seen: None,
        };
        self.put(worker, looking);
    }

    /// Calls the lowest worker that waits, wasn't called since, and has something to wake for;
    /// nobody where there is none.
    pub fn call(&mut self, scene: &Scene) -> Option<u32>
        requires workers { length self.old.members.items ≡ scene.now.table.now.workers }
        requires held { 256 ≤ room scene.now.held.now }
        requires written { 256 ≤ room scene.now.written.now }
        ensures whom { MatchOption result
            (HaveNothing scene.now.table.now.places scene.now.held.now scene.now.written.now
            scene.now.is_over scene.now.is_loose scene.now.rounds self.old.members.items
            (length self.old.members.items)) (λ w. (w < length self.old.members.items)
            × IsToCall scene.now.table.now.places scene.now.held.now scene.now.written.now
            scene.now.is_over scene.now.is_loose scene.now.rounds w
            (member_of self.old.members.items w)
            × HaveNothing scene.now.table.now.places scene.now.held.now scene.now.written.now
            scene.now.is_over scene.now.is_loose scene.now.rounds self.old.members.items w) }
        ensures marked { self.new.members.items ≡ called result self.old.members.items }
    {
        if self.awaiting == 0 {
            return None;
        }
        let worker = next_to_call(&self.members, scene)?;
        let member = self.members[worker as usize];
        let marked = Member {
            called: true,
            ..member
        };
        self.put(worker, marked);
        Some(worker)
    }

    /// Keeps this of a worker.
    fn put(&mut self, worker: u32, member: Member)
        requires { worker < length self.old.members.items }
        ensures { self.new.members.items ≡ slice_set self.old.members.items worker member }
    {
        let was = self.members[worker as usize].awaits();
        // It is asked for what it proves: that they can be counted.
        let _count = self.members.len();
        self.awaiting = recounted(self.awaiting, was, member.awaits());
        self.members[worker as usize] = member;
    }
}

/// The lowest worker that is to be called.
fn next_to_call(members: &[Member], scene: &Scene) -> Option<u32>
    requires workers { length members.now ≡ scene.now.table.now.workers }
    requires held { 256 ≤ room scene.now.held.now }
    requires written { 256 ≤ room scene.now.written.now }
    ensures { MatchOption result
        (HaveNothing scene.now.table.now.places scene.now.held.now scene.now.written.now
        scene.now.is_over scene.now.is_loose scene.now.rounds members.now (length members.now))
        (λ w. (w < length members.now)
        × IsToCall scene.now.table.now.places scene.now.held.now scene.now.written.now
        scene.now.is_over scene.now.is_loose scene.now.rounds w (member_of members.now w)
        × HaveNothing scene.now.table.now.places scene.now.held.now scene.now.written.now
        scene.now.is_over scene.now.is_loose scene.now.rounds members.now w) }
{
    'members: for worker in 0..scene.table.workers() {
        if is_to_call(scene, worker, members[worker as usize]) {
            return Some(worker);
        }
    }
    None
}

/// Whether a worker is to be called of whom this is kept.
fn is_to_call(scene: &Scene, worker: u32, member: Member) -> bool
    requires worker { worker < scene.now.table.now.workers }
    requires held { 256 ≤ room scene.now.held.now }
    requires written { 256 ≤ room scene.now.written.now }
    ensures yes { result ≡ true → IsToCall scene.now.table.now.places scene.now.held.now
        scene.now.written.now scene.now.is_over scene.now.is_loose scene.now.rounds worker member }
    ensures no { result ≡ false → awaits member ≡ true
        → HasNothing scene.now.table.now.places scene.now.held.now scene.now.written.now
        scene.now.is_over scene.now.is_loose scene.now.rounds worker member.seen }
{
    if !member.awaits() {
        return false;
    }
    !has_nothing_for(scene, worker, member.seen)
}
