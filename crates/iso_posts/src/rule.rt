//! The rule of a deque, which every step of its owner and its thieves keeps.
use crossbeam_deque::protocol::{Join, Lesson, Outcome, Protocol, Split};
use std::collections::LinkedList;

/// Whose a pass is.
pub enum Role {
    Owner,
    Thief,
    /// Nobody's: it was joined to the owner's.
    Spent,
}

/// What is known by whom a pass of a deque is for. No value of it is made.
pub struct Hand {
    pub role: Role,
    pub posted: LinkedList<u32>,
    /// What its owner took, or its thief stole.
    pub taken: LinkedList<u32>,
    /// What the thieves had stolen whose passes were joined to it.
    pub returned: LinkedList<u32>,
    /// How many thieves' passes were split off it and not joined to it.
    pub thieves: u64,
}

/// The rule: what was posted was taken or stolen, or lies in the deque.
pub struct Fair;

impl Protocol<u32, Hand> for Fair {
    ghost use Rattle.iso_posts.specs.Rules.{IsFair, owner_hand, spent_hand};

    ghost holds = { IsFair };

    ghost first = { owner_hand };

    ghost guest = { spent_hand };
}

/// A thief's pass, split off the owner's or joined to it.
pub struct Thieving;

impl Split<Hand> for Thieving {
    ghost use Rattle.iso_posts.specs.Rules.{thief_hand, with_thief};

    ghost left = { with_thief };

    ghost right = { λ v. thief_hand };
}

impl Join<Hand> for Thieving {
    ghost use Rattle.iso_posts.specs.Rules.{spent_hand, with_returned};

    ghost both = { with_returned };

    ghost spent = { spent_hand };
}

/// A node is posted.
pub struct Posting;

impl Outcome<u32, Hand> for Posting {
    ghost use Rattle.std.specs.Prelude.{◌≡◌};
    ghost use Rattle.iso_posts.specs.Rules.{with_posted};

    ghost then = { λ v xs w. w ≡ with_posted v xs };
}

/// A node is taken or stolen.
pub struct Taking;

impl Outcome<u32, Hand> for Taking {
    ghost use Rattle.std.specs.Prelude.{◌≡◌, []};
    ghost use Rattle.iso_posts.specs.Rules.{Knows, with_taken};

    ghost then = { λ v xs w. w ≡ with_taken v xs };

    ghost empty = { λ v. Knows v [] };
}

/// The account of a deque at one moment.
pub struct Accounting;

impl Lesson<u32, Hand> for Accounting {
    ghost use Rattle.iso_posts.specs.Rules.{Knows};

    ghost fact = { Knows };
}
