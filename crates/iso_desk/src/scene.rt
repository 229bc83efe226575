//! What workers see who wait under the lock.
ghost use Rattle.std.specs.Prelude.{◌≡◌, ◌<◌, ◌≤◌, ◌&&◌, ◌||◌, Some, not};
ghost use Rattle.std.specs.Bool.{Decides};
ghost use Rattle.iso_desk.specs.Crews.{HasNothing};
ghost use Rattle.iso_desk.specs.Marking.{room};

use crate::line::{Line, Party};
use crate::marks::Marks;
use crate::table::Table;

/// What is to be seen under the lock.
#[derive(Clone, Copy)]
pub struct Scene<'a> {
    pub table: &'a Table,
    /// The keys that somebody holds.
    pub held: &'a Marks,
    /// Those that somebody writes.
    pub written: &'a Marks,
    /// Whether the run is over, or was stopped.
    pub is_over: bool,
    /// Whether a node is `Loose`.
    pub is_loose: bool,
    /// How often nodes were posted.
    pub rounds: u64,
}

/// Whether a worker that waits has nothing to wake for: the run goes on, its own line is empty,
/// nothing of its own or of everyone's is on offer, and no node is `Loose`, or the worker found
/// each deque empty after nodes had been posted so often.
pub fn has_nothing_for(scene: &Scene, worker: u32, seen: Option<u64>) -> bool
    requires worker { worker < scene.now.table.now.workers }
    requires held { 256 ≤ room scene.now.held.now }
    requires written { 256 ≤ room scene.now.written.now }
    ensures { Decides result (HasNothing scene.now.table.now.places scene.now.held.now
        scene.now.written.now scene.now.is_over scene.now.is_loose scene.now.rounds
        worker seen) }
{
    let own = scene.table.is_empty(Line::Own(worker));
    let alone = scene
        .table
        .offers_nothing(Party::Worker(worker), scene.held, scene.written);
    let others = scene
        .table
        .offers_nothing(Party::Everyone, scene.held, scene.written);
    let looked = has_looked(seen, scene.rounds);
    is_idle(scene.is_over, own, alone, others, scene.is_loose, looked)
}

/// Whether a worker looked into all deques after nodes had been posted so often.
fn has_looked(seen: Option<u64>, rounds: u64) -> bool
    ensures { Decides result (seen ≡ Some rounds) }
{
    match seen {
        Some(seen) => seen == rounds,
        None => false,
    }
}

/// Whether nothing is left to wake for.
fn is_idle(
    is_over: bool,
    own: bool,
    alone: bool,
    others: bool,
    is_loose: bool,
    looked: bool,
) -> bool
    ensures { result ≡ (not is_over && (own && (alone && (others && (not is_loose || looked))))) }
{
    !is_over && own && alone && others && (!is_loose || looked)
}
