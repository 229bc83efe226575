//! One table for all nodes. Its rules:
//!
//! 1. Each node has one place, and the table alone says which.
//! 2. A node is in one line at most, where its place says so: behind all others, or before them, as
//! it was put there. A node that waits for a key is in a line of its party, of the key, and of READ
//! or READ_WRITE as it takes the key; each worker has a line of its own besides.
//! 3. Who leaves a line is its first. So each call takes the same time, however many stand there.
//! 4. A node that waits for a key is on offer where nobody writes the key and, if the node does,
//! nobody holds it. That follows from the sets of held and of written keys: no call stores it.
ghost use Rattle.std.specs.Prelude.{◌≡◌, ◌<◌, ◌≤◌, ◌+◌, ◌-◌, ◌^◌, IfOk, IfSome, MatchOption, None, OnErr, OnOk, length};
ghost use Rattle.std.specs.Bool.{Decides};
ghost use Rattle.iso_desk.specs.Lines.{IsLineOf, party_number};
ghost use Rattle.iso_desk.specs.Marking.{room};
ghost use Rattle.iso_desk.specs.Offers.{IsLowestOffer, NothingOffered};
ghost use Rattle.iso_desk.specs.Places.{IsEmpty, IsFirst, all_closed, headed, line_in, lined_up, moved, place_of};

use crate::ends::{lead, link, longer, shorter, wider};
use crate::line::{Line, Party};
use crate::line_ends::LineEnds;
use crate::marks::Marks;
use crate::offer::lowest_key;
use crate::place::{Place, Stand};
use std::alloc::{AllocError, Global};
use std::marker::Model;

/// The number of the first node that is put in a line.
const MIDDLE: u64 = 1 << 63;

/// Where each node stands, and the lines.
pub struct Table {
    workers: u32,
    places: Vec<Place>,
    /// By node that stands in a line and isn't its last, the one behind it.
    next: Vec<u32>,
    ends: LineEnds,
    /// The number of the next node that is put at the end of a line, and one more than that of the
    /// next at the front of one.
    clock: u64,
    front: u64,
}

impl Drop for Table {
    fn drop(self) {
        let Table {
            workers: _,
            places: _,
            next: _,
            ends: _,
            clock: _,
            front: _,
        } = self;
    }
}

impl Model for Table {
    ghost use Rattle.iso_desk.specs.Places.{TableView};
    ghost use Rattle.iso_desk.specs.Linked.{IsTable};

    ghost Value = { TableView };

    ghost view = { λ t. record {
      workers = t.workers;
      places = t.places.items;
      clock = t.clock;
      front = t.front;
    } };

    ghost invariant = { λ t. IsTable t.workers t.places.items t.next.items t.ends t.clock t.front };
}

impl Table {
    /// Of `nodes` nodes, all closed, for `workers` workers. Takes all memory that its calls need.
    pub fn new(alloc: Global, nodes: u32, workers: u32) -> Result<Table, AllocError>
        ensures { IfOk result (λ t. t ≡ all_closed nodes workers) }
    {
        let lines = 576 * (workers as usize + 1);
        let places = vec![in alloc; Place::Closed; nodes as usize]?;
        let next = vec![in alloc; 0; nodes as usize]?;
        let ends = LineEnds::new(alloc, lines)?;
        Ok(Table {
            workers,
            places,
            next,
            ends,
            clock: MIDDLE,
            front: MIDDLE,
        })
    }

    /// For how many workers it is.
    pub fn workers(&self) -> u32
        ensures { result ≡ self.now.workers }
    {
        self.workers
    }

    /// How many nodes it has.
    pub fn nodes(&self) -> usize
        ensures { result ≡ length self.now.places }
    {
        self.places.len()
    }

    /// Where a node stands.
    pub fn place(&self, node: u32) -> Place
        requires { node < length self.now.places }
        ensures { result ≡ place_of self.now.places node }
    {
        self.places[node as usize]
    }

    /// The first node of a line.
    pub fn first(&self, line: Line) -> Option<u32>
        requires { IsLineOf self.now.workers line }
        ensures { MatchOption result (IsEmpty self.now.places line)
            (λ n. IsFirst self.now.places line n) }
    {
        let ends = self.ends.get(line.number())?;
        Some(ends.first)
    }

    /// The lowest key at which a line of a party is on offer: the line isn't empty, and the key
    /// isn't written, nor held where it is to be written. It looks at eight words of 64 bits,
    /// however many wait.
    pub fn on_offer(&self, party: Party, held: &Marks, written: &Marks) -> Option<u32>
        requires party { party_number party ≤ self.now.workers }
        requires held { 256 ≤ room held.now }
        requires written { 256 ≤ room written.now }
        ensures key { IfSome result (λ k. k < 256) }
        ensures offer { MatchOption result
            (NothingOffered self.now.places held.now written.now party)
            (λ k. IsLowestOffer self.now.places held.now written.now party k) }
    {
        lowest_key(self.ends.filled(), party.number(), held, written)
    }

    /// Whether nobody stands in a line.
    pub fn is_empty(&self, line: Line) -> bool
        requires { IsLineOf self.now.workers line }
        ensures { Decides result (IsEmpty self.now.places line) }
    {
        self.first(line).is_none()
    }

    /// Whether no line of a party is on offer.
    pub fn offers_nothing(&self, party: Party, held: &Marks, written: &Marks) -> bool
        requires party { party_number party ≤ self.now.workers }
        requires held { 256 ≤ room held.now }
        requires written { 256 ≤ room written.now }
        ensures { Decides result (NothingOffered self.now.places held.now written.now party) }
    {
        self.on_offer(party, held, written).is_none()
    }

    /// Puts a node that stands in no line at the end of one. It is refused, and nothing changes,
    /// only where 2^63 - 1 nodes were put at the end of one before.
    pub fn line_up(&mut self, node: u32, line: Line) -> Result<(), AllocError>
        requires node { node < length self.old.places }
        requires free { line_in (place_of self.old.places node) ≡ None }
        requires line { IsLineOf self.old.workers line }
        ensures stands { OnOk result (self.new ≡ lined_up node line self.old) }
        ensures refused { OnErr result (self.old.clock ≡ 2 ^ 64 - 1) }
        ensures same { OnErr result (self.new ≡ self.old) }
    {
        let Some(clock) = self.clock.checked_add(1) else {
            return Err(AllocError);
        };
        let since = self.clock;
        let number = line.number();
        let ends = self.ends.get(number);
        link(&mut self.next, ends, node);
        self.ends.set(number, Some(longer(ends, node)));
        self.places[node as usize] = Place::InLine(Stand { line, since });
        self.clock = clock;
        Ok(())
    }

    /// Puts a node that stands in no line at the front of one. It is refused, and nothing changes,
    /// only where 2^63 nodes were put at the front of one before.
    pub fn line_up_first(&mut self, node: u32, line: Line) -> Result<(), AllocError>
        requires node { node < length self.old.places }
        requires free { line_in (place_of self.old.places node) ≡ None }
        requires line { IsLineOf self.old.workers line }
        ensures stands { OnOk result (self.new ≡ headed node line self.old) }
        ensures refused { OnErr result (self.old.front ≡ 0) }
        ensures same { OnErr result (self.new ≡ self.old) }
    {
        let Some(front) = self.front.checked_sub(1) else {
            return Err(AllocError);
        };
        let number = line.number();
        let ends = self.ends.get(number);
        lead(&mut self.next, ends, node);
        self.ends.set(number, Some(wider(ends, node)));
        self.places[node as usize] = Place::InLine(Stand { line, since: front });
        self.front = front;
        Ok(())
    }

    /// The first node of a line leaves it, for a place in no line.
    pub fn leave(&mut self, node: u32, line: Line, place: Place)
        requires line { IsLineOf self.old.workers line }
        requires first { IsFirst self.old.places line node }
        requires place { line_in place ≡ None }
        ensures { self.new ≡ moved node place self.old }
    {
        let number = line.number();
        let ends = self.ends.get(number);
        self.ends.set(number, shorter(ends, &self.next));
        self.places[node as usize] = place;
    }

    /// A node that stands in no line gets another place in none.
    pub fn put(&mut self, node: u32, place: Place)
        requires node { node < length self.old.places }
        requires free { line_in (place_of self.old.places node) ≡ None }
        requires place { line_in place ≡ None }
        ensures { self.new ≡ moved node place self.old }
    {
        self.places[node as usize] = place;
    }
}
