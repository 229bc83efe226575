//! Which line a worker takes the next node from.
ghost use Rattle.std.specs.Prelude.{◌≡◌, ◌<◌, ◌≤◌, ℕ, IfSome, MatchOption, false, true};
ghost use Rattle.std.specs.Bool.{Decides};
ghost use Rattle.iso_desk.specs.Lines.{IsLineOf, party_number};
ghost use Rattle.iso_desk.specs.Offers.{NothingOffered};
ghost use Rattle.iso_desk.specs.Places.{StandsIn};
ghost use Rattle.iso_desk.specs.declared.line.Line.TheVariants as Line;
ghost use Rattle.iso_floor.specs.Nexts.{ComesFirst, HasNone, IsNextLine, IsNextOf, IsSince, Precedes};

use crate::keys::HeldKeys;
use iso_desk::line::{KeyLine, Line, Party};
use iso_desk::place::Place;
use iso_desk::table::Table;

/// The line that a worker takes the next node from: its own, else one on offer to it, else one on
/// offer to everyone.
pub(crate) fn line_for(table: &Table, keys: &HeldKeys, worker: u32) -> Option<Line>
    requires { worker < table.now.workers }
    ensures line { IfSome result (IsLineOf table.now.workers) }
    ensures next { MatchOption result (HasNone table.now.places keys.now worker)
        (IsNextLine table.now.places keys.now worker) }
{
    let own = Line::Own(worker);
    if table.first(own).is_some() {
        return Some(own);
    }
    match offered(table, keys, Party::Worker(worker)) {
        Some(line) => Some(Line::Key(line)),
        None => offered(table, keys, Party::Everyone).map(|line| Line::Key(line)),
    }
}

/// The line of a party on offer at the lowest key, if there is one. Where both of the key's lines
/// are, it is the one whose first came first.
fn offered(table: &Table, keys: &HeldKeys, party: Party) -> Option<KeyLine>
    requires { party_number party ≤ table.now.workers }
    ensures line { IfSome result (λ l. IsLineOf table.now.workers (Line.Key l)) }
    ensures next { MatchOption result (NothingOffered table.now.places keys.now.held
        keys.now.written party) (IsNextOf table.now.places keys.now party) }
{
    let key = table.on_offer(party, keys.held(), keys.written())?;
    let reading = KeyLine {
        party,
        key,
        writes: false,
    };
    let writing = KeyLine {
        party,
        key,
        writes: true,
    };
    if keys.held().has(key as usize) || comes_first(table, reading, writing) {
        Some(reading)
    } else {
        Some(writing)
    }
}

/// Whether somebody stands in a line, and nobody in another one that came before its first.
fn comes_first(table: &Table, line: KeyLine, other: KeyLine) -> bool
    requires line { IsLineOf table.now.workers (Line.Key line) }
    requires other { IsLineOf table.now.workers (Line.Key other) }
    ensures stands { result ≡ true → (n : ℕ) × StandsIn table.now.places (Line.Key line) n }
    ensures yes { result ≡ true → ComesFirst table.now.places line other }
    ensures others { result ≡ false → (n : ℕ) → StandsIn table.now.places (Line.Key line) n
        → (m : ℕ) × StandsIn table.now.places (Line.Key other) m }
    ensures no { result ≡ false → ComesFirst table.now.places other line }
{
    precedes(since(table, line), since(table, other))
}

/// Whether a number comes before another one or is the same, or there is no other.
fn precedes(number: Option<u64>, other: Option<u64>) -> bool
    ensures { Decides result (Precedes number other) }
{
    match (number, other) {
        (None, _) => false,
        (Some(_), None) => true,
        (Some(number), Some(other)) => number <= other,
    }
}

/// The number by which the first of a line stands there.
fn since(table: &Table, line: KeyLine) -> Option<u64>
    requires { IsLineOf table.now.workers (Line.Key line) }
    ensures { IsSince table.now.places line result }
{
    let first = table.first(Line::Key(line))?;
    match table.place(first) {
        Place::InLine(stand) => Some(stand.since),
        _ => None,
    }
}
