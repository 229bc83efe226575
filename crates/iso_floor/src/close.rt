//! What is left of a floor when its workers have ended.
ghost use Rattle.std.specs.Prelude.{◌≡◌, ◌≤◌, ◌*◌, List, IfErr, IfOk, false, length, replicate};
ghost use Rattle.iso_book.specs.Books.{BookView};
ghost use Rattle.iso_floor.specs.Audits.{IsLowest};
ghost use Rattle.iso_floor.specs.Closing.{IsCloseFault, IsWhole};
ghost use Rattle.iso_floor.specs.Seats.{lists_of};

use crate::audit::{audit_list, lowest_lost};
use crate::fault::CloseFault;
use crate::ground::Ground;
use crate::seat::Seat;
use iso_book::book::Book;
use iso_standing::event::Event;

/// For a runner of one's own: compares the receipts of all seats with a history, by a table with a
/// place for each event that has no mark. Takes no memory.
pub fn audit<'a, G: Ground>(
    history: &[Event],
    seats: &[Seat<'a, G>],
    marks: &mut [bool],
) -> Option<usize>
    requires room { length history.now ≤ length marks.old }
    requires clear { marks.old ≡ replicate (length marks.old) false }
    ensures { IsLowest history.now (lists_of seats.now) result }
{
    let mut lost = None;
    for seat in seats {
        lost = audit_list(history, seat.receipts(), marks, lost);
    }
    lowest_lost(history, marks, lost)
}

/// For a runner of one's own: hands out a book that is whole beside the receipts of these seats.
/// Takes no memory.
pub fn settle<'a, G: Ground>(
    book: Book<'a>,
    seats: &[Seat<'a, G>],
    marks: &mut [bool],
) -> Result<Book<'a>, CloseFault>
    requires { marks.old ≡ replicate (4 * length book.plan.rows) false }
    ensures book { IfOk result (λ b. b ≡ book.entry) }
    ensures whole { IfOk result (λ b. IsWhole b (lists_of seats.now)) }
    ensures fault { IfErr result (λ fault. IsCloseFault book.entry (lists_of seats.now) fault) }
{
    if let Some(number) = audit(book.history(), seats, marks) {
        return Err(CloseFault::Lost(number));
    }
    if !book.complete() {
        return Err(CloseFault::Unfinished);
    }
    Ok(book)
}
