//! The comparison of receipts with a history.
ghost use Rattle.std.specs.Prelude.{◌≡◌, ◌<◌, ◌≤◌, ◌↔◌, ◌++◌, ◌∷◌, [], ℕ, List, length, take, Some, None, IsTrue, false, true, slice_get, slice_set, slice_index_or};
ghost use Rattle.std.specs.Bool.{OnTrue, OnFalse};
ghost use Rattle.iso_book.specs.Leaves.{ReceiptView};
ghost use Rattle.iso_floor.specs.Auditing.{GoesOnBy, IsAbove, IsAudited, IsFirstUnmarked, IsNext, higher_of, lower_of};
ghost use Rattle.iso_floor.specs.Audits.{IsLowest, Stands, last_begun};

use iso_book::receipt::Receipt;
use iso_standing::event::Event;

// The node of the worker's last Enter or Shut.
fn last_begun_by(worker: u32, events: &[Event]) -> Option<u32>
    ensures { result ≡ last_begun worker events.now }
{
    let mut end = events.len();
    while end > 0 {
        end -= 1;
        match events[end] {
            Event::Enter { worker: w, node } if w == worker => return Some(node),
            Event::Shut { worker: w, node } if w == worker => return Some(node),
            _ => {}
        }
    }
    None
}

// Whether a receipt is of a history.
fn stands(history: &[Event], receipt: &Receipt) -> bool
    ensures { IsTrue result ↔ Stands history.now receipt.now }
{
    let number = receipt.number();
    match history.get(number) {
        Some(Event::Leave { worker }) => {
            *worker == receipt.worker()
                && last_begun_by(*worker, &history[..number]) == Some(receipt.node())
        }
        _ => false,
    }
}

// Whether a number is above the highest so far.
fn is_above(number: usize, highest: Option<usize>) -> bool
    ensures { IsTrue result ↔ IsAbove number highest }
{
    match highest {
        None => true,
        Some(highest) => highest < number,
    }
}

// The lower of two numbers, of which one may be missing.
fn lower(number: usize, lost: Option<usize>) -> usize
    ensures { result ≡ lower_of number lost }
{
    match lost {
        Some(lost) if lost < number => lost,
        _ => number,
    }
}

// The higher of a number and the highest so far.
fn higher(number: usize, highest: Option<usize>) -> usize
    ensures { result ≡ higher_of number highest }
{
    match highest {
        Some(highest) if number < highest => highest,
        _ => number,
    }
}

// Marks the number of a receipt, if it is of the history, above the highest of its list so far and
// wasn't marked, and answers whether it did.
fn mark(history: &[Event], receipt: &Receipt, highest: Option<usize>, marks: &mut [bool]) -> bool
    requires { length history.now ≤ length marks.old }
    ensures taken { OnTrue result (IsNext history.now receipt.now highest marks.old) }
    ensures marked { OnTrue result (marks.new ≡ slice_set marks.old receipt.now.number true) }
    ensures refused { OnFalse result (IsNext history.now receipt.now highest marks.old → ⊥) }
    ensures same { OnFalse result (marks.new ≡ marks.old) }
{
    let number = receipt.number();
    if !is_above(number, highest) || !stands(history, receipt) || marks[number] {
        return false;
    }
    marks[number] = true;
    true
}

/// For a runner of one's own: compares a seat's list with the history, after the lists of other
/// seats. It answers the lowest number that is lost so far, and marks the numbers of the receipts
/// that are in order.
pub fn audit_list(
    history: &[Event],
    list: &[Receipt],
    marks: &mut [bool],
    lost: Option<usize>,
) -> Option<usize>
    requires { length history.now ≤ length marks.old }
    ensures { GoesOnBy history.now marks.old lost list.now marks.new result }
{
    let mut lost = lost;
    let mut highest = None;
    for receipt in list {
        let number = receipt.number();
        if !mark(history, receipt, highest, marks) {
            lost = Some(lower(number, lost));
        }
        highest = Some(higher(number, highest));
    }
    lost
}

// The lowest Leave that isn't marked.
fn first_unmarked(history: &[Event], marks: &[bool]) -> Option<usize>
    requires { length history.now ≤ length marks.now }
    ensures { IsFirstUnmarked history.now marks.now result }
{
    for (n, event) in history.iter().enumerate() {
        if let Event::Leave { worker: _ } = event
            && !marks[n]
        {
            return Some(n);
        }
    }
    None
}

/// For a runner of one's own: the lowest number that is lost, if one is, after the lists of all
/// seats.
pub fn lowest_lost(history: &[Event], marks: &[bool], lost: Option<usize>) -> Option<usize>
    requires { length history.now ≤ length marks.now }
    ensures { (lists : List (List ReceiptView)) → IsAudited history.now lists marks.now lost
        → IsLowest history.now lists result }
{
    match first_unmarked(history, marks) {
        Some(number) => Some(lower(number, lost)),
        None => lost,
    }
}
