//! Laws of books. Each function does nothing: its contract is the law, and is proved.
ghost use Rattle.std.specs.Prelude.{◌≡◌, ℕ, None};
ghost use Rattle.iso_book.specs.Leaves.{Began, leave_refusal_in};
ghost use Rattle.iso_lifecycle.specs.DoneViews.{DoneView};

use crate::book::Book;

/// A worker's last event before its Leave is the Enter or the Shut of the node that it leaves.
pub fn leaves_end_what_their_workers_began(book: &Book<'_>)
    ensures { (worker : ℕ) (done : DoneView) → leave_refusal_in book.now worker done ≡ None
        → Began book.now.history worker done.subject.node }
{
    book.keep_beginnings();
}
