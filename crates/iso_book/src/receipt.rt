//! What tells a worker of its Leave.
ghost use Rattle.std.specs.Prelude.{◌≡◌};

use std::marker::Model;

/// That a Leave stands in the history of a book: its place there, counted from 0, its worker, and
/// the node that it left. There is no copy of it, so that the receipts of a run are as many as its
/// Leaves.
#[derive(Drop)]
pub struct Receipt {
    number: usize,
    worker: u32,
    node: u32,
}

impl Model for Receipt {
    ghost use Rattle.iso_book.specs.Leaves.{ReceiptView, receipt_code};

    ghost Value = { ReceiptView };

    ghost coded = { receipt_code };

    ghost view = { λ r. record { number = r.number; worker = r.worker; node = r.node } };
}

impl Receipt {
    /// The receipt of a Leave at a place of a history.
    pub(crate) fn new(number: usize, worker: u32, node: u32) -> Receipt
        ensures { result ≡ record { number = number; worker = worker; node = node } }
    {
        Receipt {
            number,
            worker,
            node,
        }
    }

    /// For a runner of one's own: the place of the Leave in the history, counted from 0.
    pub fn number(&self) -> usize
        ensures { result ≡ self.now.number }
    {
        self.number
    }

    /// For a runner of one's own: the worker whose Leave it is.
    pub fn worker(&self) -> u32
        ensures { result ≡ self.now.worker }
    {
        self.worker
    }

    /// For a runner of one's own: the node that was left.
    pub fn node(&self) -> u32
        ensures { result ≡ self.now.node }
    {
        self.node
    }
}
