//! What a `before_all` came to, in a box. Results have an entry for each node, of which few are
//! classes: so each entry is small.
ghost use Rattle.std.specs.Prelude.{◌≡◌, IfOk};

use crate::done::Opened;
use crate::frame::Frame;
use crate::kept::KeptEnding;
use iso_model::lines::Lines;
use std::alloc::{AllocError, Global};
use std::marker::Model;

/// What a `before_all` came to.
#[derive(Drop)]
pub(crate) struct KeptOpening {
    opened: Box<Opened>,
}

impl Model for KeptOpening {
    ghost use Rattle.iso_lifecycle.specs.contracts.done.Opened.{the_row};
    ghost use Rattle.iso_lifecycle.specs.declared.done.Opened.{Opened};

    ghost Value = { Opened };

    ghost coded = { the_row.coded };

    ghost view = { λ o. o.opened.value };
}

impl KeptOpening {
    /// What it came to.
    pub fn opened(&self) -> &Opened
        ensures { result.now ≡ self.now }
    {
        &self.opened
    }
}

/// The frame that a `before_all` left, with memory for what else it came to.
#[derive(Drop)]
pub(crate) struct LeftFrame {
    opened: Box<Opened>,
}

impl Model for LeftFrame {
    ghost use Rattle.iso_lifecycle.specs.Subjects.{Subject, subject_code};

    ghost Value = { Subject };

    ghost coded = { subject_code };

    ghost view = { λ f. f.opened.value.frame };
}

impl LeftFrame {
    /// The frame, with that memory.
    pub fn new(alloc: Global, frame: Frame) -> Result<LeftFrame, AllocError>
        ensures { IfOk result (λ f. f ≡ frame) }
    {
        let opened = Opened {
            frame,
            ending: KeptEnding::of(Vec::new(alloc)),
            lines: Lines::new(alloc),
        };
        let opened = Box::new(alloc, opened)?;
        Ok(LeftFrame { opened })
    }

    /// What the `before_all` came to, which left the frame. Takes no memory.
    pub fn opened(self, ending: KeptEnding, lines: Lines) -> KeptOpening
        ensures { result ≡ record { frame = self; ending = ending; lines = lines } }
    {
        let mut opened = self.opened;
        let place: &mut Opened = &mut opened;
        place.ending = ending;
        place.lines = lines;
        KeptOpening { opened }
    }
}
