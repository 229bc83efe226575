ghost use Rattle.std.specs.Prelude.{◌≡◌, MatchOption};
ghost use Rattle.iso_schedule.specs.Lines.{IsShort, event};
ghost use Rattle.iso_schedule.specs.Parts.{written};

use crate::numeral::Numeral;
use iso_standing::event::Event;

/// An event as a line writes it.
#[derive(Clone, Copy)]
pub(crate) enum Written<'a> {
    Enter {
        worker: Numeral<'a>,
        node: Numeral<'a>,
    },
    Step {
        worker: Numeral<'a>,
    },
    Leave {
        worker: Numeral<'a>,
    },
    Shut {
        worker: Numeral<'a>,
        node: Numeral<'a>,
    },
}

impl Written<'_> {
    /// The event, where no number has more than nine digits.
    pub(crate) fn event(self) -> Option<Event>
        ensures { MatchOption result (IsShort (written self.entry) → ⊥)
            (λ e. IsShort (written self.entry) × (e ≡ event (written self.entry))) }
    {
        let event = match self {
            Written::Enter { worker, node } => Event::Enter {
                worker: worker.value()?,
                node: node.value()?,
            },
            Written::Step { worker } => Event::Step {
                worker: worker.value()?,
            },
            Written::Leave { worker } => Event::Leave {
                worker: worker.value()?,
            },
            Written::Shut { worker, node } => Event::Shut {
                worker: worker.value()?,
                node: node.value()?,
            },
        };
        Some(event)
    }
}
