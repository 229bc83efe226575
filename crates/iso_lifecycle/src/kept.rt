//! What an ended body came to, as results keep it. Most blocks end well: of the endings of a body
//! those before the first that isn't Well are left out, so that most of what is kept is small.
ghost use Rattle.std.specs.Prelude.{◌≡◌, MatchOption};
ghost use Rattle.iso_model.specs.Bodies.{first_ending};
ghost use Rattle.iso_model.specs.LinesView.{lines_in};
ghost use Rattle.iso_model.specs.Statements.{is_well};
ghost use Rattle.iso_model.specs.Verdicts.{verdict};
ghost use Rattle.iso_model.specs.declared.outcome.Ending.TheVariants.{Well};
ghost use Rattle.iso_lifecycle.specs.ResultViews.{verdict_of_view};

use crate::verdict::{is_well, verdict};
use crate::view::ViewVerdict;
use iso_model::lines::{LineSlice, Lines};
use iso_model::outcome::Ending;
use std::marker::Model;

/// How a body of one block ended: as the first of these, or well where there is none.
#[derive(Drop)]
pub(crate) struct KeptEnding {
    others: Vec<Ending>,
}

impl Model for KeptEnding {
    ghost use Rattle.iso_model.specs.Bodies.{first_ending};
    ghost use Rattle.iso_model.specs.declared.outcome.Ending.{Ending};

    ghost Value = { Ending };

    ghost view = { λ e. first_ending e.others.items };
}

impl KeptEnding {
    /// The first of these endings, Well where there is none. Takes no memory.
    pub fn of(others: Vec<Ending>) -> KeptEnding
        ensures { result ≡ first_ending others.items }
    {
        KeptEnding { others }
    }

    /// The ending, unless it is Well and left out.
    pub fn other(&self) -> Option<&Ending>
        ensures { MatchOption result (self.now ≡ Well) (λ e. e.now ≡ self.now) }
    {
        self.others.first()
    }

    /// Whether it is Well.
    pub fn is_well(&self) -> bool
        ensures { result ≡ is_well self.now }
    {
        match self.other() {
            Some(ending) => is_well(ending),
            None => true,
        }
    }
}

/// The outcome of a test: the endings of its blocks that its verdict is made of, and what it
/// printed.
pub(crate) struct KeptOutcome {
    others: Vec<Ending>,
    lines: Lines,
}

impl Drop for KeptOutcome {
    fn drop(self) {
        let KeptOutcome {
            others: _,
            lines: _,
        } = self;
    }
}

impl Model for KeptOutcome {
    ghost use Rattle.iso_model.specs.Verdicts.{verdict};
    ghost use Rattle.iso_model.specs.declared.outcome.Outcome.{Outcome};

    ghost Value = { Outcome };

    ghost view = { λ o. record { verdict = verdict o.others.items; output = o.lines } };
}

impl KeptOutcome {
    /// The outcome by these endings and lines. Takes no memory.
    pub fn new(others: Vec<Ending>, lines: Lines) -> KeptOutcome
        ensures { result ≡ record { verdict = verdict others.items; output = lines } }
    {
        KeptOutcome { others, lines }
    }

    /// Its verdict.
    pub fn verdict(&self) -> ViewVerdict<'_>
        ensures { verdict_of_view result ≡ self.now.verdict }
    {
        verdict(&self.others)
    }

    /// Its lines.
    pub fn lines(&self) -> LineSlice<'_>
        ensures { lines_in result ≡ self.now.output }
    {
        self.lines.as_slice()
    }
}
