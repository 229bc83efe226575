//! How far a node has come.
ghost use Rattle.std.specs.Prelude.{◌≡◌, is_some};
ghost use Rattle.iso_standing.specs.Phases.{bare};
ghost use Rattle.iso_isolation.specs.States.{body_in, is_at_rest, is_closing, is_finished, is_held, is_open, is_waiting};

/// How far a node has come: its status, without its body, its frames and its result.
#[derive(Clone, Copy, Debug, PartialEq, Eq)]
pub enum Phase {
    /// It wasn't entered.
    Waiting,
    /// Its first body is under way: a class's `before_all`, or a whole test.
    Begun,
    /// A class whose `before_all` ended well and was left; the root from the start.
    Open,
    /// A class whose `before_all` was left and didn't end well.
    Barred,
    /// A class whose `after_all` is under way.
    Closing,
    /// Its last body was left, or it is a descendant of a barred class.
    Finished,
}

impl Phase {
    /// Whether it wasn't entered, and isn't a descendant of a barred class.
    pub fn is_waiting(self) -> bool
        ensures { result ≡ is_waiting (bare self) }
    {
        matches!(self, Phase::Waiting)
    }

    /// Whether it is an open class, or the root.
    pub fn is_open(self) -> bool
        ensures { result ≡ is_open (bare self) }
    {
        matches!(self, Phase::Open)
    }

    /// Whether it is a class between its two bodies.
    pub fn is_at_rest(self) -> bool
        ensures { result ≡ is_at_rest (bare self) }
    {
        matches!(self, Phase::Open | Phase::Barred)
    }

    /// Whether it is finished.
    pub fn is_finished(self) -> bool
        ensures { result ≡ is_finished (bare self) }
    {
        matches!(self, Phase::Finished)
    }

    /// Whether its `after_all` is under way.
    pub fn is_closing(self) -> bool
        ensures { result ≡ is_closing (bare self) }
    {
        matches!(self, Phase::Closing)
    }

    /// Whether a body is under way there.
    pub fn has_body(self) -> bool
        ensures { result ≡ is_some (body_in (bare self)) }
    {
        matches!(self, Phase::Begun | Phase::Closing)
    }

    /// Whether it was entered and isn't finished: it holds its locks.
    pub fn is_held(self) -> bool
        ensures { result ≡ is_held (bare self) }
    {
        match self {
            Phase::Waiting | Phase::Finished => false,
            Phase::Begun | Phase::Open | Phase::Barred | Phase::Closing => true,
        }
    }
}
