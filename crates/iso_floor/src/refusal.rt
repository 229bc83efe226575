//! What a refused event means to the worker that asked for it.
ghost use Rattle.std.specs.Prelude.{◌≡◌};
ghost use Rattle.iso_floor.specs.Halts.{meaning_of};

use iso_standing::refused::Refused;

/// What a refused event means to the worker that asked for it.
#[derive(Clone, Copy)]
pub(crate) enum Meaning {
    /// The node was entered beside the workers, by a caller of `Floor::enter`.
    Entered,
    /// The class's children have to be done first.
    TooEarly,
    /// The class around the node didn't open well, so the node has its result already.
    Over,
    /// No other worker can make way for the event.
    Never,
}

/// What a refusal of this kind means. Each kind stands here, so that a new one is decided on.
pub(crate) fn meant_by(refused: Refused) -> Meaning
    ensures { result ≡ meaning_of refused }
{
    match refused {
        Refused::AlreadyEntered => Meaning::Entered,
        Refused::ChildrenLeft => Meaning::TooEarly,
        Refused::ParentClosed => Meaning::Over,
        Refused::Stopped
        | Refused::NoWorker
        | Refused::NoNode
        | Refused::WorkerBusy
        | Refused::NotOwner
        | Refused::EarlierSibling
        | Refused::LockHeld(_)
        | Refused::NoBody
        | Refused::BodyEnded
        | Refused::BodyNotEnded
        | Refused::NotClass
        | Refused::NotOpen
        | Refused::OtherBody(_)
        | Refused::Stranger => Meaning::Never,
    }
}
