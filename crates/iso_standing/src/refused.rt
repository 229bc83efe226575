//! Why an event is refused.
ghost use Rattle.std.specs.Prelude.{◌≡◌};
ghost use Rattle.iso_standing.specs.RefusalTexts.{kind_name, node_in};

use std::alloc::AllocError;
use std::fmt;

/// Why an event is refused: the first of its kinds that applies, tested in the order of this table:
///
/// | Event | Order |
/// |---|---|
/// | Enter | Stopped, NoWorker, NoNode, WorkerBusy, ParentClosed, AlreadyEntered, NotOwner, |
/// | | EarlierSibling, LockHeld |
/// | Step | Stopped, NoWorker, NoBody, BodyEnded |
/// | Leave | Stopped, NoWorker, NoBody, BodyNotEnded |
/// | Shut | Stopped, NoWorker, NoNode, WorkerBusy, NotClass, NotOpen, NotOwner, ChildrenLeft |
///
/// The last two are a book's alone, to which a worker brings the body that has ended and its
/// values: no standing answers them.
///
/// It shows as its kind, `LockHeld` and `OtherBody` with a space and their node.
#[derive(Clone, Copy, Debug, PartialEq, Eq)]
pub enum Refused {
    /// The run was stopped.
    Stopped,
    /// The worker isn't below the number of workers.
    NoWorker,
    /// The node isn't in the plan.
    NoNode,
    /// The worker has a body.
    WorkerBusy,
    /// The node isn't the root, and its parent isn't open.
    ParentClosed,
    /// The node is the root, or was entered before.
    AlreadyEntered,
    /// Enter: the node is SAME_THREAD and another worker owns its parent. Shut: another worker owns
    /// the node.
    NotOwner,
    /// The node is SAME_THREAD, and an earlier SAME_THREAD sibling isn't finished.
    EarlierSibling,
    /// An entered, unfinished node conflicts with the node: the lowest such one.
    LockHeld(u32),
    /// The worker has no body.
    NoBody,
    /// The worker's body has ended.
    BodyEnded,
    /// The worker's body hasn't ended.
    BodyNotEnded,
    /// The class is open, and a child isn't finished.
    ChildrenLeft,
    /// The node is the root or a test.
    NotClass,
    /// The class is neither open nor barred.
    NotOpen,
    /// The body that was brought is of this node, or of a kind, that isn't the worker's.
    OtherBody(u32),
    /// The tray belongs to another run, or doesn't hold what the event is about.
    Stranger,
}

impl Refused {
    /// How the kind is called.
    pub fn as_str(self) -> &'static str
        ensures { result.now ≡ kind_name self }
    {
        match self {
            Refused::Stopped => "Stopped",
            Refused::NoWorker => "NoWorker",
            Refused::NoNode => "NoNode",
            Refused::WorkerBusy => "WorkerBusy",
            Refused::ParentClosed => "ParentClosed",
            Refused::AlreadyEntered => "AlreadyEntered",
            Refused::NotOwner => "NotOwner",
            Refused::EarlierSibling => "EarlierSibling",
            Refused::LockHeld(_) => "LockHeld",
            Refused::NoBody => "NoBody",
            Refused::BodyEnded => "BodyEnded",
            Refused::BodyNotEnded => "BodyNotEnded",
            Refused::ChildrenLeft => "ChildrenLeft",
            Refused::NotClass => "NotClass",
            Refused::NotOpen => "NotOpen",
            Refused::OtherBody(_) => "OtherBody",
            Refused::Stranger => "Stranger",
        }
    }

    /// The node that it names, if it names one.
    fn node(self) -> Option<u32>
        ensures { result ≡ node_in self }
    {
        match self {
            Refused::LockHeld(node) | Refused::OtherBody(node) => Some(node),
            _ => None,
        }
    }
}

impl fmt::Display for Refused {
    ghost use Rattle.std.specs.Prelude.{Some};
    ghost use Rattle.iso_standing.specs.RefusalTexts.{refused_text};

    ghost output = { λ why. Some (refused_text why) };

    fn fmt<W: fmt::Write>(&self, f: &mut fmt::Formatter<W>) -> fmt::Result {
        f.write_str(self.as_str())?;
        match self.node() {
            Some(node) => write!(f, " {node}"),
            None => Ok(()),
        }
    }
}

impl std::error::Error for Refused {}

/// Why an event isn't taken, by a core or a book.
#[derive(Clone, Copy, Debug, PartialEq, Eq)]
pub enum CoreFault {
    /// The event is refused: the first kind that applies. Nothing has changed.
    Refused(Refused),
    /// Memory ran out. A Step that meets this stops the core; any other event changes nothing.
    OutOfMemory,
}

impl fmt::Display for CoreFault {
    ghost use Rattle.std.specs.Prelude.{Some};
    ghost use Rattle.iso_standing.specs.FaultTexts.{fault_text};

    ghost output = { λ fault. Some (fault_text fault) };

    fn fmt<W: fmt::Write>(&self, f: &mut fmt::Formatter<W>) -> fmt::Result {
        match self {
            CoreFault::Refused(why) => write!(f, "{why}"),
            CoreFault::OutOfMemory => f.write_str("out of memory"),
        }
    }
}

impl std::error::Error for CoreFault {}

impl From<AllocError> for CoreFault {
    ghost use Rattle.std.specs.Prelude.{◌≡◌};
    ghost use Rattle.iso_standing.specs.declared.refused.CoreFault.TheVariants.{OutOfMemory};

    ghost from_gives = { λ _ e. e ≡ OutOfMemory };

    fn from(_error: AllocError) -> CoreFault {
        CoreFault::OutOfMemory
    }
}
