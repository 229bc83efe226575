use iso_model::input_error::InputError;
use thiserror::Error;

/// Why scripts have no plan. Where several hold, `TooManyScripts` is answered first, then
/// `DoubleClass`, `NotSelected`, `TooManyNodes` and `TooManyKeys`; the last two count what is kept.
/// A fault shows as its kind.
#[derive(Clone, Copy, Debug, PartialEq, Eq, Error)]
pub enum PlanFault {
    /// Two top-level classes of one team and name.
    #[error("DoubleClass")]
    DoubleClass,
    /// More than 4,096 nodes, the root among them.
    #[error("TooManyNodes")]
    TooManyNodes,
    /// More than 255 different declared keys.
    #[error("TooManyKeys")]
    TooManyKeys,
    /// More than 64 scripts.
    #[error("TooManyScripts")]
    TooManyScripts,
    /// The path at this place, counted from 0, names no node; it is the first such path.
    #[error("NotSelected")]
    NotSelected(usize),
}

/// Why a plan was not made.
pub type PlanError = InputError<PlanFault>;
