//! The floor of a run: one lock round its book, a seat for each worker, and the comparison of what
//! workers were told with the history.
#![tactic(auto)]

pub mod audit;
pub mod busy;
pub mod close;
mod desk;
pub mod fault;
pub mod floor;
pub mod ground;
mod halt;
mod hints;
mod keys;
mod nodes;
mod offers;
mod posting;
mod refusal;
mod scheduler;
pub mod seat;
mod steal;
mod turn;
pub mod work;
mod worker;
