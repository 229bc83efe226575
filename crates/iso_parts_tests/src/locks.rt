//! Trays and vaults, with memory at hand.
mod beside;
mod suite;
mod tray;
mod vault;
