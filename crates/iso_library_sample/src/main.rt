//! The two programs of `docs/LIBRARY.md`, one after the other.
#![tactic(auto)]

mod deques;
mod runner;

fn main(rt: HostRuntime) -> anyhow::Result<()> {
    runner::run(&rt)?;
    deques::run(&rt)
}
