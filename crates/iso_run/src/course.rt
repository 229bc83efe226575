//! What a run tells of its course.
ghost use Rattle.std.specs.Prelude.{◌≡◌, is_some};
ghost use Rattle.iso_arguments.specs.RequestBounds.{AsksForNoMore};
ghost use Rattle.iso_run.specs.Courses.{IsUnasked, wants_times};
ghost use Rattle.iso_telling.specs.Telling.{told_nothing};

use crate::besides::asked_text;
use iso_arguments::request::Extras;
use iso_tap::memory::MemorySink;
use std::alloc::Global;

/// What a run tells of its course, each text in memory, where it is asked for.
#[derive(Drop)]
pub struct Course {
    /// Its events, as a replay takes them.
    pub schedule: Option<MemorySink>,
    /// When each worker ran what, as a trace.
    pub trace: Option<MemorySink>,
    /// How busy the workers were, and what was waited for.
    pub stats: Option<MemorySink>,
}

impl Course {
    /// Asks for nothing.
    pub fn nothing() -> Course
        ensures { IsUnasked result }
    {
        Course {
            schedule: None,
            trace: None,
            stats: None,
        }
    }

    /// What is asked for of the course of a run.
    pub(crate) fn asked(alloc: Global, extras: Extras<'_>) -> Course
        ensures schedule { result.schedule ≡ told_nothing (is_some extras.entry.«record») }
        ensures trace { result.trace ≡ told_nothing (is_some extras.entry.trace) }
        ensures stats { result.stats ≡ told_nothing extras.entry.stats }
        ensures plain { AsksForNoMore extras.entry → IsUnasked result }
    {
        Course {
            schedule: asked_text(alloc, extras.record.is_some()),
            trace: asked_text(alloc, extras.trace.is_some()),
            stats: asked_text(alloc, extras.stats),
        }
    }

    /// Whether it has to be known when each body ran.
    pub fn wants_times(&self) -> bool
        ensures { result ≡ wants_times self.now }
    {
        self.trace.is_some() || self.stats.is_some()
    }
}
