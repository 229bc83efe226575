//! The jobs of a test, by their place in its class chain.
ghost use Rattle.std.specs.Prelude.{◌≡◌, ◌≤◌, Some};
ghost use Rattle.iso_lifecycle.specs.JobPlaces.{IsPlaced, after_each_inside, before_job, classes_seen, first_job, job_after, job_words};

use iso_model::place::{BlockName, Lifecycle};

/// A block of a test. A depth counts the classes outside the block's own.
#[derive(Clone, Copy)]
pub(crate) enum Job {
    BeforeEach(usize),
    Test,
    AfterEach(usize),
}

impl Job {
    /// The first job, in a chain of `classes` classes.
    pub(crate) fn first(classes: usize) -> Job
        ensures first { result ≡ first_job classes }
        ensures placed { IsPlaced classes (Some result) }
    {
        if classes == 0 {
            Job::Test
        } else {
            Job::BeforeEach(0)
        }
    }

    /// The job after this one, in a chain of `classes` classes: `before_each` blocks go inwards,
    /// and the `after_each` blocks outwards.
    pub(crate) fn after(self, classes: usize) -> Option<Job>
        requires { IsPlaced classes (Some self) }
        ensures next { result ≡ job_after classes self }
        ensures placed { IsPlaced classes result }
    {
        match self {
            Job::BeforeEach(depth) => {
                if depth + 1 < classes {
                    Some(Job::BeforeEach(depth + 1))
                } else {
                    Some(Job::Test)
                }
            }
            Job::Test => innermost(classes),
            Job::AfterEach(depth) => innermost(depth),
        }
    }

    /// The `before_each` of the class at a depth, and behind those of `classes` classes the test's
    /// own block.
    pub(crate) fn before(depth: usize, classes: usize) -> Job
        ensures job { result ≡ before_job classes depth }
        ensures placed { IsPlaced classes (Some result) }
    {
        if depth < classes {
            Job::BeforeEach(depth)
        } else {
            Job::Test
        }
    }

    /// The words that name its block.
    pub(crate) fn words(self) -> BlockName
        requires { IsPlaced 4294967295 (Some self) }
        ensures { result ≡ job_words self }
    {
        match self {
            Job::BeforeEach(depth) => BlockName::Class(depth as u32 + 1, Lifecycle::BeforeEach),
            Job::Test => BlockName::Test,
            Job::AfterEach(depth) => BlockName::Class(depth as u32 + 1, Lifecycle::AfterEach),
        }
    }

    /// Of how many of `classes` classes its block sees the names: its own and those outside it.
    pub(crate) fn classes_seen(self, classes: usize) -> usize
        requires { IsPlaced classes (Some self) }
        ensures seen { result ≡ classes_seen classes self }
        ensures within { result ≤ classes }
    {
        match self {
            Job::BeforeEach(depth) => depth + 1,
            Job::Test => classes,
            Job::AfterEach(depth) => depth + 1,
        }
    }
}

/// The `after_each` of the innermost of `classes` classes.
pub(crate) fn innermost(classes: usize) -> Option<Job>
    ensures next { result ≡ after_each_inside classes }
    ensures placed { IsPlaced classes result }
{
    if classes == 0 {
        None
    } else {
        Some(Job::AfterEach(classes - 1))
    }
}
