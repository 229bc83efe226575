//! Which block of a body is due, and what the body has beside its block under way.
ghost use Rattle.std.specs.Prelude.{◌≡◌, ◌<◌, [], ◌∷◌, ◌++◌, ◌^◌, length, true, false, Some, None, OnOk, IfOk};
ghost use Rattle.iso_lifecycle.specs.JobPlaces.{IsPlaced, IsPlaced-prop};

use crate::blocks::{names_of, part, statements};
use crate::empty_blocks::{next_after_each, next_before_each};
use crate::endings::Endings;
use crate::job::{Job, innermost};
use iso_interp::block::Block;
use iso_interp::run::{BlockEnd, BlockRun};
use iso_model::bindings::Bindings;
use iso_model::heads::ClassHead;
use iso_model::lines::Lines;
use iso_model::names::Names;
use iso_model::outcome::Ending;
use iso_model::place::BlockName;
use iso_model::rights::Rights;
use std::alloc::{AllocError, Global};
use std::mem;
use std::sync::Arc;

/// The jobs that are left of a body, the names that its block under way doesn't see, and what the
/// blocks before it left.
#[derive(Drop)]
pub struct Rest<'a> {
    pub(crate) alloc: Global,
    pub(crate) rights: &'a Rights,
    pub(crate) classes: &'a [Arc<ClassHead>],
    pub(crate) test: Block<'a>,
    pub(crate) next: Option<Job>,
    pub(crate) names: Bindings,
    pub(crate) printed: u32,
    pub(crate) lines: Lines,
    pub(crate) endings: Endings,
    ghost placed: { IsPlaced (length classes.now) next } by { IsPlaced-prop (length classes.now) next },
    ghost shallow: { length classes.now < 2 ^ 32 },
}

impl<'a> Rest<'a> {
    ghost use Rattle.std.specs.List.{list_all};
    ghost use Rattle.iso_model.specs.Bodies.{account_after, beside_job, job_environment, stage_from};
    ghost use Rattle.iso_model.specs.Jobs.{is_due};
    ghost use Rattle.iso_model.specs.Statements.{is_well};
    ghost use Rattle.iso_model.specs.Steps.{first_point, is_done};
    ghost use Rattle.iso_interp.specs.Blocks.{is_empty};
    ghost use Rattle.iso_interp.specs.Runs.{local_of, names_before, pieces_of, point_of_run, run_rights};
    ghost use Rattle.iso_model.specs.Rights.{access_in};
    ghost use Rattle.iso_lifecycle.specs.BodyRuns.{settled_with};
    ghost use Rattle.iso_lifecycle.specs.declared.job.Job.TheVariants.{AfterEach, BeforeEach, Test};
    ghost use Rattle.iso_lifecycle.specs.DueBlocks.{HaveRights, SameChain, account_in, beside_in, job_in, jobs_left, stage_with};

    /// Ends a block, of which nothing is left to do.
    fn end_block(&mut self, run: BlockRun<'a>) -> Result<(), AllocError>
        requires { is_done (pieces_of run) ≡ true }
        ensures account { OnOk result (account_in self.new
            ≡ account_after (names_before run.entry) (local_of run.entry) (beside_in self.old)) }
        ensures chain { SameChain self.old self.new }
        ensures next { self.new.next ≡ self.old.next }
    {
        let BlockEnd {
            ending,
            output,
            names,
        } = run.finish();
        // Each is put away before out of memory is answered, so that nothing is left over on that
        // way out.
        let ended = self.endings.add(ending);
        let printed = put_behind(&mut self.lines, output);
        self.printed = names.printed();
        put_before(self.alloc, &mut self.names, names.into_bindings())?;
        printed?;
        ended
    }

    /// The environment of a job's block, which takes the names that it sees.
    fn environment(&mut self, job: Job) -> Result<Names, AllocError>
        requires { IsPlaced (length self.old.classes.now) (Some job) }
        ensures names { IfOk result (λ names. names
            ≡ job_environment (job_in self.old job) (account_in self.old)) }
        ensures beside { OnOk result (beside_in self.new
            ≡ beside_job (job_in self.old job) (account_in self.old)) }
        ensures chain { SameChain self.old self.new }
        ensures next { self.new.next ≡ self.old.next }
    {
        let classes = job.classes_seen(self.classes.len());
        let seen = names_of(self.classes, classes, self.names.len());
        let bindings = part(self.alloc, &mut self.names, seen)?;
        Ok(Names::new(bindings, self.printed, job.words()))
    }

    /// A run of a job's block at its beginning, which sees these names.
    fn run_of(&self, job: Job, names: Names) -> BlockRun<'a>
        requires { IsPlaced (length self.now.classes.now) (Some job) }
        ensures point { point_of_run result ≡ first_point (job_in self.now job).acts names }
        ensures names { names_before result ≡ length names.names }
        ensures rights { run_rights result ≡ access_in self.now.rights.now }
    {
        let block = statements(self.classes, self.test.statements(), job);
        BlockRun::new(self.alloc, block, names, self.rights)
    }

    /// A block that does nothing, in place of one that is left: as long as it stands there the body
    /// hasn't ended.
    pub(crate) fn idle(&self) -> BlockRun<'a>
        ensures { run_rights result ≡ access_in self.now.rights.now }
    {
        let none = Bindings::new(self.alloc, Vec::new(self.alloc));
        let names = Names::new(none, 0, BlockName::Test);
        BlockRun::new(self.alloc, &[], names, self.rights)
    }

    /// Whether a job is to be done, after what the blocks before it came to: an `after_each` always
    /// is.
    fn is_due(&self, job: Job) -> bool
        ensures { result ≡ is_due (job_in self.now job) (account_in self.now).endings }
    {
        match job {
            Job::BeforeEach(_) | Job::Test => self.all_well(),
            Job::AfterEach(_) => true,
        }
    }

    /// Whether a job's block has no statement, or isn't written.
    fn is_empty(&self, job: Job) -> bool
        requires { IsPlaced (length self.now.classes.now) (Some job) }
        ensures { result ≡ is_empty (job_in self.now job).acts }
    {
        Block::of(statements(self.classes, self.test.statements(), job)).is_empty()
    }

    /// Whether all blocks ended well so far.
    fn all_well(&self) -> bool
        ensures { result ≡ list_all is_well (account_in self.now).endings }
    {
        self.endings.all_well()
    }

    /// Leaves the next job behind where it isn't due, or where its block has no statement: such a
    /// block takes no step, changes nothing and ends well, so no run is made of it. Tells whether
    /// it did. Any other job is still the next.
    fn pass(&mut self, job: Job) -> Result<bool, AllocError>
        requires { self.old.next ≡ Some job }
        ensures stage { OnOk result (stage_from (jobs_left self.new) (account_in self.new)
            ≡ stage_from (jobs_left self.old) (account_in self.old)) }
        ensures jobs { IfOk result (λ passed. passed ≡ true → jobs_left self.old
            ≡ job_in self.old job ∷ jobs_left self.new) }
        ensures next { IfOk result (λ passed. passed ≡ false → self.new.next ≡ Some job) }
        ensures due { IfOk result (λ passed. passed ≡ false
            → is_due (job_in self.new job) (account_in self.new).endings ≡ true) }
        ensures some { IfOk result (λ passed. passed ≡ false
            → is_empty (job_in self.new job).acts ≡ false) }
        ensures chain { SameChain self.old self.new }
    {
        let next = job.after(self.classes.len());
        if !self.is_due(job) {
            self.next = next;
            return Ok(true);
        }
        if !self.is_empty(job) {
            return Ok(false);
        }
        self.endings.add(Ending::Well)?;
        self.next = next;
        Ok(true)
    }

    /// Leaves the next jobs behind whose blocks have no statement, where all blocks ended well so
    /// far: then each of these is due.
    fn pass_empty(&mut self) -> Result<(), AllocError>
        ensures stage { OnOk result (stage_from (jobs_left self.new) (account_in self.new)
            ≡ stage_from (jobs_left self.old) (account_in self.old)) }
        ensures chain { SameChain self.old self.new }
    {
        if !self.all_well() {
            return Ok(());
        }
        self.pass_before_each()?;
        self.pass_test()?;
        self.pass_after_each()
    }

    /// Of the next jobs those of `before_each` blocks.
    #[inline(always)]
    fn pass_before_each(&mut self) -> Result<(), AllocError>
        requires { list_all is_well self.old.endings ≡ true }
        ensures stage { OnOk result (stage_from (jobs_left self.new) (account_in self.new)
            ≡ stage_from (jobs_left self.old) (account_in self.old)) }
        ensures well { OnOk result (list_all is_well self.new.endings ≡ true) }
        ensures chain { SameChain self.old self.new }
    {
        match self.next {
            Some(Job::BeforeEach(depth)) => self.pass_before_from(depth),
            _ => Ok(()),
        }
    }

    /// The `before_each` blocks from the class at a depth inwards.
    #[inline(always)]
    fn pass_before_from(&mut self, depth: usize) -> Result<(), AllocError>
        requires next { self.old.next ≡ Some (BeforeEach depth) }
        requires well { list_all is_well self.old.endings ≡ true }
        ensures stage { OnOk result (stage_from (jobs_left self.new) (account_in self.new)
            ≡ stage_from (jobs_left self.old) (account_in self.old)) }
        ensures well { OnOk result (list_all is_well self.new.endings ≡ true) }
        ensures chain { SameChain self.old self.new }
    {
        let next = next_before_each(self.classes, depth);
        self.endings.add_well(next - depth)?;
        self.next = Some(Job::before(next, self.classes.len()));
        Ok(())
    }

    /// Of the next jobs the test's own.
    #[inline(always)]
    fn pass_test(&mut self) -> Result<(), AllocError>
        requires { list_all is_well self.old.endings ≡ true }
        ensures stage { OnOk result (stage_from (jobs_left self.new) (account_in self.new)
            ≡ stage_from (jobs_left self.old) (account_in self.old)) }
        ensures well { OnOk result (list_all is_well self.new.endings ≡ true) }
        ensures chain { SameChain self.old self.new }
    {
        match self.next {
            Some(Job::Test) if self.test.is_empty() => self.pass_empty_test(),
            _ => Ok(()),
        }
    }

    /// The test's own block, which has no statement.
    #[inline(always)]
    fn pass_empty_test(&mut self) -> Result<(), AllocError>
        requires next { self.old.next ≡ Some Test }
        requires empty { is_empty self.old.test ≡ true }
        requires well { list_all is_well self.old.endings ≡ true }
        ensures stage { OnOk result (stage_from (jobs_left self.new) (account_in self.new)
            ≡ stage_from (jobs_left self.old) (account_in self.old)) }
        ensures well { OnOk result (list_all is_well self.new.endings ≡ true) }
        ensures chain { SameChain self.old self.new }
    {
        self.endings.add_well(1)?;
        self.next = innermost(self.classes.len());
        Ok(())
    }

    /// Of the next jobs those of `after_each` blocks.
    #[inline(always)]
    fn pass_after_each(&mut self) -> Result<(), AllocError>
        requires { list_all is_well self.old.endings ≡ true }
        ensures stage { OnOk result (stage_from (jobs_left self.new) (account_in self.new)
            ≡ stage_from (jobs_left self.old) (account_in self.old)) }
        ensures chain { SameChain self.old self.new }
    {
        match self.next {
            Some(Job::AfterEach(depth)) => self.pass_after_from(depth),
            _ => Ok(()),
        }
    }

    /// The `after_each` blocks from the class at a depth outwards.
    #[inline(always)]
    fn pass_after_from(&mut self, depth: usize) -> Result<(), AllocError>
        requires next { self.old.next ≡ Some (AfterEach depth) }
        requires well { list_all is_well self.old.endings ≡ true }
        ensures stage { OnOk result (stage_from (jobs_left self.new) (account_in self.new)
            ≡ stage_from (jobs_left self.old) (account_in self.old)) }
        ensures chain { SameChain self.old self.new }
    {
        let next = next_after_each(self.classes, depth + 1);
        self.endings.add_well(depth + 1 - next)?;
        self.next = innermost(next);
        Ok(())
    }

    /// Begins the next job, which is due and has statements, in the place of no block.
    fn begin(&mut self, job: Job, block: &mut Option<BlockRun<'a>>) -> Result<(), AllocError>
        requires next { self.old.next ≡ Some job }
        requires due { is_due (job_in self.old job) (account_in self.old).endings ≡ true }
        requires some { is_empty (job_in self.old job).acts ≡ false }
        requires none { block.old ≡ None }
        ensures begun { OnOk result (stage_with block.new self.new
            ≡ stage_from (jobs_left self.old) (account_in self.old)) }
        ensures rights { HaveRights block.new self.old }
        ensures chain { SameChain self.old self.new }
    {
        self.next = job.after(self.classes.len());
        let names = self.environment(job)?;
        let run = self.run_of(job, names);
        put(block, run);
        Ok(())
    }

    /// Begins the next block that has something to do, if there is one, in the place of none. Once
    /// out of memory there is still none.
    #[tactic(auto, using(crate::proofs::WorkLemmas::shorter))]
    pub(crate) fn follow(&mut self, block: &mut Option<BlockRun<'a>>) -> Result<(), AllocError>
        requires { block.old ≡ None }
        ensures stage { OnOk result (stage_with block.new self.new
            ≡ stage_from (jobs_left self.old) (account_in self.old)) }
        ensures rights { HaveRights block.new self.old }
        ensures chain { SameChain self.old self.new }
    {
        self.pass_empty()?;
        while let Some(job) = self.next {
            let passed = self.pass(job)?;
            if !passed {
                return self.begin(job, block);
            }
        }
        Ok(())
    }

    /// Where nothing is left of a block, ends it, and begins the next that has something to do, if
    /// there is one.
    pub(crate) fn settle(&mut self, block: &mut Option<BlockRun<'a>>) -> Result<(), AllocError>
        requires { HaveRights block.old self.old }
        ensures stage { OnOk result (stage_with block.new self.new
            ≡ settled_with block.old self.old) }
        ensures rights { HaveRights block.new self.old }
        ensures chain { SameChain self.old self.new }
    {
        match block {
            Some(run) if run.is_ended() => {}
            _ => return Ok(()),
        }
        let Some(run) = block.take() else {
            return Ok(());
        };
        self.end_block(run)?;
        self.follow(block)
    }
}

/// Puts a run in the place of none, in which it is not moved again.
fn put<'a>(block: &mut Option<BlockRun<'a>>, run: BlockRun<'a>)
    requires { block.old ≡ None }
    ensures { block.new ≡ Some run.entry }
{
    // So the compiler sees that there is nothing to drop.
    let before = block.replace(run);
    let None = before else {
        unreachable!();
    };
}

/// Puts lines behind others. Where there are none yet, as in most bodies, they are not copied.
fn put_behind(lines: &mut Lines, more: Lines) -> Result<(), AllocError>
    ensures { OnOk result (lines.new ≡ lines.old ++ more) }
{
    if lines.as_slice().is_empty() {
        *lines = more;
        return Ok(());
    }
    lines.append(more)
}

/// Puts names before others. Where there are none, as in most bodies, none is moved.
fn put_before(alloc: Global, names: &mut Bindings, first: Bindings) -> Result<(), AllocError>
    ensures { OnOk result (names.new ≡ first ++ names.old) }
{
    let behind = mem::replace(names, first);
    if behind.len() == 0 {
        drop(behind);
        return Ok(());
    }
    names.append(alloc, behind)
}
