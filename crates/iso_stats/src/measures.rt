//! The figures of a run, from its plan and its times.
ghost use Rattle.std.specs.Prelude.{◌≡◌, IfOk, length};
ghost use Rattle.iso_plan.specs.RowView.{tree_of};
ghost use Rattle.iso_stats.specs.Measures.{end_of, last_end, span, test_count, work};
ghost use Rattle.iso_stats.specs.Shares.{percent};
ghost use Rattle.iso_waits.specs.Stays.{body_time};

use crate::chains::longest;
use crate::figures::{Best, Chain, Figures, Link, Without};
use crate::modes::Freed;
use crate::serial::{own, serial};
use crate::share::{at_best, percent};
use crate::totals::most_waited;
use iso_lifecycle::kind::BodyKind;
use iso_plan::plan::Plan;
use iso_times::times::Times;
use iso_waits::wait::NodeWait;
use std::alloc::{AllocError, Global};

/// The figures of a run of a plan, whose bodies had these times and whose nodes these waits, and
/// which started `workers` of `of` workers.
pub fn figures(
    alloc: Global,
    plan: &Plan,
    times: &Times,
    waits: &[NodeWait],
    workers: u32,
    of: u32,
) -> Result<Figures, AllocError>
    ensures tests { IfOk result (λ f. f.tests ≡ test_count (tree_of plan.now)) }
    ensures workers { IfOk result (λ f. f.workers ≡ workers) }
    ensures of { IfOk result (λ f. f.of ≡ of) }
    ensures span { IfOk result (λ f. f.span ≡ span (tree_of plan.now) times.now) }
    ensures busy { IfOk result (λ f. f.busy
        ≡ percent (work (tree_of plan.now) times.now) workers (span (tree_of plan.now) times.now)) }
{
    let waited = most_waited(alloc, plan, waits)?;
    let chain = chain_without(alloc, plan, times, None)?;
    let work = work(plan, times);
    let best = best(alloc, plan, times, chain, work, of)?;
    let span = span(plan, times);
    Ok(Figures {
        tests: test_count(plan),
        workers,
        of,
        span,
        busy: percent(work, workers, span),
        waited,
        chain,
        best,
    })
}

/// The longest chain of a run, without a key if one is given.
fn chain_without(
    alloc: Global,
    plan: &Plan,
    times: &Times,
    key: Option<u32>,
) -> Result<Option<Chain>, AllocError> {
    let freed = Freed::without(alloc, plan, key)?;
    let times = serial(alloc, plan, times, &freed)?;
    Ok(longest(plan, &times, &freed, key))
}

/// How fast `workers` workers are at best, where this is the longest chain.
fn best(
    alloc: Global,
    plan: &Plan,
    times: &Times,
    chain: Option<Chain>,
    work: u64,
    workers: u32,
) -> Result<Option<Best>, AllocError> {
    let Some(chain) = chain else {
        return Ok(None);
    };
    let tenths = at_best(work, workers, chain.time);
    let without = match chain.link {
        Link::Key(key) => Some(Without {
            key,
            tenths: at_best(
                work,
                workers,
                time_of(chain_without(alloc, plan, times, Some(key))?),
            ),
        }),
        Link::Class(_) => None,
    };
    Ok(Some(Best { tenths, without }))
}

/// How long a chain takes, if there is one.
fn time_of(chain: Option<Chain>) -> u64 {
    match chain {
        Some(chain) => chain.time,
        None => 0,
    }
}

/// How long all bodies took together.
fn work(plan: &Plan, times: &Times) -> u64
    ensures { result ≡ work (tree_of plan.now) times.now }
{
    let mut sum = 0u64;
    'nodes: for node in 0..plan.len() {
        sum = sum.saturating_add(own(times, node));
    }
    sum
}

/// When the last body ended.
fn span(plan: &Plan, times: &Times) -> u64
    ensures { result ≡ span (tree_of plan.now) times.now }
{
    let mut last = 0u64;
    'nodes: for node in 0..plan.len() {
        last = last.max(last_end(times, node));
    }
    last
}

/// When the last body of a node ended.
fn last_end(times: &Times, node: u32) -> u64
    ensures { result ≡ last_end times.now node }
{
    end_of(times, node, BodyKind::BeforeAll).max(end_of(times, node, BodyKind::AfterAll))
}

/// When a body ended; from the start on where it has no time.
fn end_of(times: &Times, node: u32, kind: BodyKind) -> u64
    ensures { result ≡ end_of (body_time times.now node kind) }
{
    match times.body(node, kind) {
        Some(time) => time.end,
        None => 0,
    }
}

/// How many tests a plan has.
fn test_count(plan: &Plan) -> u32
    ensures { result ≡ test_count (tree_of plan.now) }
{
    let mut tests = 0;
    'nodes: for node in 0..plan.len() {
        if plan.is_test(node) {
            tests += 1;
        }
    }
    tests
}
