//! A core that takes a history, with the steps of each body before its Leave.
ghost use Rattle.std.specs.Prelude.{◌≡◌, ◌<◌, IfErr, IfOk, None, OnOk, false, length, true};
ghost use Rattle.iso_core.specs.Cores.{Accepted, new_core, refusal_in, with_event};
ghost use Rattle.iso_isolation.specs.States.{is_finished};
ghost use Rattle.iso_record.specs.Recordings.{GoesOnBy, HasGoneOnBy, HasTaken, IsLeaving, OfSameSuite, RefusedIfTold, history_in, is_leave};
ghost use Rattle.iso_record.specs.SerialRuns.{after_history};
ghost use Rattle.iso_standing.specs.declared.event.Event.TheVariants as Code;

use iso_core::machine::Core;
use iso_plan::plan::Plan;
use iso_settings::world::World;
use iso_standing::event::Event;
use iso_standing::refused::CoreFault;
use std::alloc::{AllocError, Global};
use std::marker::Model;

/// A core, and the events that it has taken. Contracts see the core. After running out of
/// memory it is only dropped.
#[derive(Drop)]
pub(crate) struct Recording<'a> {
    core: Core<'a>,
    events: Vec<Event>,
}

impl<'a> Model for Recording<'a> {
    ghost use Rattle.std.specs.Prelude.{◌≡◌};
    ghost use Rattle.iso_core.specs.Cores.{CoreView, core_code};

    ghost Value = { CoreView };

    ghost coded = { core_code };

    ghost view = { λ r. r.core };

    ghost invariant = { λ r. r.events.items ≡ r.core.events };
}

impl<'a> Recording<'a> {
    /// Of a plan and a world on `workers` workers: no event yet.
    pub fn new(
        alloc: Global,
        plan: &'a Plan,
        world: &'a World,
        workers: u32,
    ) -> Result<Recording<'a>, AllocError>
        ensures { IfOk result (λ r. r ≡ new_core plan.now world.now workers) }
    {
        Ok(Recording {
            core: Core::new(alloc, plan, world, workers)?,
            events: Vec::new(alloc),
        })
    }

    /// The events that it has taken.
    pub fn into_events(self) -> Vec<Event>
        ensures { result.items ≡ self.entry.events }
    {
        let Recording { core, events } = self;
        drop(core);
        events
    }

    /// Takes an event where nothing refuses it.
    fn take(&mut self, event: Event) -> Result<(), CoreFault>
        ensures accepted { OnOk result (Accepted event self.old self.new) }
        ensures refused { IfErr result (λ fault. RefusedIfTold fault event self.old self.new) }
        ensures same { OfSameSuite self.old self.new }
    {
        self.events.reserve(1)?;
        self.core.apply(event)?;
        self.events.push_reserved(event);
        Ok(())
    }

    /// Takes an event that nothing refuses.
    fn must_take(&mut self, event: Event) -> Result<(), AllocError>
        requires { refusal_in self.old event ≡ None }
        ensures taken { OnOk result (self.new ≡ with_event self.old event) }
        ensures same { OfSameSuite self.old self.new }
    {
        match self.take(event) {
            Ok(()) => Ok(()),
            Err(CoreFault::OutOfMemory) => Err(AllocError),
            Err(CoreFault::Refused(_)) => unreachable!(),
        }
    }

    /// A worker leaves its body, or makes a step of it where it hasn't ended. Answers whether it
    /// left.
    fn leave_or_step(&mut self, worker: u32) -> Result<bool, AllocError>
        requires { IsLeaving self.old worker }
        ensures left { IfOk result (λ left. left ≡ true
            → Accepted (Code.Leave worker) self.old self.new) }
        ensures stepped { IfOk result (λ left. left ≡ false
            → Accepted (Code.Step worker) self.old self.new) }
        ensures same { OfSameSuite self.old self.new }
    {
        match self.take(Event::Leave { worker }) {
            Ok(()) => return Ok(true),
            Err(CoreFault::OutOfMemory) => return Err(AllocError),
            Err(CoreFault::Refused(_)) => {}
        }
        self.must_take(Event::Step { worker })?;
        Ok(false)
    }

    /// A worker makes the steps of its body, and leaves it.
    fn leave(&mut self, worker: u32) -> Result<(), AllocError>
        requires goes_on { GoesOnBy self.old (Code.Leave worker) }
        requires taken { HasTaken self.old (history_in self.old) }
        ensures gone_on { OnOk result (HasGoneOnBy (Code.Leave worker) self.old self.new) }
        ensures same { OfSameSuite self.old self.new }
    {
        'steps: loop {
            if self.leave_or_step(worker)? {
                return Ok(());
            }
        }
    }

    /// Takes the next event of a history, before a Leave the steps of its body. Where memory runs
    /// out, steps that were made before stay taken.
    pub fn go_on_by(&mut self, event: Event) -> Result<(), AllocError>
        requires goes_on { GoesOnBy self.old event }
        requires taken { HasTaken self.old (history_in self.old) }
        ensures gone_on { OnOk result (HasGoneOnBy event self.old self.new) }
        ensures same { OfSameSuite self.old self.new }
    {
        match event {
            Event::Leave { worker } => self.leave(worker),
            Event::Enter { .. } | Event::Step { .. } | Event::Shut { .. } => self.go_on_plainly(
                event,
            ),
        }
    }

    /// Takes the next event of a history, which is no Leave.
    fn go_on_plainly(&mut self, event: Event) -> Result<(), AllocError>
        requires plain { is_leave event ≡ false }
        requires goes_on { GoesOnBy self.old event }
        requires taken { HasTaken self.old (history_in self.old) }
        ensures gone_on { OnOk result (HasGoneOnBy event self.old self.new) }
        ensures same { OfSameSuite self.old self.new }
    {
        self.must_take(event)
    }

    /// Whether a node is finished.
    pub fn is_finished(&self, node: u32) -> bool
        requires within { node < length self.now.plan.rows }
        requires taken { HasTaken self.now (history_in self.now) }
        ensures { result ≡ is_finished
            ((after_history self.now.plan self.now.world self.now.workers
            (history_in self.now)).nodes.status node) }
    {
        self.core.outcome(node).is_some()
    }
}
