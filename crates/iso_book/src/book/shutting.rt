//! Shuts.
ghost use Rattle.std.specs.Prelude.{◌≡◌, ◌<◌, MatchOption, MatchResult, None, OnErr, OnOk, length};
ghost use Rattle.std.specs.Option.{option_map};
ghost use Rattle.iso_book.specs.Books.{refusal_in, with_event};
ghost use Rattle.iso_book.specs.Holdings.{HoldSame};
ghost use Rattle.iso_book.specs.Progress.{HasShut};
ghost use Rattle.iso_book.specs.Turns.{GoesOnWith, IsAllowed, IsNotTaken, IsRefusedBy, IsShut, IsTaken, handed};
ghost use Rattle.iso_lifecycle.specs.Subjects.{subject};
ghost use Rattle.iso_lifecycle.specs.WholeBodies.{CanBegin};
ghost use Rattle.iso_lifecycle.specs.declared.kind.BodyKind.TheVariants as BodyKind;
ghost use Rattle.iso_standing.specs.CodeEvents.{refused_of};

use crate::book::Book;
use crate::home::goes_on_with;
use iso_locks::tray::Tray;
use iso_plan::laws;
use iso_standing::event::Event;
use iso_standing::following::{bodies_stand_as_alone, results_follow_nodes};
use iso_standing::refused::{CoreFault, Refused};
use std::alloc::AllocError;

impl<'a> Book<'a> {
    /// For a runner of one's own: shuts a class with any tray. It asks by value, as `enter` does,
    /// and is then as `shut_own`.
    pub fn shut(&mut self, worker: u32, node: u32, tray: &mut Tray<'_>) -> Result<(), CoreFault>
        ensures event { MatchResult result
            (λ _. IsTaken (Event.Shut worker node)
            (GoesOnWith self.old node tray.old) self.old self.new)
            (λ fault. IsNotTaken fault (Event.Shut worker node)
            (GoesOnWith self.old node tray.old) self.old self.new tray.old tray.new) }
        ensures tray { OnOk result (IsShut node tray.old tray.new) }
        ensures held { OnOk result (HoldSame self.old self.new) }
        ensures progress { OnOk result (HasShut worker node self.old self.new) }
    {
        if !self.is_made_for(tray) {
            let refused = self.kind_of_shut(worker, node).unwrap_or(Refused::Stranger);
            return Err(CoreFault::Refused(refused));
        }
        self.shut_own(worker, node, tray)
    }

    /// Shuts a class with a tray of this plan and these starting values, where nothing refuses it
    /// and the tray is the book's: the frames of the class and of those around it are handed to it
    /// in place of others. Refusals and running out of memory are as for an Enter.
    pub fn shut_own(&mut self, worker: u32, node: u32, tray: &mut Tray<'_>) -> Result<(), CoreFault>
        requires plan { tray.old.plan ≡ self.old.plan }
        requires world { tray.old.world ≡ self.old.world }
        ensures event { MatchResult result
            (λ _. IsTaken (Event.Shut worker node)
            (GoesOnWith self.old node tray.old) self.old self.new)
            (λ fault. IsNotTaken fault (Event.Shut worker node)
            (GoesOnWith self.old node tray.old) self.old self.new tray.old tray.new) }
        ensures tray { OnOk result (IsShut node tray.old tray.new) }
        ensures held { OnOk result (HoldSame self.old self.new) }
        ensures progress { OnOk result (HasShut worker node self.old self.new) }
    {
        if let Some(refused) = self.refusal_of_shut(worker, node, tray) {
            return Err(CoreFault::Refused(refused));
        }
        self.hand_path(worker, node, tray)?;
        self.take_shut(worker, node);
        Ok(())
    }

    /// Why a Shut with a tray of this plan and these starting values is refused, if it is. Takes no
    /// memory.
    fn refusal_of_shut(&self, worker: u32, node: u32, tray: &Tray<'_>) -> Option<Refused>
        requires plan { tray.now.plan ≡ self.now.plan }
        requires world { tray.now.world ≡ self.now.world }
        ensures { MatchOption result (IsAllowed (refusal_in self.now (Event.Shut worker node))
            (GoesOnWith self.now node tray.now))
            (λ why. IsRefusedBy (refusal_in self.now (Event.Shut worker node))
            (GoesOnWith self.now node tray.now) (refused_of why)) }
    {
        if let Some(refused) = self.kind_of_shut(worker, node) {
            return Some(refused);
        }
        if !goes_on_with(tray, node) {
            return Some(Refused::Stranger);
        }
        None
    }

    /// Why a Shut is refused whatever tray comes with it, if it is. Takes no memory.
    pub(super) fn kind_of_shut(&self, worker: u32, node: u32) -> Option<Refused>
        ensures kind { option_map refused_of result ≡ refusal_in self.now (Event.Shut worker node) }
        ensures inner { result ≡ None → 0 < node }
        ensures node { result ≡ None → node < length self.now.plan.rows }
    {
        self.standing.refusal_of_shut(worker, node)
    }

    /// Hands a tray the frames of a class that may be shut and of the classes around it.
    fn hand_path(&self, worker: u32, node: u32, tray: &mut Tray<'_>) -> Result<(), AllocError>
        requires allowed { refusal_in self.now (Event.Shut worker node) ≡ None }
        requires plan { tray.old.plan ≡ self.now.plan }
        requires world { tray.old.world ≡ self.now.world }
        ensures handed { OnOk result (tray.new ≡ handed tray.old node) }
        ensures begins { OnOk result (CanBegin
            (subject tray.new.plan tray.new.world node) BodyKind.AfterAll tray.new.frames) }
        ensures unchanged { OnErr result (tray.new ≡ tray.old) }
    {
        laws::nodes_are_a_tree(self.plan);
        bodies_stand_as_alone(self.plan);
        tray.hand_own_path(&self.results, node)
    }

    /// Takes a Shut that nothing refuses. Takes no memory.
    fn take_shut(&mut self, worker: u32, node: u32)
        requires { refusal_in self.old (Event.Shut worker node) ≡ None }
        ensures book { self.new ≡ with_event self.old (Event.Shut worker node) }
        ensures held { HoldSame self.old self.new }
        ensures progress { HasShut worker node self.old self.new }
    {
        laws::nodes_are_a_tree(self.plan);
        results_follow_nodes(self.plan);
        self.standing.shut(worker, node);
        self.history.push_reserved(Event::Shut { worker, node });
    }
}
