//! Enters.
ghost use Rattle.std.specs.Prelude.{◌≡◌, ◌<◌, MatchOption, MatchResult, None, OnErr, OnOk, length};
ghost use Rattle.std.specs.Option.{option_map};
ghost use Rattle.iso_book.specs.Books.{refusal_in, with_event};
ghost use Rattle.iso_book.specs.Holdings.{HoldAlike};
ghost use Rattle.iso_book.specs.Progress.{HasEntered};
ghost use Rattle.iso_book.specs.Turns.{BeginsIn, IsAllowed, IsEntered, IsNotTaken, IsRefusedBy, IsTaken, MayEnterWith, ReadsStart, handed};
ghost use Rattle.iso_locks.specs.Vaults.{IsLentTo};
ghost use Rattle.iso_plan.specs.Paths.{parent};
ghost use Rattle.iso_plan.specs.RowView.{tree_of};
ghost use Rattle.iso_standing.specs.CodeEvents.{refused_of};

use crate::book::Book;
use crate::home::enters_with;
use iso_locks::tray::Tray;
use iso_plan::laws;
use iso_standing::event::Event;
use iso_standing::following::{bodies_stand_as_alone, results_follow_nodes};
use iso_standing::refused::{CoreFault, Refused};
use std::alloc::AllocError;

impl<'a> Book<'a> {
    /// For a runner of one's own: enters a node with any tray. It asks by value whether the tray is
    /// of this plan and these starting values, which takes time by what these say, and is then as
    /// `enter_own`: a tray of others is refused as a stranger's where no other kind applies.
    pub fn enter(&mut self, worker: u32, node: u32, tray: &mut Tray<'_>) -> Result<(), CoreFault>
        ensures event { MatchResult result
            (λ _. IsTaken (Event.Enter worker node)
            (MayEnterWith self.old node tray.old) self.old self.new)
            (λ fault. IsNotTaken fault (Event.Enter worker node)
            (MayEnterWith self.old node tray.old) self.old self.new tray.old tray.new) }
        ensures tray { OnOk result (IsEntered node tray.old tray.new) }
        ensures held { OnOk result (HoldAlike node self.old self.new) }
        ensures progress { OnOk result (HasEntered worker node self.old self.new) }
    {
        if !self.is_made_for(tray) {
            let refused = self
                .kind_of_enter(worker, node)
                .unwrap_or(Refused::Stranger);
            return Err(CoreFault::Refused(refused));
        }
        self.enter_own(worker, node, tray)
    }

    /// Enters a node with a tray of this plan and these starting values, where nothing refuses it
    /// and the tray is the book's: the node is lent to it, and the frames of the classes around the
    /// node are handed to it in place of others. A refusal is of the first kind that applies,
    /// Stranger the last of them. Out of memory, of a further owner of a frame alone, comes after
    /// it. Neither changes anything.
    pub fn enter_own(
        &mut self,
        worker: u32,
        node: u32,
        tray: &mut Tray<'_>,
    ) -> Result<(), CoreFault>
        requires plan { tray.old.plan ≡ self.old.plan }
        requires world { tray.old.world ≡ self.old.world }
        ensures event { MatchResult result
            (λ _. IsTaken (Event.Enter worker node)
            (MayEnterWith self.old node tray.old) self.old self.new)
            (λ fault. IsNotTaken fault (Event.Enter worker node)
            (MayEnterWith self.old node tray.old) self.old self.new tray.old tray.new) }
        ensures tray { OnOk result (IsEntered node tray.old tray.new) }
        ensures held { OnOk result (HoldAlike node self.old self.new) }
        ensures progress { OnOk result (HasEntered worker node self.old self.new) }
    {
        if let Some(refused) = self.refusal_of_enter(worker, node, tray) {
            return Err(CoreFault::Refused(refused));
        }
        self.hand_around(worker, node, tray)?;
        self.take_enter(worker, node, tray);
        Ok(())
    }

    /// Why an Enter with a tray of this plan and these starting values is refused, if it is. Takes
    /// no memory.
    fn refusal_of_enter(&self, worker: u32, node: u32, tray: &Tray<'_>) -> Option<Refused>
        requires plan { tray.now.plan ≡ self.now.plan }
        requires world { tray.now.world ≡ self.now.world }
        ensures kind { MatchOption result (IsAllowed (refusal_in self.now (Event.Enter worker node))
            (MayEnterWith self.now node tray.now))
            (λ why. IsRefusedBy (refusal_in self.now (Event.Enter worker node))
            (MayEnterWith self.now node tray.now) (refused_of why)) }
        ensures inner { result ≡ None → 0 < node }
        ensures node { result ≡ None → node < length self.now.plan.rows }
    {
        if let Some(refused) = self.kind_of_enter(worker, node) {
            return Some(refused);
        }
        if !enters_with(tray, node) {
            return Some(Refused::Stranger);
        }
        None
    }

    /// Why an Enter is refused whatever tray comes with it, if it is. Takes no memory.
    pub(super) fn kind_of_enter(&self, worker: u32, node: u32) -> Option<Refused>
        ensures kind { option_map refused_of result
            ≡ refusal_in self.now (Event.Enter worker node) }
        ensures inner { result ≡ None → 0 < node }
        ensures node { result ≡ None → node < length self.now.plan.rows }
    {
        self.standing.refusal_of_enter(worker, node)
    }

    /// Hands a tray the frames of the classes around a node that may be entered.
    fn hand_around(&self, worker: u32, node: u32, tray: &mut Tray<'_>) -> Result<(), AllocError>
        requires allowed { refusal_in self.now (Event.Enter worker node) ≡ None }
        requires plan { tray.old.plan ≡ self.now.plan }
        requires world { tray.old.world ≡ self.now.world }
        ensures handed { OnOk result (tray.new
            ≡ handed tray.old (parent (tree_of tray.old.plan) node)) }
        ensures begins { OnOk result (BeginsIn node tray.new) }
        ensures unchanged { OnErr result (tray.new ≡ tray.old) }
    {
        laws::nodes_are_a_tree(self.plan);
        bodies_stand_as_alone(self.plan);
        let class = self.plan.parent(node).unwrap_or(0);
        tray.hand_own_path(&self.results, class)
    }

    /// Takes an Enter that nothing refuses, and lends the node. Takes no memory.
    fn take_enter(&mut self, worker: u32, node: u32, tray: &mut Tray<'_>)
        requires allowed { refusal_in self.old (Event.Enter worker node) ≡ None }
        requires own { MayEnterWith self.old node tray.old }
        ensures book { self.new ≡ with_event self.old (Event.Enter worker node) }
        ensures lent { IsLentTo node tray.old tray.new }
        ensures reads { ReadsStart node tray.new }
        ensures held { HoldAlike node self.old self.new }
        ensures progress { HasEntered worker node self.old self.new }
    {
        laws::nodes_are_a_tree(self.plan);
        results_follow_nodes(self.plan);
        self.vault.lend_free(node, tray);
        self.standing.enter(worker, node);
        self.history.push_reserved(Event::Enter { worker, node });
        iso_locks::laws::lent_nodes_find_their_values(tray);
    }
}
