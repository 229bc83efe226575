//! Leaves.
ghost use Rattle.std.specs.Prelude.{◌≡◌, ◌<◌, ℕ, MatchOption, MatchResult, None, OnOk, length, option_map, true};
ghost use Rattle.iso_book.specs.Books.{with_event};
ghost use Rattle.iso_book.specs.Holdings.{HoldAfter};
ghost use Rattle.iso_book.specs.Leaves.{Began, IsLeft, IsNotLeft, MayBring, after_leave, booking_in, home_after, is_last, is_of_worker, is_under_way, leave_refusal_in};
ghost use Rattle.iso_book.specs.Progress.{HasGoneOn};
ghost use Rattle.iso_book.specs.Turns.{GoesOnWith, IsAllowed, IsRefusedBy, ReadsStart};
ghost use Rattle.iso_lifecycle.specs.DoneViews.{DoneView};
ghost use Rattle.iso_locks.specs.Trays.{is_lent};
ghost use Rattle.iso_locks.specs.Vaults.{CanTakeBack};
ghost use Rattle.iso_standing.specs.CodeEvents.{refused_of};

use crate::book::Book;
use crate::home::goes_on_with;
use crate::receipt::Receipt;
use iso_lifecycle::done::Done;
use iso_lifecycle::kind::BodyKind;
use iso_locks::tray::Tray;
use iso_locks::vault::Vault;
use iso_plan::laws;
use iso_standing::event::Event;
use iso_standing::following::{results_follow_leaves, results_follow_nodes};
use iso_standing::refused::Refused;

/// What the Leave of a body does to the values: the last body of a node brings home what the node
/// takes for READ_WRITE. Takes no memory.
fn bring_home(vault: &mut Vault<'_>, node: u32, kind: BodyKind, tray: &mut Tray<'_>)
    requires { is_last kind ≡ true → CanTakeBack node vault.old tray.old }
    ensures vault { vault.new ≡ home_after kind node vault.old }
    ensures tray { tray.new ≡ after_leave kind node tray.old }
{
    match kind {
        BodyKind::BeforeAll => {}
        BodyKind::Test | BodyKind::AfterAll => vault.take_back(node, tray),
    }
}

impl<'a> Book<'a> {
    /// For a runner of one's own: books what a worker's body came to, with any tray. It asks by
    /// value, as `enter` does, and is then as `leave_own`.
    pub fn leave(
        &mut self,
        worker: u32,
        done: Done,
        tray: &mut Tray<'_>,
    ) -> Result<Receipt, (Refused, Done)>
        requires { MayBring done tray.old }
        ensures event { MatchResult result
            (λ receipt. IsLeft worker done receipt self.old self.new tray.old)
            (λ refusal. IsNotLeft (refused_of refusal.0) refusal.1 worker done self.old self.new
            tray.old tray.new) }
        ensures tray { OnOk result (tray.new ≡ after_leave done.kind done.subject.node tray.old) }
        ensures reads { OnOk result ((n : ℕ) → is_lent tray.new.lent n ≡ true
            → ReadsStart n tray.new) }
        ensures held { OnOk result (HoldAfter done.kind done.subject.node self.old self.new) }
        ensures progress { OnOk result
            (HasGoneOn done.kind done.subject.node self.old self.new) }
    {
        if !self.is_made_for(tray) {
            let refused = self
                .kind_of_leave(worker, &done)
                .unwrap_or(Refused::Stranger);
            return Err((refused, done));
        }
        self.leave_own(worker, done, tray)
    }

    /// Books what a worker's body came to, with a tray of this plan and these starting values,
    /// where nothing refuses it, the body is the one that the worker has, and the tray is the
    /// book's. The last body of a node gives the node back: what it takes for READ_WRITE comes
    /// home, and what another node of the tray holds for READ stays open. The receipt tells the
    /// place in the history.
    ///
    /// A refusal is of the first kind that applies: Stopped, NoWorker, NoBody, OtherBody, Stranger.
    /// It changes nothing, and hands back what was brought. Takes no memory.
    pub fn leave_own(
        &mut self,
        worker: u32,
        done: Done,
        tray: &mut Tray<'_>,
    ) -> Result<Receipt, (Refused, Done)>
        requires plan { tray.old.plan ≡ self.old.plan }
        requires world { tray.old.world ≡ self.old.world }
        requires brought { MayBring done tray.old }
        ensures event { MatchResult result
            (λ receipt. IsLeft worker done receipt self.old self.new tray.old)
            (λ refusal. IsNotLeft (refused_of refusal.0) refusal.1 worker done self.old self.new
            tray.old tray.new) }
        ensures tray { OnOk result (tray.new ≡ after_leave done.kind done.subject.node tray.old) }
        ensures reads { OnOk result ((n : ℕ) → is_lent tray.new.lent n ≡ true
            → ReadsStart n tray.new) }
        ensures held { OnOk result (HoldAfter done.kind done.subject.node self.old self.new) }
        ensures progress { OnOk result
            (HasGoneOn done.kind done.subject.node self.old self.new) }
    {
        if let Some(refused) = self.refusal_of_leave(worker, &done, tray) {
            return Err((refused, done));
        }
        Ok(self.take_leave(worker, done, tray))
    }

    /// Why a Leave with a tray of this plan and these starting values is refused, if it is. Takes
    /// no memory.
    fn refusal_of_leave(&self, worker: u32, done: &Done, tray: &Tray<'_>) -> Option<Refused>
        requires plan { tray.now.plan ≡ self.now.plan }
        requires world { tray.now.world ≡ self.now.world }
        ensures { MatchOption result (IsAllowed (leave_refusal_in self.now worker done.now)
            (GoesOnWith self.now done.now.subject.node tray.now))
            (λ why. IsRefusedBy (leave_refusal_in self.now worker done.now)
            (GoesOnWith self.now done.now.subject.node tray.now) (refused_of why)) }
    {
        if let Some(refused) = self.kind_of_leave(worker, done) {
            return Some(refused);
        }
        if !goes_on_with(tray, done.node()) {
            return Some(Refused::Stranger);
        }
        None
    }

    /// Why a Leave is refused whatever tray comes with it, if it is. Takes no memory.
    pub(super) fn kind_of_leave(&self, worker: u32, done: &Done) -> Option<Refused>
        ensures kind { option_map refused_of result ≡ leave_refusal_in self.now worker done.now }
        ensures inner { result ≡ None → 0 < done.now.subject.node }
        ensures node { result ≡ None → done.now.subject.node < length self.now.plan.rows }
    {
        laws::nodes_are_a_tree(self.plan);
        if let Some(refused) = self.standing.refusal_of_booking(worker) {
            return Some(refused);
        }
        if !self.is_of_worker(worker, done) {
            return Some(Refused::OtherBody(done.node()));
        }
        None
    }

    /// Whether a body was the one that a worker has, where it has one.
    fn is_of_worker(&self, worker: u32, done: &Done) -> bool
        requires { booking_in self.now worker ≡ None }
        ensures { result ≡ is_of_worker self.now worker done.now }
    {
        laws::nodes_are_a_tree(self.plan);
        match self.standing.node_of(worker) {
            Some(node) => node == done.node() && self.is_under_way(node, done.kind()),
            None => false,
        }
    }

    /// Whether the body under way at a node, where one is, is of a kind.
    fn is_under_way(&self, node: u32, kind: BodyKind) -> bool
        requires { node < length self.now.plan.rows }
        ensures { result ≡ is_under_way self.now node kind }
    {
        let closing = self.standing.phase(node).is_closing();
        match kind {
            BodyKind::BeforeAll => !closing && !self.plan.is_test(node),
            BodyKind::Test => !closing && self.plan.is_test(node),
            BodyKind::AfterAll => closing,
        }
    }

    /// A worker's last event is the one that began the body which it may leave.
    pub(crate) fn keep_beginnings(&self)
        ensures { (worker : ℕ) (done : DoneView) → leave_refusal_in self.now worker done ≡ None
            → Began self.now.history worker done.subject.node }
    {
        let _history = &self.history;
    }

    /// Takes a Leave that nothing refuses. Takes no memory.
    fn take_leave(&mut self, worker: u32, done: Done, tray: &mut Tray<'_>) -> Receipt
        requires allowed { leave_refusal_in self.old worker done ≡ None }
        requires own { GoesOnWith self.old done.subject.node tray.old }
        requires brought { MayBring done tray.old }
        ensures book { self.new ≡ with_event self.old (Event.Leave worker) }
        ensures receipt { result ≡ record {
          number = length self.old.history;
          worker = worker;
          node = done.subject.node;
        } }
        ensures tray { tray.new ≡ after_leave done.kind done.subject.node tray.old }
        ensures reads { (n : ℕ) → is_lent tray.new.lent n ≡ true → ReadsStart n tray.new }
        ensures held { HoldAfter done.kind done.subject.node self.old self.new }
        ensures progress { HasGoneOn done.kind done.subject.node self.old self.new }
    {
        laws::nodes_are_a_tree(self.plan);
        iso_suites::laws::histories_go_on_by_leaves(self.plan);
        iso_standing::laws::standings_tell_of_states();
        results_follow_nodes(self.plan);
        results_follow_leaves(self.plan);
        iso_locks::laws::lent_nodes_find_their_values(tray);
        let number = self.history.len();
        let node = done.node();
        let kind = done.kind();
        self.results.put(done);
        let well = !self.results.bars(node);
        self.standing.leave(worker, well);
        bring_home(&mut self.vault, node, kind, tray);
        self.history.push_reserved(Event::Leave { worker });
        iso_locks::laws::lent_nodes_find_their_values(tray);
        Receipt::new(number, worker, node)
    }
}
