//! One worker's values.
ghost use Rattle.std.specs.Prelude.{◌≡◌, ◌<◌, ◌++◌, ◌∷◌, [], ℕ, None, Some, IfOk, List, OnErr, OnOk, cond, false, is_some, length, map, not, replicate, true};
ghost use Rattle.std.specs.List.{list_any};
ghost use Rattle.iso_store.specs.Histories.{History};
ghost use Rattle.iso_locks.specs.Clashes.{clash};
ghost use Rattle.iso_locks.specs.Owners.{AreOwned, CanHold};
ghost use Rattle.iso_locks.specs.Slots.{HasLater, has_changed, has_unchanged, slot};
ghost use Rattle.iso_locks.specs.Flats.{IsFlat, flat};
ghost use Rattle.iso_lifecycle.specs.ResultViews.{AreOpened};
ghost use Rattle.iso_lifecycle.specs.Subjects.{started};
ghost use Rattle.iso_locks.specs.Trays.{CanUndo, empty_tray, frames_on, is_lent, marked, restored, start_at, undone};
ghost use Rattle.iso_locks.specs.Moves.{AreAllButFirst, is_written, moved_away, moved_here};
ghost use Rattle.iso_locks.specs.Vaults.{giving_back, receiving};
ghost use Rattle.iso_locks.specs.declared.moves.Moves.TheVariants.{AllButFirst, Nothing};
ghost use Rattle.iso_plan.specs.HeldNodes.{any_held};
ghost use Rattle.iso_plan.specs.KeyTable.{keys};
ghost use Rattle.iso_plan.specs.Locks.{is_write, locks};
ghost use Rattle.iso_plan.specs.NodeChains.{depth};
ghost use Rattle.iso_plan.specs.Paths.{is_test, path, row_at};
ghost use Rattle.iso_plan.specs.RowView.{tree_of};

use crate::kept::KeptValues;
use crate::lent::LentNodes;
use crate::moves::{Moves, move_values};
use crate::slots::Slots;
use crate::starting::{Starts, starts_of};
use crate::vault::values;
use iso_lifecycle::frame::Frame;
use iso_lifecycle::results::Results;
use iso_model::resource::{Ask, Change};
use iso_model::resource_key::ResourceKey;
use iso_model::touch::Touch;
use iso_plan::laws;
use iso_plan::lock::Lock;
use iso_plan::plan::Plan;
use iso_settings::world::World;
use std::alloc::{AllocError, Global};
use std::marker::Model;
use std::mem;
use std::snapshot::Snapshot;

/// What one worker holds of the resources: the values that nodes lent to it may change, and a share
/// of each starting value, to be looked at where such a node holds the key for READ. All trays of a
/// world share these.
///
/// Contracts see the plan and the world that it was made for, the nodes that are lent to it, the
/// values that were moved into it, each with its history, and the frames that were handed to it.
pub struct Tray<'a> {
    plan: &'a Plan,
    world: &'a World,
    /// Whether it is the flat map of a run, which has every value though no node is lent to it.
    flat: bool,
    lent: LentNodes<'a>,
    values: Slots,
    /// The keys with their starting values, by key number.
    starts: Starts,
    frames: Vec<Frame>,
    /// The class whose frames it has, where they are known to be those of its plan and world.
    handed: Option<u32>,
    /// Where frames are gathered before they are handed.
    spare: Vec<Frame>,
}

impl<'a> Drop for Tray<'a> {
    fn drop(self) {
        let Tray {
            plan: _,
            world: _,
            flat: _,
            lent: _,
            values: _,
            starts: _,
            frames: _,
            handed: _,
            spare: _,
        } = self;
    }
}

impl<'a> Model for Tray<'a> {
    ghost use Rattle.std.specs.Prelude.{◌≡◌, length, vec_capacity};
    ghost use Rattle.iso_plan.specs.KeyTable.{keys};
    ghost use Rattle.iso_plan.specs.RowView.{tree_of};
    ghost use Rattle.iso_locks.specs.Owners.{IsTray};
    ghost use Rattle.iso_locks.specs.Trays.{TrayView, tray_code};

    ghost Value = { TrayView };

    ghost coded = { tray_code };

    ghost view = { λ t. record {
      plan = t.plan.now;
      world = t.world.now;
      flat = t.flat;
      lent = t.lent.held;
      values = t.values;
      frames = t.frames.items;
    } };

    ghost invariant = { λ t. IsTray t.plan.now t.world.now t.flat t.lent t.values t.starts
        (vec_capacity t.frames) (vec_capacity t.spare) t.spare.items t.handed t.frames.items };
}

/// What a node's rights let it change, as it stood at one moment, to which a tray can go back.
/// Contracts see the values as they were, by the numbers of their keys.
#[derive(Drop)]
pub struct Savepoint {
    node: u32,
    /// What was kept, or nothing where the tray had no value.
    kept: Option<KeptValues>,
    /// All values as they stood. Contracts alone see them: they have no size.
    then: Snapshot<Slots>,
}

impl Model for Savepoint {
    ghost use Rattle.std.specs.Prelude.{unwrap_or};
    ghost use Rattle.iso_locks.specs.Kept.{KeepsAll};
    ghost use Rattle.iso_locks.specs.Trays.{SavepointView, savepoint_code};

    ghost Value = { SavepointView };

    ghost coded = { savepoint_code };

    ghost view = { λ m. record { node = m.node; values = unwrap_or m.kept m.then.value } };

    ghost invariant = { λ m. KeepsAll m.kept m.then.value };
}

impl<'a> Tray<'a> {
    /// A tray for a plan and a world, to which nothing is lent or handed. It takes all memory that
    /// lending, undoing, taking back and handing frames need, and copies no starting value that the
    /// world names.
    pub fn new(alloc: Global, plan: &'a Plan, world: &'a World) -> Result<Tray<'a>, AllocError>
        ensures { IfOk result (λ t. t ≡ empty_tray plan.now world.now) }
    {
        let starts = starts_of(alloc, plan, world)?;
        Tray::over(alloc, plan, world, starts)
    }

    /// Another tray for its plan and world, to which nothing is lent or handed. The two share the
    /// starting values, so that it takes the memory of `new` without these.
    pub fn another(&self, alloc: Global) -> Result<Tray<'a>, AllocError>
        ensures { IfOk result (λ t. t ≡ empty_tray self.now.plan self.now.world) }
    {
        Tray::over(alloc, self.plan, self.world, self.starts.share()?)
    }

    /// A tray over the starting values of a plan's keys.
    fn over(
        alloc: Global,
        plan: &'a Plan,
        world: &'a World,
        starts: Starts,
    ) -> Result<Tray<'a>, AllocError>
        requires { starts ≡ map (start_at world.now) (keys (tree_of plan.now)) }
        ensures { IfOk result (λ t. t ≡ empty_tray plan.now world.now) }
    {
        let count = plan.key_count() as usize;
        let depth = plan.depth();
        Ok(Tray {
            plan,
            world,
            flat: false,
            lent: LentNodes::new(alloc, plan)?,
            values: Slots::empty(alloc, count)?,
            starts,
            frames: Vec::with_capacity(alloc, depth)?,
            handed: None,
            spare: Vec::with_capacity(alloc, depth)?,
        })
    }

    /// A tray for a plan and a world that has every value, each at its start: the flat map of a
    /// run. No node is lent to it, and no frame is handed to it.
    pub fn flat(alloc: Global, plan: &'a Plan, world: &'a World) -> Result<Tray<'a>, AllocError>
        ensures plan { IfOk result (λ t. t.plan ≡ plan.now) }
        ensures world { IfOk result (λ t. t.world ≡ world.now) }
        ensures flat { IfOk result (λ t. t.flat ≡ true) }
        ensures lent { IfOk result (λ t. t.lent ≡ replicate (length plan.now.rows) false) }
        ensures frames { IfOk result (λ t. t.frames ≡ []) }
        ensures every_value { IfOk result IsFlat }
        ensures start { IfOk result (λ t. flat t ≡ started world.now) }
    {
        let mut tray = Tray::new(alloc, plan, world)?;
        tray.values = values(alloc, plan, world)?;
        tray.flat = true;
        Ok(tray)
    }

    /// The plan that it was made for.
    pub fn plan(&self) -> &'a Plan
        ensures { result.now ≡ self.now.plan }
    {
        self.plan
    }

    /// The world that it was made for.
    pub fn world(&self) -> &'a World
        ensures { result.now ≡ self.now.world }
    {
        self.world
    }

    /// Whether it was made as a flat map. Such a tray has values that no node which is lent to it
    /// takes, so that no vault's values need to be there.
    pub fn is_flat(&self) -> bool
        ensures { result ≡ self.now.flat }
    {
        self.flat
    }

    /// Whether a node was lent to it and not taken back from it.
    pub fn is_lent(&self, node: u32) -> bool
        requires { node < length self.now.plan.rows }
        ensures { result ≡ is_lent self.now.lent node }
    {
        self.lent.has(node)
    }

    /// Whether no node is lent to it.
    pub fn holds_none(&self) -> bool
        ensures { result ≡ not (any_held self.now.lent) }
    {
        self.lent.is_empty()
    }

    /// Whether a node may be lent to it beside those that are: it isn't lent to it, and clashes
    /// with none of them. It looks at the node's own locks and those of its locking node, however
    /// many nodes are lent. Takes no memory.
    pub fn can_hold(&self, node: u32) -> bool
        requires { node < length self.now.plan.rows }
        ensures holds { result ≡ true → CanHold node self.now }
        ensures refuses { CanHold node self.now → result ≡ true }
    {
        if self.is_lent(node) {
            return false;
        }
        !self.lent.clash_with(node)
    }

    /// The frames that were handed to it since the last clearing, in that order.
    pub fn frames(&self) -> &[Frame]
        ensures { result.now ≡ self.now.frames }
    {
        &self.frames
    }

    /// For a runner of one's own: hands it a frame, after those that it has. There is one for each
    /// enclosing class of a test or block, so that it has no more than the longest class chain of
    /// its plan has classes. Takes no memory.
    pub fn hand(&mut self, frame: Frame)
        requires { length self.old.frames < depth (tree_of self.old.plan) }
        ensures { self.new ≡ record self.old { frames = self.old.frames ++ frame ∷ [] } }
    {
        self.handed = None;
        self.frames.push_reserved(frame);
    }

    /// Hands it, in place of the frames that it has, those of a class and of its enclosing classes,
    /// outermost first; of the root none. It takes the memory of `Frame::share` alone,
    /// and after running out of memory it has the frames that it had.
    pub fn hand_path(&mut self, results: &Results<'_>, class: u32) -> Result<(), AllocError>
        requires plan { results.now.plan ≡ self.old.plan }
        requires node { class < length self.old.plan.rows }
        requires class { is_test (row_at (tree_of self.old.plan) class).kind ≡ false }
        requires opened { AreOpened results.now (path (tree_of self.old.plan) class) }
        ensures ok { OnOk result (self.new
            ≡ record self.old { frames = frames_on results.now class }) }
        ensures err { OnErr result (self.new ≡ self.old) }
    {
        laws::nodes_are_a_tree(self.plan);
        results.share_frames(class, &mut self.spare)?;
        self.handed = None;
        mem::swap(&mut self.frames, &mut self.spare);
        self.spare.clear();
        Ok(())
    }

    /// As `hand_path`, for results of its own starting values. Where it was handed the frames of
    /// this class last, it has them still, and nothing is shared: all tests of a class begin with
    /// the same.
    pub fn hand_own_path(&mut self, results: &Results<'_>, class: u32) -> Result<(), AllocError>
        requires plan { results.now.plan ≡ self.old.plan }
        requires start { results.now.start ≡ self.old.world }
        requires node { class < length self.old.plan.rows }
        requires class { is_test (row_at (tree_of self.old.plan) class).kind ≡ false }
        requires opened { AreOpened results.now (path (tree_of self.old.plan) class) }
        ensures ok { OnOk result (self.new
            ≡ record self.old { frames = frames_on results.now class }) }
        ensures err { OnErr result (self.new ≡ self.old) }
    {
        match self.handed {
            Some(handed) if handed == class => Ok(()),
            _ => {
                self.hand_path(results, class)?;
                self.handed = Some(class);
                Ok(())
            }
        }
    }

    /// For a runner of one's own: lets go of all frames that were handed to it. Takes no memory.
    pub fn clear_frames(&mut self)
        ensures { self.new ≡ record self.old { frames = [] } }
    {
        self.handed = None;
        self.frames.clear();
    }

    /// Keeps the values that a node's rights let it change, as they stand now. It costs what was
    /// changed of them, however many there are.
    pub fn mark(&self, alloc: Global, node: u32) -> Result<Savepoint, AllocError>
        requires { node < length self.now.plan.rows }
        ensures { IfOk result (λ m. m ≡ marked self.now node) }
    {
        let then = Snapshot::of(&self.values);
        if self.values.has_none() {
            return Ok(Savepoint {
                node,
                kept: None,
                then,
            });
        }
        let starts = self.starts.share()?;
        let kept = KeptValues::of(alloc, self.plan.rights(node), starts, &self.values)?;
        Ok(Savepoint {
            node,
            kept: Some(kept),
            then,
        })
    }

    /// Lets the values that were kept stand as they stood then, and leaves all others. The tray has
    /// gone back to no earlier mark of these values since. Takes no memory.
    pub fn undo(&mut self, mark: Savepoint)
        requires { CanUndo mark self.old }
        ensures { self.new ≡ undone mark self.old }
    {
        go_back(&mut self.values, mark);
    }

    /// What a tray keeps of its values and the nodes that are lent to it.
    pub(crate) fn keep_owners(&self)
        ensures owned { AreOwned (tree_of self.now.plan) self.now.flat self.now.lent
            self.now.values }
        ensures lent { length self.now.lent ≡ length self.now.plan.rows }
    {
        let _lent = &self.lent;
    }

    /// Holds a node from now on, with the values that its locks for READ_WRITE are on; `moves`
    /// tells what is known of these.
    pub(crate) fn receive(&mut self, node: u32, taken: &[Lock], moves: Moves, home: &mut Slots)
        requires node { node < length self.old.plan.rows }
        requires home { length home.old ≡ length (keys (tree_of self.old.plan)) }
        requires taken { taken.now ≡ locks (tree_of self.old.plan) node }
        requires nothing { moves ≡ Nothing → list_any is_write taken.now ≡ false }
        requires all { moves ≡ AllButFirst → AreAllButFirst (length home.old) taken.now }
        requires there { (i : ℕ) → is_written (locks (tree_of self.old.plan) node) i ≡ true
            → is_some (slot home.old i) ≡ true }
        requires apart { is_lent self.old.lent node ≡ false }
        requires beside { (m : ℕ) → is_lent self.old.lent m ≡ true
            → clash (tree_of self.old.plan) m node ≡ false }
        ensures holds { is_lent self.new.lent node ≡ true }
        ensures fresh { self.old.flat ≡ false → (i : ℕ)
            → is_written (locks (tree_of self.old.plan) node) i ≡ true
            → slot self.old.values i ≡ None }
        ensures fits { length self.old.values ≡ length (keys (tree_of self.old.plan)) }
        ensures tray { self.new ≡ receiving node home.old self.old }
        ensures home { home.new ≡ moved_away (locks (tree_of self.old.plan) node) home.old }
    {
        self.lent.lend(node);
        move_values(taken, moves, home, &mut self.values);
    }

    /// Holds a node no longer. The values that its locks for READ_WRITE are on come home; `moves`
    /// tells what is known of these.
    pub(crate) fn give_back(&mut self, node: u32, taken: &[Lock], moves: Moves, home: &mut Slots)
        requires node { node < length self.old.plan.rows }
        requires home { length home.old ≡ length (keys (tree_of self.old.plan)) }
        requires taken { taken.now ≡ locks (tree_of self.old.plan) node }
        requires nothing { moves ≡ Nothing → list_any is_write taken.now ≡ false }
        requires all { moves ≡ AllButFirst → AreAllButFirst (length home.old) taken.now }
        requires holds { is_lent self.old.lent node ≡ true }
        ensures fits { length self.old.values ≡ length (keys (tree_of self.old.plan)) }
        ensures tray { self.new ≡ giving_back node self.old }
        ensures home { home.new ≡ moved_here
            (locks (tree_of self.old.plan) node) self.old.values home.old }
    {
        self.lent.take_back(node);
        move_values(taken, moves, &mut self.values, home);
    }
}

impl<'a> Touch for Tray<'a> {
    ghost use Rattle.iso_locks.specs.Trays.{IsOnward, content, has_value};
    ghost use Rattle.iso_locks.specs.Onward.{onward-further, onward-still, onward-writes};

    ghost content = { content };

    ghost writes = { has_value };

    ghost goes_on = { IsOnward };

    fn look(&self, key: ResourceKey<'_>, ask: Ask<'_>) -> Option<&str> {
        match self.plan.key_number(key) {
            Some(number) => match self.values.get(number) {
                Some(held) => held.look(ask),
                None => self.starts.get(number).value.look(ask),
            },
            None => None,
        }
    }

    fn change(&mut self, key: ResourceKey<'_>, change: Change) -> Result<(), AllocError> {
        match self.plan.key_number(key) {
            Some(number) => self.values.apply(number, change),
            None => Ok(()),
        }
    }

    ghost still = { onward-still };

    ghost further = { onward-further };

    ghost same_writes = { onward-writes };
}

/// Lets values go back to a mark of them. Takes no memory.
fn go_back(values: &mut Slots, mark: Savepoint)
    requires fits { length mark.values ≡ length values.old }
    requires later { (i : ℕ) (h : History) → slot mark.values i ≡ Some h
        → HasLater values.old i h }
    ensures { values.new ≡ restored mark.values values.old }
{
    let Savepoint {
        node: _,
        kept,
        then: _,
    } = mark;
    if let Some(kept) = kept {
        undo_unchanged(values, &kept);
        undo_changed(values, kept);
    }
}

/// Lets those values go back that were unchanged at a mark.
fn undo_unchanged(values: &mut Slots, kept: &KeptValues)
    requires fits { length kept.now ≡ length values.old }
    requires later { (i : ℕ) (h : History) → slot kept.now i ≡ Some h
        → HasLater values.old i h }
    ensures fits { length values.new ≡ length values.old }
    ensures back { (i : ℕ) → has_unchanged (slot kept.now i) ≡ true
        → slot values.new i ≡ slot kept.now i }
    ensures others { (i : ℕ) → has_unchanged (slot kept.now i) ≡ false
        → slot values.new i ≡ slot values.old i }
{
    let mut at = 0;
    'changed: while let Some(number) = values.next_changed(at) {
        if kept.has_unchanged(number) {
            values.restart(number);
        }
        at = number + 1;
    }
}

/// Lets those values go back that were changed at a mark.
fn undo_changed(values: &mut Slots, kept: KeptValues)
    requires fits { length kept ≡ length values.old }
    requires later { (i : ℕ) (h : History) → slot kept i ≡ Some h
        → HasLater values.old i h }
    requires back { (i : ℕ) → has_unchanged (slot kept i) ≡ true
        → slot values.old i ≡ slot kept i }
    ensures { values.new ≡ restored kept values.old }
{
    let mut marks = kept.into_changed();
    'marks: while let Some(changed) = marks.pop() {
        values.undo_to(changed.number, changed.mark);
    }
}
