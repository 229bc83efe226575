ghost use Rattle.std.specs.Prelude.{◌≡◌, ◌∷◌, ◌++◌, [], length, take, option_map, nat_le, IfOk, IfSome, OnOk, OnErr, ◌+◌};
ghost use Rattle.std.specs.Bool.{OnTrue, OnFalse};
ghost use Rattle.iso_model.specs.declared.names.Sort.TheVariants.{Local};
ghost use Rattle.iso_model.specs.Names.{bound, binding_of, assigned, assignment, is_frozen, lent, place_of};
ghost use Rattle.iso_model.specs.Environments.{environment};

use crate::bindings::Bindings;
use crate::data::Data;
use crate::limits::{BLOCK_STEPS, OUTPUT_BYTES};
use crate::place::BlockName;
use crate::text::Text;
use std::alloc::{AllocError, Global};
use std::marker::Model;

/// Up to this number of visible names are few: they are looked up one after another.
pub const FEW_NAMES: usize = 32;

/// What a visible name stands for.
#[derive(Clone, Copy, PartialEq, Eq)]
pub enum Sort {
    /// A static of the class whose `before_all` runs, which may be assigned.
    Static,
    /// A static of an enclosing class, or of any class once its `before_all` has ended.
    Frozen,
    Field,
    Local,
}

impl Sort {
    /// Whether a name of this sort may not be assigned.
    pub fn is_frozen(self) -> bool
        ensures { result ≡ is_frozen self }
    {
        match self {
            Sort::Frozen => true,
            Sort::Static | Sort::Field | Sort::Local => false,
        }
    }
}

/// A visible name, with its value.
#[derive(Drop)]
pub struct Binding {
    pub name: Text,
    pub value: Data,
    pub sort: Sort,
}

/// A visible name with its value, lent.
#[derive(Clone, Copy)]
pub struct LentBinding<'a> {
    pub name: &'a str,
    pub value: &'a Data,
    pub sort: Sort,
}

impl<'a> LentBinding<'a> {
    /// An equal name with an equal value.
    pub fn copy(self, alloc: Global) -> Result<Binding, AllocError>
        ensures { IfOk result (λ b. b ≡ lent self.entry) }
    {
        Ok(Binding {
            name: Text::copied(alloc, self.name)?,
            value: self.value.copy(alloc)?,
            sort: self.sort,
        })
    }
}

/// Why a name can't be assigned.
#[derive(Clone, Copy, PartialEq, Eq)]
pub enum AssignFault {
    /// No such name is visible.
    UnknownName,
    /// It is a static that may not be assigned here.
    Frozen,
}

/// The environment of a block: the visible names, the steps left in the block, the bytes that its
/// body has printed so far, and the words that name the block in a place.
pub struct Names {
    bindings: Bindings,
    /// Where the name stands that was assigned last, or the first name. Unless it is shared, it is
    /// looked at before the others: most names are looked up again soon after they were assigned.
    recent: usize,
    steps: u32,
    printed: u32,
    block: BlockName,
}

impl Drop for Names {
    fn drop(self) {
        let Names {
            bindings: _,
            recent: _,
            steps: _,
            printed: _,
            block: _,
        } = self;
    }
}

impl Model for Names {
    ghost use Rattle.iso_model.specs.Environments.{Environment};
    ghost use Rattle.iso_model.specs.NamePlaces.{IsFirst};

    ghost Value = { Environment };

    ghost view = { λ n. record {
      names = n.bindings;
      steps = n.steps;
      printed = n.printed;
      block = n.block;
    } };

    ghost invariant = { λ n. IsFirst n.bindings n.recent };
}

impl Names {
    /// The environment of a block at its beginning, with all its steps left.
    pub fn new(bindings: Bindings, printed: u32, block: BlockName) -> Names
        ensures { result ≡ environment bindings printed block }
    {
        Names {
            bindings,
            recent: 0,
            steps: BLOCK_STEPS,
            printed,
            block,
        }
    }

    /// How many names are visible.
    pub fn len(&self) -> usize
        ensures { result ≡ length self.now.names }
    {
        self.bindings.len()
    }

    /// What a name stands for, or `None` where it isn't visible.
    #[inline(always)]
    pub fn get(&self, name: &str) -> Option<LentBinding<'_>>
        ensures { option_map lent result ≡ binding_of self.now.names name.now }
    {
        match self.recent_place(name) {
            Some(place) => self.bindings.at(place),
            None => self.bindings.at(self.bindings.place_of(name)),
        }
    }

    /// Where a name stands first, if it's the name that was assigned last. Callers go on by an arm
    /// of its own for it, where all is known already that is asked of a place.
    #[inline(always)]
    fn recent_place(&self, name: &str) -> Option<usize>
        ensures { IfSome result (λ place. place ≡ place_of self.now.names name.now) }
    {
        match self.bindings.own_at(self.recent) {
            Some(binding) if name == binding.name => Some(self.recent),
            _ => None,
        }
    }

    /// Makes later look-ups quick, unless few names are visible: then nothing is done, and no
    /// memory is taken. The first time it takes as long as some 50 look-ups of the last of the
    /// block's own names. Shared names were indexed when they were made.
    pub fn index(&mut self) -> Result<(), AllocError>
        ensures { self.new ≡ self.old }
    {
        if self.bindings.len() > FEW_NAMES {
            self.bindings.index()?;
        }
        Ok(())
    }

    /// A local more.
    pub fn declare(&mut self, name: Text, value: Data) -> Result<(), AllocError>
        ensures ok { OnOk result (self.new
            ≡ record self.old { names = self.old.names ++ bound Local name value ∷ [] }) }
        ensures err { OnErr result (self.new ≡ self.old) }
    {
        self.recent = 0;
        self.bindings.push(Binding {
            name,
            value,
            sort: Sort::Local,
        })
    }

    /// Drops the names past the first `count`.
    pub fn keep(&mut self, count: usize)
        ensures { self.new ≡ record self.old { names = take count self.old.names } }
    {
        self.recent = 0;
        self.bindings.keep(count);
    }

    /// Gives a visible name another value, which may be of another kind. `UnknownName` where it
    /// isn't visible, before `Frozen` where it may not be assigned. Memory is taken for a shared
    /// name alone.
    #[inline(always)]
    pub fn assign(&mut self, name: &str, value: Data) -> Result<Result<(), AssignFault>, AllocError>
        ensures answer { IfOk result (λ answer. assigned self.old.names name.now value
            ≡ assignment answer name.now self.new.names) }
        ensures rest { self.new ≡ record self.old { names = self.new.names } }
        ensures fault { IfOk result (λ answer. OnErr answer (self.new ≡ self.old)) }
        ensures err { OnErr result (self.new ≡ self.old) }
    {
        match self.recent_place(name) {
            Some(place) => self.assign_at(place, name, value),
            None => {
                let place = self.bindings.place_of(name);
                self.assign_at(place, name, value)
            }
        }
    }

    /// Gives the name that stands first at a place another value.
    #[inline(always)]
    fn assign_at(
        &mut self,
        place: usize,
        name: &str,
        value: Data,
    ) -> Result<Result<(), AssignFault>, AllocError>
        requires { place ≡ place_of self.old.names name.now }
        ensures answer { IfOk result (λ answer. assigned self.old.names name.now value
            ≡ assignment answer name.now self.new.names) }
        ensures rest { self.new ≡ record self.old { names = self.new.names } }
        ensures fault { IfOk result (λ answer. OnErr answer (self.new ≡ self.old)) }
        ensures err { OnErr result (self.new ≡ self.old) }
    {
        let Some(binding) = self.bindings.at(place) else {
            return Ok(Err(AssignFault::UnknownName));
        };
        if binding.sort.is_frozen() {
            return Ok(Err(AssignFault::Frozen));
        }
        self.bindings.set_value(place, value)?;
        self.recent = place;
        Ok(Ok(()))
    }

    /// For a runner of one's own: the steps that are left in the block.
    pub fn steps(&self) -> u32
        ensures { result ≡ self.now.steps }
    {
        self.steps
    }

    /// The words that name the block in a place.
    pub fn block(&self) -> BlockName
        ensures { result ≡ self.now.block }
    {
        self.block
    }

    /// The bytes that the body has printed so far, each line with its end.
    pub fn printed(&self) -> u32
        ensures { result ≡ self.now.printed }
    {
        self.printed
    }

    /// Counts a line of `bytes` bytes and its end, and answers whether the output has room for it.
    /// Where it hasn't, nothing is counted.
    pub fn count_line(&mut self, bytes: usize) -> bool
        ensures room { result ≡ nat_le (self.old.printed + bytes + 1) OUTPUT_BYTES }
        ensures counted { OnTrue result (self.new
            ≡ record self.old { printed = self.old.printed + bytes + 1 }) }
        ensures full { OnFalse result (self.new ≡ self.old) }
    {
        if self.printed >= OUTPUT_BYTES || bytes >= (OUTPUT_BYTES - self.printed) as usize {
            return false;
        }
        self.printed += bytes as u32 + 1;
        true
    }

    /// The visible names with their values, for the next block. Takes no memory.
    pub fn into_bindings(self) -> Bindings
        ensures { result ≡ self.names }
    {
        let Names {
            bindings,
            recent: _,
            steps: _,
            printed: _,
            block: _,
        } = self;
        bindings
    }

    /// Takes a step, and answers whether one was left.
    pub fn take_step(&mut self) -> bool
        ensures taken { OnTrue result (self.old ≡ record self.new { steps = self.new.steps + 1 }) }
        ensures none_left { OnFalse result ((self.old.steps ≡ 0) × (self.new ≡ self.old)) }
    {
        if self.steps == 0 {
            return false;
        }
        self.steps -= 1;
        true
    }
}
