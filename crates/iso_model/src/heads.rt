ghost use Rattle.std.specs.Prelude.{◌≡◌, IfOk};
ghost use Rattle.iso_model.specs.Targets.{for_itself, is_target};

use crate::access::Access;
use crate::data::Data;
use crate::key::Key;
use crate::shared_list::SharedList;
use crate::text::Text;
use crate::tree::Stmt;
use std::alloc::AllocError;
use std::sync::Arc;

/// What a mark is for (JUnit 5, `ResourceLockTarget`).
#[derive(Clone, Copy, PartialEq, Eq)]
pub enum Target {
    /// The node on which the mark is written.
    Itself,
    /// Each child of the class on which it is written, and not the class.
    Children,
}

impl Target {
    /// Whether it is this one.
    pub fn is(self, other: Target) -> bool
        ensures { result ≡ is_target other self }
    {
        match (other, self) {
            (Target::Itself, Target::Itself) | (Target::Children, Target::Children) => true,
            (Target::Itself, Target::Children) | (Target::Children, Target::Itself) => false,
        }
    }
}

/// A declared key, how it is declared and what for.
#[derive(Drop)]
pub struct Mark {
    pub access: Access,
    pub target: Target,
    pub key: Key,
}

impl Mark {
    /// An equal mark, which shares the key.
    pub fn share(&self) -> Result<Mark, AllocError>
        ensures { IfOk result (λ m. m ≡ self.now) }
    {
        Ok(Mark {
            access: self.access,
            target: self.target,
            key: self.key.share()?,
        })
    }

    /// The same mark, for the node that has it.
    pub fn for_itself(&self) -> Result<Mark, AllocError>
        ensures { IfOk result (λ m. m ≡ for_itself self.now) }
    {
        Ok(Mark {
            access: self.access,
            target: Target::Itself,
            key: self.key.share()?,
        })
    }
}

/// A static or a field, with the literal that it begins with.
#[derive(Drop)]
pub struct Variable {
    pub name: Text,
    pub value: Data,
}

/// What a class gives to the tests under it, but for its marks. A block that isn't written is
/// empty.
#[derive(Drop)]
pub struct ClassContents {
    pub statics: Vec<Variable>,
    pub fields: Vec<Variable>,
    /// Why the class is disabled, if it is (JUnit 5, `@Disabled`).
    pub disabled: Option<Text>,
    pub before_all: Vec<Stmt>,
    pub after_all: Vec<Stmt>,
    pub before_each: Vec<Stmt>,
    pub after_each: Vec<Stmt>,
}

/// What a class gives to the tests under it. Heads with other marks share its contents.
pub struct ClassHead {
    pub marks: SharedList<Mark>,
    pub contents: Arc<ClassContents>,
}

impl Drop for ClassHead {
    fn drop(self) {
        let ClassHead {
            marks: _,
            contents: _,
        } = self;
    }
}

/// What a test itself has, but for its marks.
#[derive(Drop)]
pub struct TestContents {
    /// Why the test is disabled, if it is (JUnit 5, `@Disabled`).
    pub disabled: Option<Text>,
    pub body: Vec<Stmt>,
}

/// What a test itself has. Heads with other marks share its contents.
pub struct TestHead {
    pub marks: SharedList<Mark>,
    pub contents: Arc<TestContents>,
}

impl Drop for TestHead {
    fn drop(self) {
        let TestHead {
            marks: _,
            contents: _,
        } = self;
    }
}
