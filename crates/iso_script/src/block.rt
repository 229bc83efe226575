//! Lifecycle blocks.
ghost use Rattle.std.specs.Prelude.{◌≡◌, is_some};
ghost use Rattle.iso_script.specs.Blocks.{IsBlocks, block_if, block_next, block_of, block_word, blocks_of, with_block};
ghost use Rattle.iso_script.specs.Places.{class_place, line_if};
ghost use Rattle.iso_script.specs.Wants.{after_blocks, are_none};
ghost use Rattle.iso_script_statements.specs.Parsing.{Parses};

use crate::place::{BlockLine, BlockLines, LifecycleLines, NodePlace};
use iso_model::place::Lifecycle;
use iso_model::tree::Stmt;
use iso_script_lexer::symbol::Symbol;
use iso_script_lexer::token::{Position, Token};
use iso_script_lexer::word::Word;
use iso_script_statements::fault::{ScriptError, ScriptFaultKind};
use iso_script_statements::parser::Parser;
use iso_script_statements::wanted::Wanted;

/// A lifecycle block: the line of its opening brace, and its statements.
#[derive(Drop)]
pub(crate) struct Block {
    pub line: u32,
    pub body: Vec<Stmt>,
}

/// The lifecycle blocks of a class. One that is not written is none, and differs from an empty one.
#[derive(Drop)]
pub(crate) struct Blocks {
    pub before_all: Option<Block>,
    pub after_all: Option<Block>,
    pub before_each: Option<Block>,
    pub after_each: Option<Block>,
}

impl Blocks {
    /// Whether the class has a block of this kind.
    fn has(&self, kind: Lifecycle) -> bool
        ensures { result ≡ is_some (blocks_of self.now kind) }
    {
        match kind {
            Lifecycle::BeforeAll => self.before_all.is_some(),
            Lifecycle::AfterAll => self.after_all.is_some(),
            Lifecycle::BeforeEach => self.before_each.is_some(),
            Lifecycle::AfterEach => self.after_each.is_some(),
        }
    }

    /// The place of a class that has these blocks, whose name stands at this position.
    pub(crate) fn place(&self, name: Position) -> NodePlace
        ensures { result ≡ class_place name (blocks_of self.now) }
    {
        NodePlace {
            name,
            blocks: BlockLines::Class(LifecycleLines {
                before_all: line_if(&self.before_all),
                after_all: line_if(&self.after_all),
                before_each: line_if(&self.before_each),
                after_each: line_if(&self.after_each),
            }),
        }
    }

    /// Whether none is written.
    fn are_none(&self) -> bool
        ensures { result ≡ are_none (blocks_of self.now) }
    {
        self.before_all.is_none()
            && self.after_all.is_none()
            && self.before_each.is_none()
            && self.after_each.is_none()
    }

    /// What is wanted after these blocks, where no member is next.
    pub(crate) fn wanted_next(&self) -> Wanted
        ensures { result ≡ after_blocks (blocks_of self.now) }
    {
        if self.are_none() {
            Wanted::ClassPart
        } else {
            Wanted::BlockOrMember
        }
    }

    /// Adds a block of this kind.
    fn put(&mut self, kind: Lifecycle, block: Block)
        ensures { blocks_of self.new ≡ with_block kind (block_of block) (blocks_of self.old) }
    {
        match kind {
            Lifecycle::BeforeAll => self.before_all = Some(block),
            Lifecycle::AfterAll => self.after_all = Some(block),
            Lifecycle::BeforeEach => self.before_each = Some(block),
            Lifecycle::AfterEach => self.after_each = Some(block),
        }
    }
}

/// The line of a block, where it is written.
fn line_if(block: &Option<Block>) -> BlockLine
    ensures { result ≡ line_if (block_if block.now) }
{
    let number = match block {
        Some(block) => block.line,
        None => 0,
    };
    BlockLine { number }
}

/// What lifecycle block a word begins.
fn block_word(word: Word) -> Option<Lifecycle>
    ensures { result ≡ block_word word }
{
    match word {
        Word::BeforeAll => Some(Lifecycle::BeforeAll),
        Word::AfterAll => Some(Lifecycle::AfterAll),
        Word::BeforeEach => Some(Lifecycle::BeforeEach),
        Word::AfterEach => Some(Lifecycle::AfterEach),
        _ => None,
    }
}

/// What lifecycle block the word that is next begins.
fn block_next(parser: &Parser<'_>) -> Option<Lifecycle>
    ensures { result ≡ block_next parser.now.lexer }
{
    match parser.lexer.peek().0 {
        Token::Word(word) => block_word(word),
        _ => None,
    }
}

/// The lifecycle blocks that come next. A second one of a kind is `DoubleBlock`, at its word.
pub(crate) fn read_blocks(parser: &mut Parser<'_>) -> Result<Blocks, ScriptError>
    ensures { Parses blocks_of IsBlocks result parser.old.lexer parser.new.lexer }
{
    let mut blocks = Blocks {
        before_all: None,
        after_all: None,
        before_each: None,
        after_each: None,
    };
    'written: while let Some(kind) = block_next(parser) {
        if blocks.has(kind) {
            return Err(parser.fault_here(ScriptFaultKind::DoubleBlock));
        }
        parser.lexer.advance();
        let line = parser.lexer.peek().1.line;
        let body = parser.block(Wanted::Symbol(Symbol::OpenBrace))?;
        blocks.put(kind, Block { line, body });
    }
    Ok(blocks)
}
