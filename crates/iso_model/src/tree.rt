use crate::tree_text::TreeText;

/// What joins the operands of a chain, grouped to the left.
#[derive(Clone, Copy)]
pub enum Operator {
    Add,
    Subtract,
    Multiply,
    Join,
}

/// What compares two operands.
#[derive(Clone, Copy)]
pub enum Comparison {
    Equal,
    NotEqual,
    Less,
}

/// A function of one operand.
#[derive(Clone, Copy)]
pub enum Function {
    Text,
    Len,
    Prop,
    HasProp,
    File,
    HasFile,
}

/// A statement of one expression.
#[derive(Clone, Copy)]
pub enum OneOperand {
    Print,
    Assert,
    ClearProp,
    SetLocale,
    DeleteFile,
}

/// A statement of two expressions.
#[derive(Clone, Copy)]
pub enum TwoOperands {
    /// The expected value, and the actual one.
    AssertEqual,
    SetProp,
    WriteFile,
    AppendFile,
}

/// An expression. Parentheses leave no node. Most expressions are literals and names, so what is
/// larger than they stands in a box.
#[derive(Drop)]
#[cycle(expression)]
pub enum Expr {
    Whole(i64),
    Flag(bool),
    Text(TreeText),
    Name(TreeText),
    Chain(Operator, Box<Operands>),
    Compare(Comparison, Box<Expr>, Box<Expr>),
    Call(Function, Box<Expr>),
    Locale,
}

/// The operands of a chain.
#[derive(Drop)]
#[cycle(expression)]
pub struct Operands {
    pub first: Expr,
    /// Those after an operator each.
    pub rest: Vec<Expr>,
}

/// A statement, with the row of its first token: 1 on the line of its block's opening brace.
#[derive(Drop)]
#[cycle(statement)]
pub struct Stmt {
    pub row: u32,
    pub form: Form,
}

/// The statements of a body, in order.
pub type Block = Vec<Stmt>;

/// What a statement does.
#[derive(Drop)]
#[cycle(statement)]
pub enum Form {
    Let(TreeText, Expr),
    Assign(TreeText, Expr),
    One(OneOperand, Expr),
    Two(TwoOperands, Expr, Expr),
    /// The condition, and the reason.
    Assume(Expr, TreeText),
    Fail(TreeText),
    /// The condition, and the body of an `if` without `else`, or with one that has no statement: so
    /// a box stands only where two bodies do.
    If(Expr, Vec<Stmt>),
    IfElse(Expr, Box<TwoBodies>),
    /// The number of turns, and the body.
    Repeat(Expr, Vec<Stmt>),
}

/// The bodies of an `if` with `else`.
#[derive(Drop)]
#[cycle(statement)]
pub struct TwoBodies {
    /// Where the condition holds.
    pub first: Vec<Stmt>,
    /// Where it doesn't.
    pub second: Vec<Stmt>,
}
