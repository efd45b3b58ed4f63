//! Expressions (IEEE 1364-2005, clause 5).
use crate::{Ident, Number};
use sqlite_items::{Boxed, Items};

/// An operator before its operand (5.1).
#[derive(Clone, Copy, PartialEq, Eq)]
pub enum UnaryOp {
    /// `-`
    Minus,
    /// `!`
    LogicalNot,
    /// `~`
    Not,
    /// `&`
    And,
    /// `~&`
    Nand,
    /// `|`
    Or,
    /// `~|`
    Nor,
    /// `^`
    Xor,
    /// `~^`
    Xnor,
    /// `^~`
    XorNot,
}

/// An operator between two operands, from the strongest on (5.1.2).
#[derive(Clone, Copy, PartialEq, Eq)]
pub enum BinaryOp {
    /// `*`
    Mul,
    /// `+`
    Add,
    /// `-`
    Sub,
    /// `<<`
    ShiftLeft,
    /// `>>`
    ShiftRight,
    /// `<<<`
    ArithmeticLeft,
    /// `>>>`
    ArithmeticRight,
    /// `<`
    Less,
    /// `<=`
    LessEqual,
    /// `>`
    Greater,
    /// `>=`
    GreaterEqual,
    /// `==`
    Equal,
    /// `!=`
    NotEqual,
    /// `===`
    CaseEqual,
    /// `!==`
    CaseNotEqual,
    /// `&`
    And,
    /// `^`
    Xor,
    /// `~^`
    Xnor,
    /// `^~`
    XorNot,
    /// `|`
    Or,
    /// `&&`
    LogicalAnd,
    /// `||`
    LogicalOr,
}

/// An expression and the place of its first token.
#[cycle(expr)]
#[derive(Drop)]
pub struct Expr {
    pub place: u32,
    pub kind: ExprKind,
}

/// The alternatives of an expression.
#[cycle(expr)]
#[derive(Drop)]
pub enum ExprKind {
    Number(Number),
    Name(Ident),
    /// `NAME [ expr ]`: a bit of a vector, or a word of a memory (5.2).
    Index(Ident, Boxed<Expr>),
    /// `NAME [ expr : expr ]` (5.2.1).
    Range(Ident, Boxed<Expr>, Boxed<Expr>),
    /// `NAME ( expr, .. )` (10.4.3).
    Call(Ident, Items<Expr>),
    /// `( expr )`
    Paren(Boxed<Expr>),
    /// `{ expr, .. }` (5.1.14).
    Concat(Items<Expr>),
    /// `{ expr { expr, .. } }` (5.1.14).
    Replicate(Boxed<Expr>, Items<Expr>),
    /// An operator before a primary.
    Unary(UnaryOp, Boxed<Expr>),
    /// The left operand and the right one.
    Binary(BinaryOp, Boxed<Expr>, Boxed<Expr>),
    /// `expr ? expr : expr` (5.1.13).
    Conditional(Boxed<Expr>, Boxed<Expr>, Boxed<Expr>),
}
