//! Assignments and statements (IEEE 1364-2005, clauses 6 and 9).
use crate::{Expr, Ident, Number};
use sqlite_items::{Boxed, Items};

/// A left side and the place of its first token.
#[cycle(lval)]
#[derive(Drop)]
pub struct Lval {
    pub place: u32,
    pub kind: LvalKind,
}

/// The alternatives of a left side.
#[cycle(lval)]
#[derive(Drop)]
pub enum LvalKind {
    Name(Ident),
    /// `NAME [ expr ]`
    Index(Ident, Expr),
    /// `NAME [ expr : expr ]`
    Range(Ident, Expr, Expr),
    /// `{ lval, .. }`
    Concat(Items<Lval>),
}

/// `lval = expr` of a continuous assignment (6.1).
#[derive(Drop)]
pub struct Assignment {
    pub target: Lval,
    pub value: Expr,
}

/// A statement of an `always` or a function, and the place of its first token.
#[cycle(statement)]
#[derive(Drop)]
pub struct Statement {
    pub place: u32,
    pub kind: StatementKind,
}

/// The alternatives of a statement. A nonblocking assignment stands in an `always` alone and a blocking one in a function alone.
#[cycle(statement)]
#[derive(Drop)]
pub enum StatementKind {
    /// `lval <= expr ;` (9.2.2).
    Nonblocking(Boxed<Lval>, Expr),
    /// `lval = expr ;` (9.2.1).
    Blocking(Boxed<Lval>, Expr),
    /// The test, the branch that is taken where it is true, and the other (9.4).
    If(Expr, Boxed<Statement>, Option<Boxed<Statement>>),
    /// The value and the items (9.5).
    Case(Expr, Items<CaseItem>),
    /// `begin` and `end`, with a name or none (9.8.1).
    Block(Option<Ident>, Items<Statement>),
    /// `;`
    Empty,
}

/// An item of a `case`.
#[cycle(statement)]
#[derive(Drop)]
pub struct CaseItem {
    pub place: u32,
    pub label: CaseLabel,
    pub body: Statement,
}

/// What an item of a `case` is taken at.
#[derive(Drop)]
pub enum CaseLabel {
    Values(Items<Expr>),
    Default,
}

/// The edge of an event (9.7.2).
#[derive(Clone, Copy, PartialEq, Eq)]
pub enum Edge {
    Posedge,
    Negedge,
}

/// `posedge NAME` or `negedge NAME`
#[derive(Drop)]
pub struct Event {
    pub place: u32,
    pub edge: Edge,
    pub name: Ident,
}

/// `or` or `,` between two events.
#[derive(Clone, Copy, PartialEq, Eq)]
pub enum Separator {
    Or,
    Comma,
}

/// A second event, and what stands before it.
#[derive(Drop)]
pub struct SecondEvent {
    pub separator: Separator,
    pub event: Event,
}

/// `always @ ( .. ) statement`; its place is that of `always` (9.9.2).
#[derive(Drop)]
pub struct Always {
    pub place: u32,
    pub event: Event,
    pub second: Option<SecondEvent>,
    pub body: Statement,
}

/// A statement of an `initial`, and the place of its first token (9.9.1).
#[cycle(initial)]
#[derive(Drop)]
pub struct InitialStatement {
    pub place: u32,
    pub kind: InitialKind,
}

/// The alternatives of a statement of an `initial`.
#[cycle(initial)]
#[derive(Drop)]
pub enum InitialKind {
    /// `NAME = expr ;`
    Assign(Ident, Expr),
    /// `NAME [ expr ] = expr ;`
    AssignIndex(Ident, Expr, Expr),
    For(ForLoop),
    /// `begin` and `end`, with a name or none.
    Block(Option<Ident>, Items<InitialStatement>),
}

/// `for ( NAME = expr ; NAME < expr ; NAME = NAME + Number ) statement` (9.6).
#[cycle(initial)]
#[derive(Drop)]
pub struct ForLoop {
    pub index: Ident,
    pub start: Expr,
    pub tested: Ident,
    /// Whether the test is `<=` in place of `<`.
    pub inclusive: bool,
    pub bound: Expr,
    pub stepped: Ident,
    pub from: Ident,
    pub step: Number,
    pub body: Boxed<InitialStatement>,
}
