//! Gates and instances of modules (IEEE 1364-2005, clauses 7 and 12).
use crate::{Expr, Ident};
use sqlite_items::Items;

/// What a gate computes (7.2, 7.3).
#[derive(Clone, Copy, PartialEq, Eq)]
pub enum GateKind {
    And,
    Nand,
    Or,
    Nor,
    Xor,
    Xnor,
    Buf,
    Not,
}

/// A gate: a name or none, and its terminals.
#[derive(Drop)]
pub struct GateTerminals {
    pub place: u32,
    pub name: Option<Ident>,
    pub terminals: Items<Expr>,
}

/// Gates of one kind.
#[derive(Drop)]
pub struct Gate {
    pub kind: GateKind,
    pub gates: Items<GateTerminals>,
}

/// `. NAME ( expr )`; its place is that of the period.
#[derive(Drop)]
pub struct NamedArgument {
    pub place: u32,
    pub name: Ident,
    pub value: Expr,
}

/// The parameters of instances, by order or by name (12.2.2).
#[derive(Drop)]
pub enum Arguments {
    Ordered(Items<Expr>),
    Named(Items<NamedArgument>),
}

/// `. NAME ( expr )` or `. NAME ( )`; its place is that of the period.
#[derive(Drop)]
pub struct NamedConnection {
    pub place: u32,
    pub name: Ident,
    pub value: Option<Expr>,
}

/// The connections of an instance: none, by order or by name (12.3.5, 12.3.6).
#[derive(Drop)]
pub enum Connections {
    Empty,
    Ordered(Items<Expr>),
    Named(Items<NamedConnection>),
}

/// The name of an instance and its connections.
#[derive(Drop)]
pub struct Instance {
    pub name: Ident,
    pub connections: Connections,
}

/// The name of a module, its parameters or none, and its instances; its place is that of the module's name (12.1.2).
#[derive(Drop)]
pub struct Instances {
    pub place: u32,
    pub module: Ident,
    pub arguments: Option<Arguments>,
    pub instances: Items<Instance>,
}
