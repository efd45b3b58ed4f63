//! Declarations of parameters, ports, nets and registers (IEEE 1364-2005, clauses 4 and 12).
use crate::{Expr, Ident};
use sqlite_items::{Boxed, Items};

/// `[ expr : expr ]`: the first bound and the second; its place is that of `[`.
#[derive(Drop)]
pub struct Range {
    pub place: u32,
    pub first: Expr,
    pub second: Expr,
}

/// `NAME = expr`
#[derive(Drop)]
pub struct Setting {
    pub name: Ident,
    pub value: Expr,
}

/// `NAME`, or `NAME = expr`.
#[derive(Drop)]
pub struct Value {
    pub name: Ident,
    pub value: Option<Expr>,
}

/// The type of a parameter: `signed` or nothing, and a range (4.10.1).
#[derive(Drop)]
pub struct ParameterType {
    pub place: u32,
    pub signed: bool,
    pub range: Range,
}

/// `parameter`, a type or none, and `NAME = expr`.
#[derive(Drop)]
pub struct TypedParameter {
    pub place: u32,
    pub kind: Option<ParameterType>,
    pub setting: Setting,
}

/// A parameter of a module's header; the first is declared with its word, and one without it has the type of the one before
/// it (12.2).
#[derive(Drop)]
pub enum ParameterPort {
    Parameter(TypedParameter),
    Further(Setting),
}

/// `input` or `output`: whether `wire` and `signed` stand behind it, and its range and name.
#[derive(Drop)]
pub struct NetPort {
    pub place: u32,
    pub wire: bool,
    pub signed: bool,
    pub range: Option<Range>,
    pub name: Ident,
}

/// `output reg`: whether `signed` stands behind it, its range, its name and its initial value.
#[derive(Drop)]
pub struct RegPort {
    pub place: u32,
    pub signed: bool,
    pub range: Option<Range>,
    pub value: Value,
}

/// A port of a header that declares its ports. A further name has the kind, sign and range of the port before it (12.3.4).
#[derive(Drop)]
pub enum DeclaredPort {
    Input(Boxed<NetPort>),
    Output(Boxed<NetPort>),
    OutputReg(Boxed<RegPort>),
    Further(Ident),
    FurtherValue(Setting),
}

/// What stands behind a module's name: nothing, `( )`, names alone, or declared ports.
#[derive(Drop)]
pub enum Ports {
    Absent,
    Empty,
    Names(Items<Ident>),
    Declared(Items<DeclaredPort>),
}

/// `input` or `output` as an item of a module.
#[derive(Drop)]
pub struct NetDeclaration {
    pub wire: bool,
    pub signed: bool,
    pub range: Option<Range>,
    pub names: Items<Ident>,
}

/// `output reg` or `wire` as an item of a module.
#[derive(Drop)]
pub struct VariableDeclaration {
    pub signed: bool,
    pub range: Option<Range>,
    pub values: Items<Value>,
}

/// A register with its initial value or none, or a memory with its bounds (4.9).
#[derive(Drop)]
pub enum Register {
    Value(Value),
    Ram(Ident, Range),
}

/// `reg` as an item of a module.
#[derive(Drop)]
pub struct RegDeclaration {
    pub signed: bool,
    pub range: Option<Range>,
    pub registers: Items<Register>,
}

/// `parameter` or `localparam` as an item of a module.
#[derive(Drop)]
pub struct ParameterDeclaration {
    pub kind: Option<ParameterType>,
    pub settings: Items<Setting>,
}
