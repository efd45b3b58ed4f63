//! Functions, modules and whole sources (IEEE 1364-2005, clauses 10, 12 and 19).
ghost use Rattle.std.specs.Prelude.{◌≡◌, ◌*◌, ◌^◌};
ghost use Rattle.vod_tree.specs.Times.{count_number, count_exponent, per_second, time_exponent, unit_exponent};

use crate::{
    Always, Assignment, Gate, Ident, InitialStatement, Instances, NetDeclaration,
    ParameterDeclaration, ParameterPort, Ports, Range, RegDeclaration, Statement,
    VariableDeclaration,
};
use sqlite_items::{Boxed, Items};

/// `input` in the header of a function: whether `signed` stands behind it, its range and its name.
#[derive(Drop)]
pub struct FunctionPort {
    pub place: u32,
    pub signed: bool,
    pub range: Option<Range>,
    pub name: Ident,
}

/// An input in the header of a function. A further name has the sign and range of the input before it.
#[derive(Drop)]
pub enum FunctionInput {
    Port(FunctionPort),
    Further(Ident),
}

/// Inputs or locals that a function declares behind its header.
#[derive(Drop)]
pub struct FunctionVariables {
    pub place: u32,
    pub signed: bool,
    pub range: Option<Range>,
    pub names: Items<Ident>,
}

/// `input` or `reg` in a function.
#[derive(Drop)]
pub enum FunctionDeclaration {
    Input(FunctionVariables),
    Reg(FunctionVariables),
}

/// A function: its result's sign and range, its name, the inputs of its header, if it has one, what it declares, and its
/// statement; its place is that of `function` (10.4.1).
#[derive(Drop)]
pub struct Function {
    pub place: u32,
    pub automatic: bool,
    pub signed: bool,
    pub range: Option<Range>,
    pub name: Ident,
    pub inputs: Option<Items<FunctionInput>>,
    pub declarations: Items<FunctionDeclaration>,
    pub body: Statement,
}

/// An item of a module, and the place of its first token.
#[derive(Drop)]
pub struct Item {
    pub place: u32,
    pub kind: ItemKind,
}

/// The alternatives of an item.
#[derive(Drop)]
pub enum ItemKind {
    Input(NetDeclaration),
    Output(NetDeclaration),
    OutputReg(VariableDeclaration),
    Wire(VariableDeclaration),
    Reg(RegDeclaration),
    Integer(Items<Ident>),
    Parameter(ParameterDeclaration),
    Localparam(ParameterDeclaration),
    Assign(Items<Assignment>),
    Gate(Gate),
    Instances(Instances),
    Function(Boxed<Function>),
    Initial(Boxed<InitialStatement>),
    Always(Boxed<Always>),
}

/// A module: its name, the parameters of its header, its ports and its items (12.1).
#[derive(Drop)]
pub struct Module {
    pub place: u32,
    pub name: Ident,
    /// None where no `#` stands behind the name.
    pub parameters: Option<Items<ParameterPort>>,
    pub ports: Ports,
    pub items: Items<Item>,
    /// How many tokens it has, from `module` to `endmodule`, both counted.
    pub tokens: u32,
}

/// The count of a time (19.8).
#[derive(Clone, Copy, PartialEq, Eq)]
pub enum TimeCount {
    One,
    Ten,
    Hundred,
}

/// The unit of a time: `s`, `ms`, `us`, `ns`, `ps` or `fs`.
#[derive(Clone, Copy, PartialEq, Eq)]
pub enum TimeUnit {
    S,
    Ms,
    Us,
    Ns,
    Ps,
    Fs,
}

impl TimeCount {
    /// The power of ten that it is: 0, 1 or 2.
    pub fn exponent(self) -> u8
        ensures is { result ≡ count_exponent self }
        ensures power { 10 ^ result ≡ count_number self }
    {
        match self {
            TimeCount::One => 0,
            TimeCount::Ten => 1,
            TimeCount::Hundred => 2,
        }
    }
}

impl TimeUnit {
    /// By how many powers of ten it is shorter than a second: 0, 3, 6, 9, 12 or 15.
    pub fn exponent(self) -> u8
        ensures is { result ≡ unit_exponent self }
        ensures power { 10 ^ result ≡ per_second self }
    {
        match self {
            TimeUnit::S => 0,
            TimeUnit::Ms => 3,
            TimeUnit::Us => 6,
            TimeUnit::Ns => 9,
            TimeUnit::Ps => 12,
            TimeUnit::Fs => 15,
        }
    }
}

/// A time, as `10 ns`.
#[derive(Clone, Copy, PartialEq, Eq)]
pub struct Time {
    pub count: TimeCount,
    pub unit: TimeUnit,
}

impl Time {
    /// By how many powers of ten it is shorter than 100 seconds, from 0 to 17: of two times the shorter has more.
    pub fn exponent(self) -> u8
        ensures is { result ≡ time_exponent self }
        ensures power { count_number self.count * 10 ^ result ≡ 100 * per_second self.unit }
    {
        self.unit.exponent() + (2 - self.count.exponent())
    }
}

/// What a name without declaration is: refused, or a net (19.2).
#[derive(Clone, Copy, PartialEq, Eq)]
pub enum NetType {
    None,
    Wire,
}

/// The alternatives of a directive: the unit and the precision of times, or the default type of nets.
#[derive(Clone, Copy, PartialEq, Eq)]
pub enum DirectiveKind {
    Timescale(Time, Time),
    DefaultNettype(NetType),
}

/// A directive and its place.
#[derive(Clone, Copy, PartialEq, Eq)]
pub struct Directive {
    pub place: u32,
    pub kind: DirectiveKind,
}

/// A part of a source.
#[derive(Drop)]
pub enum SourceItem {
    Directive(Directive),
    Module(Module),
}

/// A source: its directives and modules.
#[derive(Drop)]
pub struct Tree {
    pub items: Items<SourceItem>,
}
