//! The statements of blocks and functions, and the functions (IEEE 1364-2005, 9.2 to 9.5, 10.4).
ghost use Rattle.std.specs.Prelude.{◌≡◌};
ghost use Rattle.vod_bits.specs.Bit.{Bit};
ghost use Rattle.vod_design.specs.Values.{Values, Frame};
ghost use Rattle.vod_design.specs.Eval.{Calls};
ghost use Rattle.vod_design.specs.Run.{run};
ghost use Rattle.vod_design.specs.Source.{statement_unplaced};

use crate::{SizedExpr, Variable};
use sqlite_items::{Boxed, Items};
use std::marker::Model;
use vod_bits::Word;

/// What a part of a left side writes.
#[derive(Drop)]
pub enum PartTarget {
    /// Bits of a variable, from a place up, counted from its lowest bit.
    Bits(Variable, u8),
    /// A bit of a variable by a value: the index of its lowest bit, and the index.
    Index(Variable, u16, SizedExpr),
    /// A word of a memory by a value: the memory's number, its least index, and the index.
    Word(u32, u16, SizedExpr),
}

/// A place that a part of an assignment writes: bits of a variable from a place up, counted from its lowest bit, or a word of a
/// memory by its number and the word's place from the least index up.
#[derive(Clone, Copy)]
pub enum Target {
    Bits(Variable, Word),
    Word(u32, Word),
}

/// A part of a left side, with the place of its first token, as a byte offset in the source. It takes `width` bits of the value
/// assigned, from the place `low` up.
#[derive(Drop)]
pub struct Part {
    pub place: u32,
    pub low: u8,
    pub width: u8,
    pub target: PartTarget,
}

/// A statement. An assignment is a nonblocking one in a block and a blocking one in a function.
#[cycle(statement)]
#[derive(Drop)]
pub enum Statement {
    /// The parts of the left side, from the left, and the right side (9.2).
    Assign(Items<Part>, SizedExpr),
    /// The test, the branch taken where it is true, and the other (9.4).
    If(SizedExpr, Boxed<Statement>, Boxed<Statement>),
    /// The value, the items, and what is done where no item is equal, all compared at one size (9.5).
    Case(SizedExpr, Items<CaseItem>, Boxed<Statement>),
    /// `begin` and `end` (9.8.1).
    Begin(Items<Statement>),
    /// `;`
    Empty,
}

/// An item of a `case`, taken where one of its labels is equal to the value (9.5).
#[cycle(statement)]
#[derive(Drop)]
pub struct CaseItem {
    pub labels: Items<SizedExpr>,
    pub body: Statement,
}

/// What a statement does doesn't hang on places, whatever stands for a bit that isn't there: two statements that are equal but for
/// these do one thing.
pub fn run_forgets_places()
    ensures { (fill : Bit) (calls : Calls) (values : Values) (s t : Statement) (frame : Frame) → statement_unplaced s ≡ statement_unplaced t → run fill calls values s frame ≡ run fill calls values t frame }
{}

/// What a block or a function does, which contracts see as the statement.
#[derive(Drop)]
pub struct Body {
    statement: Statement,
}

impl Model for Body {
    ghost use Rattle.vod_design.specs.declared.statement.Statement.{Statement};

    ghost Value = { Statement };

    ghost use Rattle.vod_design.specs.contracts.statement.Statement as statements;
    ghost use Rattle.std.specs.Coded.{codes};

    ghost coded = { Prim.hlevel (codes, statements.the_row.coded) };

    ghost view = { λ b. b.statement };
}

impl Body {
    /// A body that is this statement; it takes no memory.
    pub fn new(statement: Statement) -> Body
        ensures { result ≡ statement }
    {
        Body { statement }
    }

    /// The statement.
    pub fn statement(&self) -> &Statement
        ensures { result.now ≡ self.now }
    {
        &self.statement
    }
}

/// How wide a variable is, in bits, and whether it is signed.
#[derive(Clone, Copy, PartialEq, Eq)]
pub struct Size {
    pub width: u8,
    pub signed: bool,
}

/// The inputs or the locals of a function, which contracts see as the list of their sizes.
#[derive(Drop)]
pub struct Locals {
    sizes: Vec<Size>,
}

impl Model for Locals {
    ghost use Rattle.std.specs.Prelude.{List};
    ghost use Rattle.vod_design.specs.declared.statement.Size.{Size};

    ghost Value = { List Size };

    ghost view = { λ l. l.sizes.items };
}

impl Locals {
    /// These sizes, in this order; it takes no memory.
    pub fn new(sizes: Vec<Size>) -> Locals
        ensures { result ≡ sizes.items }
    {
        Locals { sizes }
    }

    /// The sizes.
    pub fn as_slice(&self) -> &[Size]
        ensures { result.now ≡ self.now }
    {
        self.sizes.as_slice()
    }
}

/// A function of an instance: the instance's number, the size and sign of its result, its inputs, its locals and its body
/// (10.4.1). Its variables are the inputs, then the locals, then the result.
#[derive(Drop)]
pub struct Function {
    pub scope: u32,
    pub width: u8,
    pub signed: bool,
    pub inputs: Locals,
    pub locals: Locals,
    pub body: Body,
}

/// A bit of a signal, by the signal's number and the bit's place from the lowest up.
#[derive(Clone, Copy, PartialEq, Eq)]
pub struct Place {
    pub signal: u32,
    pub bit: u8,
}

/// The target of a driver, which contracts see as the list of its bits, the upper one first.
#[derive(Drop)]
pub struct Places {
    bits: Vec<Place>,
}

impl Model for Places {
    ghost use Rattle.std.specs.Prelude.{List};
    ghost use Rattle.vod_design.specs.declared.statement.Place.{Place};

    ghost Value = { List Place };

    ghost view = { λ p. p.bits.items };
}

impl Places {
    /// These bits, the upper one first; it takes no memory.
    pub fn new(bits: Vec<Place>) -> Places
        ensures { result ≡ bits.items }
    {
        Places { bits }
    }

    /// The bits.
    pub fn as_slice(&self) -> &[Place]
        ensures { result.now ≡ self.now }
    {
        self.bits.as_slice()
    }
}
