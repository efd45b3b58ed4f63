//! The thin design: signals of one bit, drivers and clocked blocks over `~ & ^ |`.
ghost use Rattle.std.specs.Prelude.{◌≡◌, ℕ, ◌∷◌, ◌++◌, [], All};
ghost use Rattle.vod_thin_design.specs.Bits.{not_bit, and_bit, or_bit, xor_bit, value_at};
ghost use Rattle.vod_thin_design.specs.Expr.{value_of, reads};
ghost use Rattle.vod_thin_design.specs.declared.thin.Expr.TheVariants as e;

use sqlite_items::Boxed;
use std::marker::Model;

/// A bit of a four-state value: 0, 1, x or z (IEEE 1364-2005, 4.1).
#[derive(Clone, Copy, PartialEq, Eq)]
pub enum Bit {
    Zero,
    One,
    X,
    Z,
}

impl Bit {
    /// The operator `~`: x for x and z (IEEE 1364-2005, 5.1.10).
    pub fn not(self) -> Bit
        ensures { result ≡ not_bit self }
    {
        match self {
            Bit::Zero => Bit::One,
            Bit::One => Bit::Zero,
            Bit::X | Bit::Z => Bit::X,
        }
    }

    /// The operator `&`: 0 where one is 0, 1 where both are 1, else x (IEEE 1364-2005, 5.1.10).
    pub fn and(self, other: Bit) -> Bit
        ensures { result ≡ and_bit self other }
    {
        match self {
            Bit::Zero => Bit::Zero,
            Bit::One => other.known_or_x(),
            Bit::X | Bit::Z => other.and_x(),
        }
    }

    /// The operator `|`: 1 where one is 1, 0 where both are 0, else x (IEEE 1364-2005, 5.1.10).
    pub fn or(self, other: Bit) -> Bit
        ensures { result ≡ or_bit self other }
    {
        self.not().and(other.not()).not()
    }

    /// The operator `^`: x where one is x or z (IEEE 1364-2005, 5.1.10).
    pub fn xor(self, other: Bit) -> Bit
        ensures { result ≡ xor_bit self other }
    {
        match self {
            Bit::Zero => other.known_or_x(),
            Bit::One => other.not(),
            Bit::X | Bit::Z => Bit::X,
        }
    }

    fn known_or_x(self) -> Bit
        ensures { result ≡ and_bit Bit.One self }
    {
        match self {
            Bit::Zero => Bit::Zero,
            Bit::One => Bit::One,
            Bit::X | Bit::Z => Bit::X,
        }
    }

    fn and_x(self) -> Bit
        ensures { result ≡ and_bit Bit.X self }
    {
        match self {
            Bit::Zero => Bit::Zero,
            Bit::One | Bit::X | Bit::Z => Bit::X,
        }
    }
}

/// A name of the source, as its bytes.
#[derive(Drop)]
pub struct Name {
    bytes: Vec<u8>,
}

impl Model for Name {
    ghost use Rattle.std.specs.Prelude.{List, ℕ};

    ghost Value = { List ℕ };

    ghost view = { λ a. a.bytes.items };
}

impl Name {
    /// A name of these bytes; it takes no memory.
    pub fn new(bytes: Vec<u8>) -> Name
        ensures { result ≡ bytes.items }
    {
        Name { bytes }
    }

    pub fn as_slice(&self) -> &[u8]
        ensures { result.now ≡ self.now }
    {
        self.bytes.as_slice()
    }
}

/// A signal of one bit: a net, or a register (IEEE 1364-2005, 4.2).
#[derive(Drop)]
pub struct Signal {
    pub name: Name,
    pub register: bool,
}

/// What an input is for: blocks wait for edges of clocks and read data.
#[derive(Clone, Copy, PartialEq, Eq)]
pub enum Class {
    Clock,
    Data,
}

/// An input: the number of its signal, and its class.
#[derive(Clone, Copy)]
pub struct Input {
    pub signal: u32,
    pub class: Class,
}

/// An expression over signals, by their numbers (IEEE 1364-2005, 5.1.10).
#[derive(Drop)]
pub enum Expr {
    Signal(u32),
    /// `~`
    Not(Boxed<Expr>),
    /// `&`
    And(Boxed<Expr>, Boxed<Expr>),
    /// `^`
    Xor(Boxed<Expr>, Boxed<Expr>),
    /// `|`
    Or(Boxed<Expr>, Boxed<Expr>),
}

/// The value at a place of a list of values, x where there is none.
fn at(values: &[Bit], signal: u32) -> Bit
    ensures { result ≡ value_at values.now signal }
{
    values.get(signal as usize).copied().unwrap_or(Bit::X)
}

impl Expr {
    /// The value of the expression where the signals have these values.
    #[tactic(auto, unfolding(crate::specs::Expr::value_of))]
    pub fn value(&self, values: &[Bit]) -> Bit
        ensures { result ≡ value_of self.now (value_at values.now) }
    {
        match self {
            Expr::Signal(signal) => at(values, *signal),
            Expr::Not(a) => a.get().value(values).not(),
            Expr::And(a, b) => a.get().value(values).and(b.get().value(values)),
            Expr::Xor(a, b) => a.get().value(values).xor(b.get().value(values)),
            Expr::Or(a, b) => a.get().value(values).or(b.get().value(values)),
        }
    }
}

/// The value of an expression and the signals that it reads, by its operands.
pub fn expr_by_operands()
    ensures signal { (u : ℕ → Bit) (s : ℕ) → (value_of (e.Signal s) u ≡ u s) × (reads (e.Signal s) ≡ s ∷ []) }
    ensures inverted { (u : ℕ → Bit) (a : Expr) → (value_of (e.Not a) u ≡ not_bit (value_of a u)) × (reads (e.Not a) ≡ reads a) }
    ensures and { (u : ℕ → Bit) (a b : Expr) → (value_of (e.And a b) u ≡ and_bit (value_of a u) (value_of b u)) × (reads (e.And a b) ≡ reads a ++ reads b) }
    ensures xor { (u : ℕ → Bit) (a b : Expr) → (value_of (e.Xor a b) u ≡ xor_bit (value_of a u) (value_of b u)) × (reads (e.Xor a b) ≡ reads a ++ reads b) }
    ensures or { (u : ℕ → Bit) (a b : Expr) → (value_of (e.Or a b) u ≡ or_bit (value_of a u) (value_of b u)) × (reads (e.Or a b) ≡ reads a ++ reads b) }
{}

/// An expression's value hangs on what it reads alone.
pub fn value_hangs_on_reads()
    ensures { (e : Expr) (u v : ℕ → Bit) → All (λ s. u s ≡ v s) (reads e) → value_of e u ≡ value_of e v }
{}

/// A continuous assignment: the number of its target, and its right side (IEEE 1364-2005, 6.1).
#[derive(Drop)]
pub struct Driver {
    pub target: u32,
    pub value: Expr,
}

/// `always @(posedge clock) register <= value;` with the numbers of its signals
/// (IEEE 1364-2005, 9.2.2 and 9.9.2).
#[derive(Drop)]
pub struct Block {
    pub clock: u32,
    pub register: u32,
    pub value: Expr,
}

/// The value that a register is declared with (IEEE 1364-2005, 6.2.1).
#[derive(Clone, Copy)]
pub struct Initial {
    pub register: u32,
    pub value: Bit,
}

/// The parts of a design: a module's name, its signals by declaration, its inputs in the order of
/// the port list, its drivers and blocks by source order, and its registers' initial values by
/// declaration.
#[derive(Drop)]
pub struct Parts {
    pub name: Name,
    pub signals: Vec<Signal>,
    pub inputs: Vec<Input>,
    pub drivers: Vec<Driver>,
    pub blocks: Vec<Block>,
    pub initials: Vec<Initial>,
}

/// An accepted design: parts that keep the rules.
#[derive(Drop)]
pub struct Design {
    parts: Parts,
}

impl Model for Design {
    ghost use Rattle.vod_thin_design.specs.Netlist.{Netlist, IsAccepted, netlist_of};
    ghost use Rattle.vod_thin_design.specs.contracts.thin.Expr as e;
    ghost use Rattle.std.specs.Coded.{codes};

    ghost Value = { Netlist };

    ghost coded = { Prim.hlevel (codes, e.the_row.coded) };

    ghost view = { λ a. netlist_of a.parts };

    ghost invariant = { λ a. IsAccepted (netlist_of a.parts) };
}

impl Design {
    ghost use Rattle.vod_thin_design.specs.Netlist.{IsAccepted, netlist_of};

    /// A design of these parts, which keep its rules; it takes no memory.
    pub fn of(parts: Parts) -> Design
        requires { IsAccepted (netlist_of parts) }
        ensures { result ≡ netlist_of parts }
    {
        Design { parts }
    }

    /// The module's name.
    pub fn name(&self) -> &[u8]
        ensures { result.now ≡ self.now.name }
    {
        self.parts.name.as_slice()
    }

    /// The signals, by number.
    pub fn signals(&self) -> &[Signal]
        ensures items { result.now ≡ self.now.signals }
        ensures accepted { IsAccepted self.now }
    {
        self.parts.signals.as_slice()
    }

    /// The inputs, by number.
    pub fn inputs(&self) -> &[Input]
        ensures items { result.now ≡ self.now.inputs }
        ensures accepted { IsAccepted self.now }
    {
        self.parts.inputs.as_slice()
    }

    /// The drivers, by number: none reads what a later one, or itself, drives.
    pub fn drivers(&self) -> &[Driver]
        ensures items { result.now ≡ self.now.drivers }
        ensures accepted { IsAccepted self.now }
    {
        self.parts.drivers.as_slice()
    }

    /// The blocks, by number: no register is assigned in two of them.
    pub fn blocks(&self) -> &[Block]
        ensures items { result.now ≡ self.now.blocks }
        ensures accepted { IsAccepted self.now }
    {
        self.parts.blocks.as_slice()
    }

    /// The initial values, one for each register.
    pub fn initials(&self) -> &[Initial]
        ensures items { result.now ≡ self.now.initials }
        ensures accepted { IsAccepted self.now }
    {
        self.parts.initials.as_slice()
    }
}

/// An assignment of an input, by its number among the inputs.
#[derive(Clone, Copy)]
pub struct Move {
    pub input: u32,
    pub value: Bit,
}

/// The assignments of a vector.
#[derive(Drop)]
pub struct Moves {
    moves: Vec<Move>,
}

impl Model for Moves {
    ghost use Rattle.std.specs.Prelude.{List};
    ghost use Rattle.vod_thin_design.specs.declared.thin.Move.{Move};

    ghost Value = { List Move };

    ghost view = { λ a. a.moves.items };
}

impl Moves {
    /// These assignments; it takes no memory.
    pub fn new(moves: Vec<Move>) -> Moves
        ensures { result ≡ moves.items }
    {
        Moves { moves }
    }

    pub fn as_slice(&self) -> &[Move]
        ensures { result.now ≡ self.now }
    {
        self.moves.as_slice()
    }
}

/// A timed list of assignments, in units of the dump's precision.
#[derive(Drop)]
pub struct Vector {
    pub time: u64,
    pub moves: Moves,
}
