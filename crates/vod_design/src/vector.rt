//! Vectors: the timed assignments of inputs that drive a run, and which lists of them are lawful.
ghost use Rattle.std.specs.Prelude.{◌≡◌, ◌↔◌, List, [], ◌∷◌, ◌++◌};
ghost use Rattle.vod_design.specs.declared.vector.Vector.{Vector};
ghost use Rattle.vod_design.specs.Lawful.{Port, IsLawful, IsNext};

use std::marker::Model;
use vod_bits::Bits;

/// What an input is for: blocks wait for edges of clocks and resets, and read data.
#[derive(Clone, Copy, PartialEq, Eq)]
pub enum Class {
    Clock,
    Reset,
    Data,
}

/// An assignment of a known value to an input, by its number among the inputs.
#[derive(Clone, Copy)]
pub struct Move {
    pub input: u32,
    pub value: Bits,
}

/// The assignments of a vector, which contracts see as their list.
#[derive(Drop)]
pub struct Moves {
    moves: Vec<Move>,
}

impl Model for Moves {
    ghost use Rattle.std.specs.Prelude.{List};
    ghost use Rattle.vod_design.specs.declared.vector.Move.{Move};

    ghost Value = { List Move };

    ghost view = { λ m. m.moves.items };
}

impl Moves {
    /// These assignments, in this order; it takes no memory.
    pub fn new(moves: Vec<Move>) -> Moves
        ensures { result ≡ moves.items }
    {
        Moves { moves }
    }

    /// The assignments.
    pub fn as_slice(&self) -> &[Move]
        ensures { result.now ≡ self.now }
    {
        self.moves.as_slice()
    }
}

/// A timed list of assignments, in units of the dump's precision.
#[derive(Drop)]
pub struct Vector {
    pub time: u64,
    pub moves: Moves,
}

/// One more vector makes lawful vectors of lawful ones exactly where it is in form and later, opens a run where it is the first,
/// and mixes no classes.
pub fn one_more_is_lawful()
    ensures { (ports : List Port) (vectors : List Vector) (next : Vector) → IsLawful ports (vectors ++ next ∷ []) ↔ (IsLawful ports vectors × IsNext ports vectors next) }
{}
