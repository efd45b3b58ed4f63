//! The parts of a flat design. Signals, memories, drivers, blocks and functions are numbered from 0, each by instance and then by
//! place in the source.
ghost use Rattle.std.specs.Prelude.{◌≡◌};

use crate::{Body, Class, Places, SizedExpr};
use std::marker::Model;
use vod_bits::Bits;

/// A name of the source, which contracts see as its bytes.
#[derive(Drop)]
pub struct Name {
    bytes: Vec<u8>,
}

impl Model for Name {
    ghost use Rattle.std.specs.Prelude.{List, ℕ};

    ghost Value = { List ℕ };

    ghost view = { λ n. n.bytes.items };
}

impl Name {
    /// A name of these bytes; it takes no memory.
    pub fn new(bytes: Vec<u8>) -> Name
        ensures { result ≡ bytes.items }
    {
        Name { bytes }
    }

    /// The bytes.
    pub fn as_slice(&self) -> &[u8]
        ensures { result.now ≡ self.now }
    {
        self.bytes.as_slice()
    }
}

/// A net or a register of an instance: its width in bits, the index of its lowest bit, and whether it was declared with a range
/// (IEEE 1364-2005, 4.2, 4.3).
#[derive(Drop)]
pub struct Signal {
    pub name: Name,
    pub scope: u32,
    pub width: u8,
    pub lsb: u16,
    pub ranged: bool,
    pub register: bool,
}

/// An input port of the top module: the number of its signal, and what it is for.
#[derive(Clone, Copy)]
pub struct Input {
    pub signal: u32,
    pub class: Class,
}

/// A continuous assignment, a net's declared value, an output of a gate or the connection of a port, and the place of its first
/// token in the source (6.1, 7.2, 12.3.9).
#[derive(Drop)]
pub struct Driver {
    pub target: Places,
    pub value: SizedExpr,
    pub place: u32,
}

/// An edge that a block waits for (9.7.2).
#[derive(Clone, Copy, PartialEq, Eq)]
pub struct Edge {
    pub signal: u32,
    pub rising: bool,
}

/// An `always` block of an instance (9.9.2).
#[derive(Drop)]
pub struct Block {
    pub clock: Edge,
    pub reset: Option<Edge>,
    pub body: Body,
}

/// A memory of an instance: the width of its words, its least index, and how many words it has (4.9).
#[derive(Drop)]
pub struct Ram {
    pub name: Name,
    pub scope: u32,
    pub width: u8,
    pub low: u16,
    pub words: u32,
}

/// What an initial assignment writes: a register by its signal, or a word by its memory and its place from the least index up.
#[derive(Clone, Copy, PartialEq, Eq)]
pub enum InitialTarget {
    Register(u32),
    Word(u32, u32),
}

/// An assignment of a known value at time 0 (6.2.1, 9.9.1).
#[derive(Clone, Copy)]
pub struct InitialAssign {
    pub target: InitialTarget,
    pub value: Bits,
}

/// The assignments of an initial item in the order in which they are made, which contracts see as their list.
#[derive(Drop)]
pub struct Assigns {
    assigns: Vec<InitialAssign>,
}

impl Model for Assigns {
    ghost use Rattle.std.specs.Prelude.{List};
    ghost use Rattle.vod_design.specs.declared.parts.InitialAssign.{InitialAssign};

    ghost Value = { List InitialAssign };

    ghost view = { λ a. a.assigns.items };
}

impl Assigns {
    /// These assignments, in this order; it takes no memory.
    pub fn new(assigns: Vec<InitialAssign>) -> Assigns
        ensures { result ≡ assigns.items }
    {
        Assigns { assigns }
    }

    /// The assignments.
    pub fn as_slice(&self) -> &[InitialAssign]
        ensures { result.now ≡ self.now }
    {
        self.assigns.as_slice()
    }
}

/// An `initial` of an instance, unrolled, or the value that a register was declared with.
#[derive(Drop)]
pub struct Initial {
    pub assigns: Assigns,
}

/// An instance: its name, for the top its module's, and the number of its parent. The parent comes first.
#[derive(Drop)]
pub struct Scope {
    pub name: Name,
    pub parent: Option<u32>,
}

/// A unit of time, from the second down to the femtosecond (19.8).
#[derive(Clone, Copy, PartialEq, Eq)]
pub enum Unit {
    S,
    Ms,
    Us,
    Ns,
    Ps,
    Fs,
}

/// The precision in which times count: 1, 10 or 100 of a unit (19.8).
#[derive(Clone, Copy, PartialEq, Eq)]
pub struct Precision {
    pub count: u8,
    pub unit: Unit,
}
