//! Why there is no design: the rules that a source may break, the limits that it may pass, and want of memory.
ghost use Rattle.std.specs.Prelude.{◌≡◌};
ghost use Rattle.vod_design.specs.Limits.{most};

use std::alloc::AllocError;
use std::fmt;

/// There was no memory.
#[derive(Clone, Copy, PartialEq, Eq)]
pub struct Memory;

impl fmt::Display for Memory {
    fn fmt<W: fmt::Write>(&self, f: &mut fmt::Formatter<W>) -> fmt::Result {
        f.write_str("there was no memory")
    }
}

impl From<AllocError> for Memory {
    fn from(_error: AllocError) -> Memory {
        Memory
    }
}

/// A rule that each design keeps. `L` is of tokens and `G` of the grammar; the others are numbered in the order in which they are
/// judged.
#[derive(Clone, Copy, PartialEq, Eq)]
pub enum Rule {
    L,
    G,
    A1,
    A2,
    A3,
    A4,
    A5,
    A6,
    A7,
    A8,
    A9,
    A10,
    A11,
    A12,
    A13,
    A14,
    A15,
}

impl fmt::Display for Rule {
    fn fmt<W: fmt::Write>(&self, f: &mut fmt::Formatter<W>) -> fmt::Result {
        f.write_str(match self {
            Rule::L => "L",
            Rule::G => "G",
            Rule::A1 => "A1",
            Rule::A2 => "A2",
            Rule::A3 => "A3",
            Rule::A4 => "A4",
            Rule::A5 => "A5",
            Rule::A6 => "A6",
            Rule::A7 => "A7",
            Rule::A8 => "A8",
            Rule::A9 => "A9",
            Rule::A10 => "A10",
            Rule::A11 => "A11",
            Rule::A12 => "A12",
            Rule::A13 => "A13",
            Rule::A14 => "A14",
            Rule::A15 => "A15",
        })
    }
}

/// A limit of this product.
#[derive(Clone, Copy, PartialEq, Eq)]
pub enum Which {
    /// Bytes of a source.
    Source,
    /// Bytes of an identifier.
    Name,
    /// Bits of a number.
    Literal,
    /// Brackets and operators inside each other.
    Nesting,
    /// Statements inside each other.
    Statement,
    /// Functions that call each other.
    Calls,
    Modules,
    Instances,
    Signals,
    Inputs,
    /// Tokens of all instances.
    Tokens,
    /// Bits of a range or an expression.
    Width,
    /// Memory words of all instances.
    Words,
    /// Bytes of a line of a script.
    Line,
    /// Vectors of one log.
    Vectors,
    /// Bytes of a script.
    Input,
}

impl Which {
    /// The greatest number that is within the limit.
    pub fn number(self) -> u64
        ensures { result ≡ most self }
    {
        match self {
            Which::Source => 1_048_576,
            Which::Name => 1024,
            Which::Literal | Which::Nesting | Which::Statement | Which::Width => 64,
            Which::Calls => 16,
            Which::Modules => 256,
            Which::Instances => 4096,
            Which::Signals => 16_384,
            Which::Inputs => 1024,
            Which::Tokens => 16_777_216,
            Which::Words | Which::Line => 65_536,
            Which::Vectors => 4_294_967_295,
            Which::Input => 1_099_511_627_776,
        }
    }
}

impl fmt::Display for Which {
    fn fmt<W: fmt::Write>(&self, f: &mut fmt::Formatter<W>) -> fmt::Result {
        f.write_str(match self {
            Which::Source => "Source",
            Which::Name => "Name",
            Which::Literal => "Literal",
            Which::Nesting => "Nesting",
            Which::Statement => "Statement",
            Which::Calls => "Calls",
            Which::Modules => "Modules",
            Which::Instances => "Instances",
            Which::Signals => "Signals",
            Which::Inputs => "Inputs",
            Which::Tokens => "Tokens",
            Which::Width => "Width",
            Which::Words => "Words",
            Which::Line => "Line",
            Which::Vectors => "Vectors",
            Which::Input => "Input",
        })
    }
}
