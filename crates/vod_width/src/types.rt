//! What `constant` and `own` answer, and why an expression is refused.
use std::alloc::AllocError;
use std::fmt;
use vod_bits::{Bits, WIDTH};

/// The value of a constant expression, and whether it is signed.
#[derive(Clone, Copy)]
pub struct Constant {
    pub value: Bits,
    pub signed: bool,
}

/// The size of an expression by itself, its sign, and whether it is constant.
#[derive(Clone, Copy)]
pub struct Own {
    pub width: u8,
    pub signed: bool,
    pub constant: bool,
}

/// Why an expression is refused: by the first token of the least part that is at fault, and at one place by a rule before a width.
#[derive(Clone, Copy, PartialEq, Eq)]
pub enum WidthFault {
    /// A part that has to be constant isn't, or has a value that it may not have.
    Rule { place: u32 },
    /// A part is wider than `WIDTH` bits.
    Width { place: u32 },
    /// Nothing in it has a fault of its own, but it hangs on a name whose size, range or value couldn't be formed. That was refused
    /// where it stands.
    Open,
    /// Memory ran out.
    Memory,
}

impl fmt::Display for WidthFault {
    fn fmt<W: fmt::Write>(&self, f: &mut fmt::Formatter<W>) -> fmt::Result {
        match self {
            WidthFault::Rule { place } => {
                write!(
                    f,
                    "the part at byte {place} has to be a constant, with a value that may stand there"
                )
            }
            WidthFault::Width { place } => {
                write!(f, "the part at byte {place} is wider than {WIDTH} bits")
            }
            WidthFault::Open => {
                f.write_str("a name has no size, range or value that could be formed")
            }
            WidthFault::Memory => f.write_str("memory ran out"),
        }
    }
}

impl From<AllocError> for WidthFault {
    ghost use Rattle.std.specs.Prelude.{◌≡◌};
    ghost use Rattle.vod_width.specs.declared.types.WidthFault.TheVariants.{Memory};

    ghost from_gives = { λ _ fault. fault ≡ Memory };

    fn from(_: AllocError) -> WidthFault {
        WidthFault::Memory
    }
}
