//! The tokens of a source (IEEE 1364-2005, clause 3): the source is cut at its longest tokens, or refused at its first fault.
#![tactic(auto)]

ghost use Rattle.std.specs.Prelude.{◌≡◌};

mod bytes;
mod cut;
mod directive;
mod layout;
mod lexeme;
mod nesting;
mod number;
mod reserved;
pub mod spellings;
mod symbol;
mod value;

pub use bytes::is_white;
pub use cut::{one_form, one_reading, tokens};
pub use lexeme::{longest_token, one_token};
pub use nesting::first_too_deep;
use std::alloc::{AllocError, AllocFailed};
use std::fmt;
pub use value::{Literal, literal_of, one_literal};

/// A stretch of the source that is one token: `source[start..end]`.
#[derive(Clone, Copy, PartialEq, Eq)]
pub struct Token {
    pub kind: TokenKind,
    pub start: u32,
    pub end: u32,
}

/// What a token is; its spelling is its stretch of the source.
#[derive(Clone, Copy, PartialEq, Eq)]
pub enum TokenKind {
    /// An identifier (IEEE 1364-2005, 3.7).
    Name,
    /// A reserved word (Annex B).
    Reserved,
    /// A plain or a based number (3.5.1).
    Number,
    /// `` `timescale `` with its two times, or `` `default_nettype `` with its net type (clause 19).
    Directive,
    /// An operator, or a mark such as `;`.
    Symbol,
}

/// Why a source is refused, with the place of the token in bytes.
#[derive(Clone, Copy, PartialEq, Eq)]
pub enum LexFault {
    /// The bytes hold no token there.
    At(u32),
    /// An identifier has more than 1,024 bytes.
    Name(u32),
    /// The size of a based number, or the value of its digits, is past `LITERAL_BITS` bits.
    Literal(u32),
    /// The nesting is past `NESTING` from this token on.
    Nesting(u32),
    /// Memory ran out.
    Memory,
}

/// The greatest size of a based number, and how many bits the value of its digits may need.
pub const LITERAL_BITS: u32 = 64;

/// The greatest nesting of brackets and operators.
pub const NESTING: u32 = 64;

impl fmt::Display for LexFault {
    fn fmt<W: fmt::Write>(&self, f: &mut fmt::Formatter<W>) -> fmt::Result {
        match self {
            LexFault::At(place) => write!(f, "no token begins at byte {place}"),
            LexFault::Name(place) => write!(f, "a name is longer than 1,024 bytes at byte {place}"),
            LexFault::Literal(place) => write!(
                f,
                "a number needs more than 64 bits at byte {place}"
            ),
            LexFault::Nesting(place) => write!(
                f,
                "brackets and operators are nested past 64 at byte {place}"
            ),
            LexFault::Memory => write!(f, "out of memory"),
        }
    }
}

impl From<AllocError> for LexFault {
    ghost use Rattle.vod_token.specs.declared.LexFault.TheVariants.{Memory};

    ghost from_gives = { λ _ e. e ≡ Memory };

    fn from(_: AllocError) -> LexFault {
        LexFault::Memory
    }
}

impl<T: Drop> From<AllocFailed<T>> for LexFault {
    ghost use Rattle.vod_token.specs.declared.LexFault.TheVariants.{Memory};

    ghost from_gives = { λ _ e. e ≡ Memory };

    fn from(_: AllocFailed<T>) -> LexFault {
        LexFault::Memory
    }
}
