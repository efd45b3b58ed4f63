//! Names and numbers.
ghost use Rattle.std.specs.Prelude.{◌≡◌, ℕ, List, IfOk, bytes_eq};
ghost use Rattle.std.specs.Cmp.{partial_equiv_from_equiv};
ghost use Rattle.std.specs.Cmp.Lexicographic.{nat_list_eq_equiv};

use std::alloc::{AllocError, Global};
use std::marker::Model;

/// The bytes of an identifier, which contracts see as their list.
#[derive(Drop)]
pub struct Name {
    bytes: Vec<u8>,
}

impl Model for Name {
    ghost Value = { List ℕ };

    ghost view = { λ n. n.bytes.items };
}

impl Name {
    /// A copy of the bytes, or a refusal for want of memory.
    pub fn from_slice(alloc: Global, bytes: &[u8]) -> Result<Name, AllocError>
        ensures { IfOk result (λ name. name ≡ bytes.now) }
    {
        let bytes = Vec::from_slice(alloc, bytes)?;
        Ok(Name { bytes })
    }

    /// The bytes.
    pub fn as_slice(&self) -> &[u8]
        ensures { result.now ≡ self.now }
    {
        self.bytes.as_slice()
    }
}

/// Two names are equal where their bytes are.
impl PartialEq for Name {
    ghost eq = { bytes_eq };

    ghost laws = { partial_equiv_from_equiv nat_list_eq_equiv };

    fn eq(&self, other: &Name) -> bool {
        self.as_slice() == other.as_slice()
    }
}

impl Eq for Name {
    ghost laws = { nat_list_eq_equiv };
}

/// An identifier and its place (IEEE 1364-2005, 3.7).
#[derive(Drop)]
pub struct Ident {
    pub place: u32,
    pub name: Name,
}

/// A number (3.5.1): its size in bits, 1 to 64, whether it is signed, and its value, which is below 2^size; the upper bits of
/// digits that need more are lost.
#[derive(Clone, Copy, PartialEq, Eq)]
pub struct Number {
    pub place: u32,
    pub size: u8,
    pub signed: bool,
    pub value: u64,
}
