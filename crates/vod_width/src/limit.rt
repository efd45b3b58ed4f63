//! Parts that have to be constants, and the numbers that they stand for.
ghost use Rattle.std.specs.Prelude.{◌≡◌, ◌≤◌, ◌-◌, ◌&&◌, nat_le, nat_lt, IfOk};
ghost use Rattle.vod_operand.specs.Found.{Saw, SeesAs};
ghost use Rattle.vod_operand.specs.Operands.{Looked as Found, own};
ghost use Rattle.vod_width.specs.View.{allows, kept, IsNumbered};
ghost use Rattle.vod_width.specs.declared.limit.Limit.TheVariants as limits;

use crate::decls::{Vector, WordArray};
use crate::number::is_found;
use std::alloc::{AllocError, Global};
use vod_bits::Word;
use vod_operand::{Fault, Looked, both_hold, fit_own, natural, part_fault};

// What a constant part has to be.
#[derive(Clone, Copy)]
pub enum Limit {
    // Inside the range of a vector: whether it has one, its least index, and its width.
    Vector(bool, u16, u8),
    // Inside the range of a memory: its least index and its greatest.
    Ram(u16, u16),
    // Inside some range.
    SomeRange,
    // A count of at least 1.
    Count,
}

// A constant part: the number that it stands for, the same where it may be that, whether the part is constant, and its first fault.
#[derive(Clone, Copy)]
pub struct Numbered {
    pub natural: Option<Word>,
    pub number: Option<Word>,
    pub constant: bool,
    pub fault: Option<Fault>,
}

fn vector_limit(ranged: bool, lsb: u16, width: u8) -> Limit
    ensures limit { result ≡ limits.Vector ranged lsb width }
    ensures small { width ≤ 255 }
{
    Limit::Vector(ranged, lsb, width)
}

fn ram_limit(low: u16, high: u16) -> Limit
    ensures limit { result ≡ limits.Ram low high }
    ensures small { high ≤ 65535 }
{
    Limit::Ram(low, high)
}

// Inside the range of a vector.
pub(crate) fn in_vector(v: &Vector) -> Limit
    ensures limit { result ≡ limits.Vector v.now.ranged v.now.lsb v.now.width }
    ensures small { v.now.width ≤ 255 }
{
    vector_limit(v.ranged, v.lsb, v.width)
}

// Inside the range of a memory.
pub(crate) fn in_ram(m: &WordArray) -> Limit
    ensures limit { result ≡ limits.Ram m.now.low m.now.high }
    ensures small { m.now.high ≤ 65535 }
{
    ram_limit(m.low, m.high)
}

// Whether a number is so many above the least one, and below a count.
fn is_above(least: u16, count: u8, n: Word) -> bool
    ensures { result ≡ (nat_le least n && nat_lt (n - least) count) }
{
    match n.checked_sub(Word::from(least)) {
        Some(above) => above < Word::from(count),
        None => false,
    }
}

// Whether a part may be this number.
fn allows(limit: Limit, n: Word) -> bool
    ensures { result ≡ allows limit n }
{
    match limit {
        Limit::Vector(ranged, lsb, width) => both_hold(ranged, is_above(lsb, width, n)),
        Limit::Ram(low, high) => both_hold(Word::from(low) <= n, n <= Word::from(high)),
        Limit::SomeRange => n <= 65535,
        Limit::Count => 0 < n,
    }
}

// The number that a part may be.
fn kept(limit: Limit, n: Option<Word>) -> Option<Word>
    ensures { result ≡ kept (allows limit) n }
{
    match n {
        Some(n) => { if allows(limit, n) { Some(n) } else { None } }
        None => None,
    }
}

// What a part is that has to be a constant within a limit.
pub(crate) fn number_within(alloc: Global, limit: Limit, x: &Looked) -> Result<Numbered, AllocError>
    ensures { IfOk result (λ p. (y : Found) → SeesAs x.now y (own y) → IsNumbered (allows limit) p y) }
{
    let natural = natural(alloc, x)?;
    let number = kept(limit, natural);
    Ok(Numbered {
        natural,
        number,
        constant: x.constant,
        fault: part_fault(x, is_found(number)),
    })
}

// The same of a part that has no size as yet.
pub(crate) fn own_number_within(
    alloc: Global,
    limit: Limit,
    x: Looked,
) -> Result<Numbered, AllocError>
    ensures { IfOk result (λ p. (y : Found) → Saw x y → IsNumbered (allows limit) p y) }
{
    let x = fit_own(alloc, x)?;
    number_within(alloc, limit, &x)
}
