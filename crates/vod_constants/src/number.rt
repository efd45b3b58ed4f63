//! Constant expressions as bounds.
ghost use Rattle.std.specs.Prelude.{◌≡◌, ◌&&◌, not, if◌then◌else◌, Some, None, IfOk};
ghost use Rattle.vod_bits.specs.Bit.{is_1};
ghost use Rattle.vod_bits.specs.Value.{number_of, upper_bit};
ghost use Rattle.vod_width.specs.Sizes.{look};
ghost use Rattle.vod_width.specs.Refusals.{refusal_of};
ghost use Rattle.vod_width.specs.View.{kept};
ghost use Rattle.vod_constants.specs.Constants.{IsBound, is_bound, missing};

use std::alloc::{AllocError, Global};
use vod_bits::{Bits, Word};
use vod_operand::Fault;
use vod_tree::Expr;
use vod_width::types::Constant;
use vod_width::{Decls, WidthFault, constant};

// The number that an expression stands for, where it is constant, nothing in it is at fault and it isn't negative; the same where it
// may be a bound; and its first fault as one.
#[derive(Clone, Copy)]
pub struct Bound {
    pub natural: Option<Word>,
    pub index: Option<u16>,
    pub fault: Option<Fault>,
}

// The greatest index of a range (4.3).
const GREATEST: Word = 65_535;

// The number that a known value stands for.
fn number(bits: Bits) -> Word
    ensures { result ≡ number_of bits }
{
    bits.word
}

// Whether the upper bit is set.
fn is_upper_set(bits: Bits) -> bool
    ensures { result ≡ is_1 (upper_bit bits) }
{
    bits.slice(bits.width - 1, 1).any()
}

// Whether a value of this sign is negative.
fn is_negative(bits: Bits, signed: bool) -> bool
    ensures { result ≡ (signed && is_1 (upper_bit bits)) }
{
    both_hold(signed, is_upper_set(bits))
}

// Whether both tests hold.
fn both_hold(a: bool, b: bool) -> bool
    ensures { result ≡ (a && b) }
{
    if a { b } else { false }
}

// The number of a constant that isn't negative.
fn natural(constant: Constant) -> Option<Word>
    ensures { result ≡ (if not (constant.signed && is_1 (upper_bit constant.value)) then Some (number_of constant.value) else None) }
{
    if is_negative(constant.value, constant.signed) {
        None
    } else {
        Some(number(constant.value))
    }
}

// A number that may be a bound.
fn index(natural: Option<Word>) -> Option<u16>
    ensures { result ≡ kept is_bound natural }
{
    match natural {
        Some(n) => { if n <= GREATEST { Some(n as u16) } else { None } }
        None => None,
    }
}

// That an expression is no bound, where it isn't.
fn missing(index: Option<u16>, place: u32) -> Option<Fault>
    ensures { result ≡ missing index place }
{
    match index {
        Some(_) => None,
        None => Some(Fault::Rule(place)),
    }
}

// A fault for which an expression has no value.
pub(crate) fn fault_of(refusal: WidthFault) -> Result<Fault, AllocError>
    ensures { IfOk result (λ f. refusal ≡ refusal_of f) }
{
    match refusal {
        WidthFault::Rule { place } => Ok(Fault::Rule(place)),
        WidthFault::Width { place } => Ok(Fault::Width(place)),
        WidthFault::Open => Ok(Fault::Open),
        WidthFault::Memory => Err(AllocError),
    }
}

// What an expression is as a bound.
pub(crate) fn find_bound(alloc: Global, expr: &Expr, decls: &Decls<'_>) -> Result<Bound, AllocError>
    ensures { IfOk result (λ b. IsBound b (look decls.now expr.now)) }
{
    match constant(alloc, expr, decls) {
        Ok(constant) => {
            let natural = natural(constant);
            let index = index(natural);
            let fault = missing(index, expr.place);
            Ok(Bound {
                natural,
                index,
                fault,
            })
        }
        Err(refusal) => {
            let fault = fault_of(refusal)?;
            Ok(Bound {
                natural: None,
                index: None,
                fault: Some(fault),
            })
        }
    }
}
