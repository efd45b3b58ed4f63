//! Bounds of ranges and of memories.
ghost use Rattle.std.specs.Prelude.{◌≡◌, [], ◌∷◌, nat_lt, if◌then◌else◌, MatchResult, IfOk};
ghost use Rattle.vod_operand.specs.declared.fault.Fault.TheVariants.{Width};
ghost use Rattle.vod_operand.specs.Operands.{Looked, first};
ghost use Rattle.vod_width.specs.Sizes.{selected, or_zero, in_wrong_order};
ghost use Rattle.vod_width.specs.Refusals.{Refused, refusal_of};
ghost use Rattle.vod_constants.specs.Found.{IsSize};
ghost use Rattle.vod_constants.specs.Constants.{IsBound, span_faults, vector_span, vector_faults, memory_words, memory_faults};

use crate::number::{Bound, find_bound};
use std::alloc::Global;
use vod_bits::{WIDTH, Word};
use vod_operand::{Fault, fault_if, join};
use vod_tree::Range;
use vod_width::{Decls, WidthFault};

/// What the range of a net, a variable or a parameter declares: how many bits, from 1 to 64, and the index of the lowest (4.3).
#[derive(Clone, Copy, PartialEq, Eq)]
pub struct Span {
    pub width: u8,
    pub lsb: u16,
}

/// The least and the greatest index of a memory (4.9).
#[derive(Clone, Copy, PartialEq, Eq)]
pub struct Words {
    pub low: u16,
    pub high: u16,
}

// How many bits a range has, none where a bound is missing or the first is below the second.
fn selected(msb: Option<u16>, lsb: Option<u16>) -> u32
    ensures { result ≡ selected msb lsb }
{
    match msb {
        None => 0,
        Some(msb) => match lsb {
            None => 0,
            Some(lsb) => {
                if lsb <= msb {
                    u32::from(msb - lsb) + 1
                } else {
                    0
                }
            }
        },
    }
}

// Whether the bounds are in the wrong order.
fn in_wrong_order(msb: Option<Word>, lsb: Option<Word>) -> bool
    ensures { result ≡ in_wrong_order msb lsb }
{
    match msb {
        None => false,
        Some(msb) => match lsb {
            None => false,
            Some(lsb) => msb < lsb,
        },
    }
}

// That a range has too many bits, where it has.
fn width_fault(count: u32, place: u32) -> Option<Fault>
    ensures { result ≡ first (if nat_lt WIDTH count then Width place ∷ [] else []) }
{
    if count > u32::from(WIDTH) {
        Some(Fault::Width(place))
    } else {
        None
    }
}

// The first fault of two bounds that are a range.
fn span_fault(a: Bound, b: Bound, place: u32) -> Option<Fault>
    ensures { (x y : Looked) → x.place ≡ place → IsBound a x → IsBound b y → result ≡ first (span_faults x y) }
{
    let order = fault_if(in_wrong_order(a.natural, b.natural), place);
    let wide = width_fault(selected(a.index, b.index), place);
    join(join(join(a.fault, b.fault), order), wide)
}

// A number, or 0.
fn or_zero(index: Option<u16>) -> u16
    ensures { result ≡ or_zero index }
{
    match index {
        Some(n) => n,
        None => 0,
    }
}

/// A fault as a refusal.
pub(crate) fn refusal(fault: Fault) -> WidthFault
    ensures { result ≡ refusal_of fault }
{
    match fault {
        Fault::Rule(place) => WidthFault::Rule { place },
        Fault::Width(place) => WidthFault::Width { place },
        Fault::Open => WidthFault::Open,
    }
}

/// What a range declares, by what names stand for before it. The refusal is the first fault: of a bound that isn't a constant from 0 to
/// 65,535, of a first bound below the second, or of more than 64 bits, each at the first token of the bound.
pub fn vector_span(alloc: Global, range: &Range, decls: &Decls<'_>) -> Result<Span, WidthFault>
    ensures is { MatchResult result (λ s. (vector_faults decls.now range.now ≡ []) × (s ≡ vector_span decls.now range.now)) (λ f. Refused f (vector_faults decls.now range.now)) }
    ensures size { IfOk result (λ s. IsSize s.width) }
{
    let a = find_bound(alloc, &range.first, decls)?;
    let b = find_bound(alloc, &range.second, decls)?;
    match span_fault(a, b, range.first.place) {
        Some(fault) => Err(refusal(fault)),
        None => Ok(Span {
            width: selected(a.index, b.index).min(255) as u8,
            lsb: or_zero(b.index),
        }),
    }
}

/// The words that a memory has, by what names stand for before it. The refusal is the first fault, of a bound that isn't a constant from
/// 0 to 65,535, at its first token.
pub fn memory_words(alloc: Global, range: &Range, decls: &Decls<'_>) -> Result<Words, WidthFault>
    ensures { MatchResult result (λ w. (memory_faults decls.now range.now ≡ []) × (w ≡ memory_words decls.now range.now)) (λ f. Refused f (memory_faults decls.now range.now)) }
{
    let a = find_bound(alloc, &range.first, decls)?;
    let b = find_bound(alloc, &range.second, decls)?;
    match join(a.fault, b.fault) {
        Some(fault) => Err(refusal(fault)),
        None => {
            let (a, b) = (or_zero(a.index), or_zero(b.index));
            Ok(Words {
                low: a.min(b),
                high: a.max(b),
            })
        }
    }
}
