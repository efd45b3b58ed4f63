//! Parameters.
ghost use Rattle.std.specs.Prelude.{◌≡◌, length, Some, IfOk};
ghost use Rattle.vod_operand.specs.Operands.{first};
ghost use Rattle.vod_width.specs.Sizes.{look};
ghost use Rattle.vod_constants.specs.Constants.{parameter_of, parameter_faults, vector_span, vector_faults, untyped};
ghost use Rattle.vod_constants.specs.Found.{IsSize, IsValued, IsRanged, signed_value, chosen, typed_by};
ghost use Rattle.vod_constants.specs.declared.bounds.Span as bounds;

use crate::bounds::{Span, vector_span};
use crate::number::fault_of;
use std::alloc::{AllocError, Global};
use vod_bits::Bits;
use vod_design::Named;
use vod_operand::{Fault, join};
use vod_tree::{Expr, ParameterType, Range};
use vod_width::types::Constant;
use vod_width::{Declared, Decls, Sort, Vector, constant};

/// What an instance sets a parameter to (12.2).
#[derive(Clone, Copy)]
pub enum Given {
    /// Nothing: the parameter has the value of its declaration.
    Default,
    /// This value.
    Value(Constant),
    /// A value that couldn't be formed, and was refused where it stands.
    Open,
}

/// What a parameter stands for, and the first fault of its declaration.
#[derive(Drop)]
pub struct Formed {
    pub declared: Declared,
    pub fault: Option<Fault>,
}

// A value that was formed, or else the fault for which it wasn't.
#[derive(Clone, Copy)]
pub struct Valued {
    pub value: Option<Constant>,
    pub fault: Option<Fault>,
}

// A range that was formed, or else the fault for which it wasn't.
#[derive(Clone, Copy)]
pub struct Ranged {
    pub span: Option<Span>,
    pub fault: Option<Fault>,
}

// The value of a declaration.
fn own_value(alloc: Global, expr: &Expr, decls: &Decls<'_>) -> Result<Valued, AllocError>
    ensures { IfOk result (λ v. IsValued v (look decls.now expr.now)) }
{
    match constant(alloc, expr, decls) {
        Ok(value) => Ok(Valued {
            value: Some(value),
            fault: None,
        }),
        Err(refusal) => {
            let fault = fault_of(refusal)?;
            Ok(Valued {
                value: None,
                fault: Some(fault),
            })
        }
    }
}

// The range of a type.
fn own_range(alloc: Global, range: &Range, decls: &Decls<'_>) -> Result<Ranged, AllocError>
    ensures { IfOk result (λ r. IsRanged r (vector_faults decls.now range.now) (vector_span decls.now range.now)) }
{
    match vector_span(alloc, range, decls) {
        Ok(span) => Ok(Ranged {
            span: Some(span),
            fault: None,
        }),
        Err(refusal) => {
            let fault = fault_of(refusal)?;
            Ok(Ranged {
                span: None,
                fault: Some(fault),
            })
        }
    }
}

// The value that counts.
fn given_value(given: Given, own: Option<Constant>) -> Option<Constant>
    ensures { result ≡ chosen given own }
{
    match given {
        Given::Default => own,
        Given::Value(value) => Some(value),
        Given::Open => None,
    }
}

// How many bits a value has.
fn width(bits: Bits) -> u8
    ensures { result ≡ length bits }
{
    bits.width
}

// A parameter without a type.
fn untyped(value: Option<Constant>) -> Declared
    ensures { result ≡ untyped (signed_value value) }
{
    match value {
        Some(constant) => Declared::Vector(Vector {
            name: Named::Constant(constant.value),
            width: width(constant.value),
            signed: constant.signed,
            lsb: 0,
            ranged: true,
        }),
        None => Declared::Open(Sort::Constant),
    }
}

// A parameter with a type.
fn typed(signed: bool, span: Option<Span>, value: Option<Constant>) -> Declared
    requires { (s : bounds.Span) → span ≡ Some s → IsSize s.width }
    ensures { result ≡ typed_by signed span (signed_value value) }
{
    match (span, value) {
        (Some(span), Some(constant)) => Declared::Vector(Vector {
            name: Named::Constant(constant.value.resize(span.width, constant.signed)),
            width: span.width,
            signed,
            lsb: span.lsb,
            ranged: true,
        }),
        _ => Declared::Open(Sort::Constant),
    }
}

/// What a parameter stands for, by what names stand for before it: the value that is given, or that of its declaration. Its type and its
/// own value are judged in any case.
pub fn parameter(
    alloc: Global,
    kind: &Option<ParameterType>,
    value: &Expr,
    given: Given,
    decls: &Decls<'_>,
) -> Result<Formed, AllocError>
    ensures declared { IfOk result (λ p. p.declared ≡ parameter_of decls.now kind.now value.now given) }
    ensures fault { IfOk result (λ p. p.fault ≡ first (parameter_faults decls.now kind.now value.now)) }
{
    let own = own_value(alloc, value, decls)?;
    let value = given_value(given, own.value);
    match kind {
        None => Ok(Formed {
            declared: untyped(value),
            fault: own.fault,
        }),
        Some(kind) => {
            let range = own_range(alloc, &kind.range, decls)?;
            Ok(Formed {
                declared: typed(kind.signed, range.span, value),
                fault: join(range.fault, own.fault),
            })
        }
    }
}
