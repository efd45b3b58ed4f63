//! Which kind, sign and range the further parts of a list have.
ghost use Rattle.std.specs.Prelude.{◌≡◌, ◌<◌, Bool, length, All, IfOk};
ghost use Rattle.vod_declaration.specs.Further.{number_of, numbers_of};

use std::alloc::{AllocError, Global};
use vod_tree::{DeclaredPort, FunctionInput, ParameterPort};

/// A part of a list that has its own kind, sign and range, or those of the part before it.
pub trait Part {
    ghost own: { Self → Bool };

    /// Whether it has its own.
    fn has_own(&self) -> bool
        ensures { result ≡ own self.now };
}

impl Part for DeclaredPort {
    ghost use Rattle.vod_declaration.specs.Further.{port_has_own};

    ghost own = { port_has_own };

    fn has_own(&self) -> bool {
        match self {
            DeclaredPort::Input(_) | DeclaredPort::Output(_) | DeclaredPort::OutputReg(_) => true,
            DeclaredPort::Further(_) | DeclaredPort::FurtherValue(_) => false,
        }
    }
}

impl Part for ParameterPort {
    ghost use Rattle.vod_declaration.specs.Further.{parameter_has_own};

    ghost own = { parameter_has_own };

    fn has_own(&self) -> bool {
        match self {
            ParameterPort::Parameter(_) => true,
            ParameterPort::Further(_) => false,
        }
    }
}

impl Part for FunctionInput {
    ghost use Rattle.vod_declaration.specs.Further.{input_has_own};

    ghost own = { input_has_own };

    fn has_own(&self) -> bool {
        match self {
            FunctionInput::Port(_) => true,
            FunctionInput::Further(_) => false,
        }
    }
}

/// For each part of a header's list (its ports, the parameters of a module, the inputs of a function) the number of the part whose
/// kind, sign and range it has: its own number, or what the part before it has. The first part has its own.
#[tactic(auto, using(crate::proofs::Numbers::each_below, crate::proofs::Numbers::as_many))]
pub fn declared_by<P: Part>(alloc: Global, parts: &[P]) -> Result<Vec<usize>, AllocError>
    ensures number { IfOk result (λ numbers. numbers.items ≡ numbers_of P.own parts.now) }
    ensures count { IfOk result (λ numbers. length numbers.items ≡ length parts.now) }
    ensures within { IfOk result (λ numbers. All (λ n. n < length parts.now) numbers.items) }
{
    let numbers = all_numbers(alloc, parts)?;
    Ok(numbers)
}

// The same, of which the rest follows.
fn all_numbers<P: Part>(alloc: Global, parts: &[P]) -> Result<Vec<usize>, AllocError>
    ensures { IfOk result (λ numbers. numbers.items ≡ numbers_of P.own parts.now) }
{
    let mut numbers = Vec::new(alloc);
    let mut before = 0;
    for here in 0..parts.len() {
        before = number_of(parts[here].has_own(), here, before);
        numbers.push(before)?;
    }
    Ok(numbers)
}

// The number of a part that has its own, or that of the part before it.
fn number_of(own: bool, here: usize, before: usize) -> usize
    ensures { result ≡ number_of own here before }
{
    if own { here } else { before }
}
