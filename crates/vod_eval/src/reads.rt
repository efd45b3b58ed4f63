//! What an expression can read, as a list.
ghost use Rattle.std.specs.Prelude.{◌≡◌, ◌∷◌, [], ◌++◌, flat_map, OnOk};
ghost use Rattle.vod_design.specs.Reads.{whole, bits, reads};

use std::alloc::AllocError;
use vod_design::{Named, Read, SizedExpr, SizedKind, Variable};

/// Adds what an expression can read to a list, from the left.
#[cycle(reads)]
pub fn add_reads(e: &SizedExpr, list: &mut Vec<Read>) -> Result<(), AllocError>
    ensures { OnOk result (list.new.items ≡ list.old.items ++ reads e.now) }
{
    match &e.kind {
        SizedKind::Number(_) => Ok(()),
        SizedKind::Name(name) => add_whole(*name, list),
        SizedKind::Select(name, low, width) => add_bits(*name, *low, *width, list),
        SizedKind::Index(name, _, index) => {
            add_whole(*name, list)?;
            add_reads(index.get(), list)
        }
        SizedKind::Word(memory, place) => add(Read::Word(memory.number, *place), list),
        SizedKind::WordIndex(memory, _, index) => {
            add(Read::Ram(memory.number), list)?;
            add_reads(index.get(), list)
        }
        SizedKind::Unary(_, a) => add_reads(a.get(), list),
        SizedKind::Binary(_, a, b) => {
            add_reads(a.get(), list)?;
            add_reads(b.get(), list)
        }
        SizedKind::Comparison(_, a, b) => {
            add_reads(a.get(), list)?;
            add_reads(b.get(), list)
        }
        SizedKind::LogicalNot(a) => add_reads(a.get(), list),
        SizedKind::Logical(_, a, b) => {
            add_reads(a.get(), list)?;
            add_reads(b.get(), list)
        }
        SizedKind::Reduction(_, a) => add_reads(a.get(), list),
        SizedKind::Shift(_, a, amount) => {
            add_reads(a.get(), list)?;
            add_reads(amount.get(), list)
        }
        SizedKind::Conditional(test, a, b) => {
            add_reads(test.get(), list)?;
            add_reads(a.get(), list)?;
            add_reads(b.get(), list)
        }
        SizedKind::Concat(parts) => add_all_reads(parts.as_slice(), list),
        SizedKind::Replicate(_, a) => add_reads(a.get(), list),
        SizedKind::Call(_, arguments) => add_all_reads(arguments.as_slice(), list),
        SizedKind::Gate(_, inputs) => add_all_reads(inputs.as_slice(), list),
    }
}

// The same of several expressions.
#[cycle(reads)]
fn add_all_reads(exprs: &[SizedExpr], list: &mut Vec<Read>) -> Result<(), AllocError>
    ensures { OnOk result (list.new.items ≡ list.old.items ++ flat_map reads exprs.now) }
{
    for e in exprs {
        add_reads(e, list)?;
    }
    Ok(())
}

// The whole value of what a name stands for.
fn add_whole(name: Named, list: &mut Vec<Read>) -> Result<(), AllocError>
    ensures { OnOk result (list.new.items ≡ list.old.items ++ whole name) }
{
    match name {
        Named::Variable(Variable::Signal(n)) => add(Read::Whole(n), list),
        Named::Variable(Variable::Local(_)) | Named::Constant(_) => Ok(()),
    }
}

// Bits of it.
fn add_bits(name: Named, low: u8, width: u8, list: &mut Vec<Read>) -> Result<(), AllocError>
    ensures { OnOk result (list.new.items ≡ list.old.items ++ bits name low width) }
{
    match name {
        Named::Variable(Variable::Signal(n)) => add(Read::Bits(n, low, width), list),
        Named::Variable(Variable::Local(_)) | Named::Constant(_) => Ok(()),
    }
}

fn add(read: Read, list: &mut Vec<Read>) -> Result<(), AllocError>
    ensures { OnOk result (list.new.items ≡ list.old.items ++ read ∷ []) }
{
    list.push(read)?;
    Ok(())
}
