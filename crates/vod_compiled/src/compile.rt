//! The steps of an expression, made from the last one to the first.
ghost use Rattle.std.specs.Prelude.{◌≡◌, ◌∷◌, [], false, suc, reverse, map, IfOk};
ghost use Rattle.vod_bits.specs.Bit.{B0};
ghost use Rattle.vod_compiled.specs.Code.{input_at, step_at, variable_source, name_source, coded, concat_steps, joined_steps, inputs_steps};

use crate::ops;
use crate::step::{Input, Op, Source, Step, push};
use std::alloc::AllocError;
use vod_bits::Bits;
use vod_design::{GateOp, Named, SizedExpr, SizedKind, Variable};

// Where the bits of a variable come from: outside functions there are none.
fn variable_source(variable: Variable) -> Source
    ensures { result ≡ variable_source variable }
{
    match variable {
        Variable::Signal(n) => Source::Signal(n),
        Variable::Local(_) => Source::Nothing,
    }
}

// Where the bits of a name come from.
fn name_source(name: Named) -> Source
    ensures { result ≡ name_source name }
{
    match name {
        Named::Variable(variable) => variable_source(variable),
        Named::Constant(bits) => constant(bits),
    }
}

// A constant.
fn constant(bits: Bits) -> Source
    ensures { result ≡ Source.Constant bits }
{
    Source::Constant(bits)
}

// Where the value of an expression is found before it takes its size: the steps put it into the first cell that they may use.
fn expr_source(e: &SizedExpr, first: usize) -> Source
    ensures { input_at result e.now.width e.now.signed ≡ (coded e.now).input first }
{
    match &e.kind {
        SizedKind::Number(bits) => Source::Constant(*bits),
        SizedKind::Name(name) => name_source(*name),
        SizedKind::Call(_, _) => Source::Nothing,
        _ => Source::Cell(first),
    }
}

// The operand that an expression is.
pub fn expr_input(e: &SizedExpr, first: usize) -> Input
    ensures { result ≡ (coded e.now).input first }
{
    Input {
        source: expr_source(e, first),
        width: e.width,
        signed: e.signed,
    }
}

// A step of an expression.
fn step(e: &SizedExpr, to: usize, op: Op) -> Step
    ensures { result ≡ step_at to e.now.width e.now.signed op }
{
    step_at(to, e.width, e.signed, op)
}

// A step.
fn step_at(to: usize, width: u8, signed: bool, op: Op) -> Step
    ensures { result ≡ step_at to width signed op }
{
    Step {
        to,
        width,
        signed,
        op,
    }
}

// The next cell. More cells than there can be are refused for want of memory.
fn next(cell: usize) -> Result<usize, AllocError>
    ensures { IfOk result (λ n. n ≡ suc cell) }
{
    match cell.checked_add(1) {
        Some(next) => Ok(next),
        None => Err(AllocError),
    }
}

// The next cell, and the one behind it.
fn two_behind(cell: usize) -> Result<(usize, usize), AllocError>
    ensures { IfOk result (λ p. (p.0 ≡ suc cell) × (p.1 ≡ suc (suc cell))) }
{
    let behind = next(cell)?;
    let third = next(behind)?;
    Ok((behind, third))
}

// Puts a step before those that there are, and before that the steps of an operand, which may use the cells from one on.
#[cycle(emit)]
fn emit_before(
    steps: &mut Vec<Step>,
    step: Step,
    operand: &SizedExpr,
    first: usize,
) -> Result<(), AllocError>
    ensures { IfOk result (λ _. reverse steps.new.items ≡ (coded operand.now).steps first (step ∷ reverse steps.old.items)) }
{
    push(steps, step)?;
    emit(steps, operand, first)?;
    Ok(())
}

// Puts the steps of an expression before those that there are; they may use the cells from one on.
#[cycle(emit)]
pub fn emit(steps: &mut Vec<Step>, e: &SizedExpr, first: usize) -> Result<(), AllocError>
    ensures { IfOk result (λ _. reverse steps.new.items ≡ (coded e.now).steps first (reverse steps.old.items)) }
{
    match &e.kind {
        SizedKind::Number(_) => Ok(()),
        SizedKind::Name(_) => Ok(()),
        SizedKind::Select(name, low, count) => {
            push(
                steps,
                step(e, first, ops::select(name_source(*name), *low, *count)),
            )?;
            Ok(())
        }
        SizedKind::Index(name, least, index) => {
            let index = index.get();
            let op = ops::index(name_source(*name), *least, expr_input(index, first));
            emit_before(steps, step(e, first, op), index, first)?;
            Ok(())
        }
        SizedKind::Word(memory, place) => {
            push(steps, step(e, first, ops::word(*memory, *place)))?;
            Ok(())
        }
        SizedKind::WordIndex(memory, least, index) => {
            let index = index.get();
            let op = ops::word_index(*memory, *least, expr_input(index, first));
            emit_before(steps, step(e, first, op), index, first)?;
            Ok(())
        }
        SizedKind::Unary(op, a) => {
            let op = ops::unary(*op, expr_input(a.get(), first));
            emit_before(steps, step(e, first, op), a.get(), first)?;
            Ok(())
        }
        SizedKind::Binary(op, a, b) => {
            let second = next(first)?;
            let op = ops::binary(*op, expr_input(a.get(), first), expr_input(b.get(), second));
            emit_before(steps, step(e, first, op), b.get(), second)?;
            emit(steps, a.get(), first)?;
            Ok(())
        }
        SizedKind::Comparison(op, a, b) => {
            let second = next(first)?;
            let op = ops::comparison(*op, expr_input(a.get(), first), expr_input(b.get(), second));
            emit_before(steps, step(e, first, op), b.get(), second)?;
            emit(steps, a.get(), first)?;
            Ok(())
        }
        SizedKind::LogicalNot(a) => {
            let op = Op::LogicalNot(expr_input(a.get(), first));
            emit_before(steps, step(e, first, op), a.get(), first)?;
            Ok(())
        }
        SizedKind::Logical(op, a, b) => {
            let second = next(first)?;
            let op = ops::logical(*op, expr_input(a.get(), first), expr_input(b.get(), second));
            emit_before(steps, step(e, first, op), b.get(), second)?;
            emit(steps, a.get(), first)?;
            Ok(())
        }
        SizedKind::Reduction(op, a) => {
            let op = ops::reduction(*op, expr_input(a.get(), first));
            emit_before(steps, step(e, first, op), a.get(), first)?;
            Ok(())
        }
        SizedKind::Shift(op, a, amount) => {
            let second = next(first)?;
            let op = ops::shift(
                *op,
                expr_input(a.get(), first),
                expr_input(amount.get(), second),
            );
            emit_before(steps, step(e, first, op), amount.get(), second)?;
            emit(steps, a.get(), first)?;
            Ok(())
        }
        SizedKind::Conditional(test, a, b) => {
            let (behind, third) = two_behind(first)?;
            let end = steps.len();
            let op = ops::second_op(expr_input(test.get(), first), expr_input(b.get(), third));
            emit_before(steps, step(e, first, op), b.get(), third)?;
            let count = steps.len().saturating_sub(end);
            let end = steps.len();
            let op = ops::first_op(
                expr_input(test.get(), first),
                expr_input(a.get(), behind),
                count,
            );
            emit_before(steps, step(e, first, op), a.get(), behind)?;
            let count = steps.len().saturating_sub(end);
            let op = ops::test_op(expr_input(test.get(), first), count);
            emit_before(steps, step(e, first, op), test.get(), first)?;
            Ok(())
        }
        SizedKind::Concat(parts) => {
            emit_concat(steps, e.width, e.signed, parts.as_slice(), first)?;
            Ok(())
        }
        SizedKind::Replicate(count, a) => {
            let op = ops::replicate(*count, expr_input(a.get(), first));
            emit_before(steps, step(e, first, op), a.get(), first)?;
            Ok(())
        }
        SizedKind::Call(_, _) => Ok(()),
        SizedKind::Gate(op, inputs) => {
            push(steps, step(e, first, ops::gate_end(*op)))?;
            emit_inputs(steps, e.width, e.signed, *op, inputs.as_slice(), first)?;
            push(steps, step(e, first, ops::gate_start(*op)))?;
            Ok(())
        }
    }
}

// Puts the steps of a concatenation before those that there are.
#[cycle(emit)]
fn emit_concat(
    steps: &mut Vec<Step>,
    width: u8,
    signed: bool,
    parts: &[SizedExpr],
    first: usize,
) -> Result<(), AllocError>
    ensures { IfOk result (λ _. reverse steps.new.items ≡ concat_steps (map coded parts.now) width signed first (reverse steps.old.items)) }
{
    match parts.split_first() {
        None => {
            push(steps, step_at(first, width, signed, Op::Copy(zero())))?;
            Ok(())
        }
        Some((part, more)) => {
            emit_joined(steps, width, signed, more, first)?;
            let op = Op::Copy(expr_input(part, first));
            emit_before(steps, step_at(first, width, signed, op), part, first)?;
            Ok(())
        }
    }
}

// One bit of 0.
fn zero() -> Input
    ensures { result ≡ input_at (Source.Constant (B0 ∷ [])) 1 false }
{
    Input {
        source: Source::Constant(Bits::bit(false)),
        width: 1,
        signed: false,
    }
}

// Puts the steps that join parts to what a cell holds before those that there are.
#[cycle(emit)]
fn emit_joined(
    steps: &mut Vec<Step>,
    width: u8,
    signed: bool,
    parts: &[SizedExpr],
    first: usize,
) -> Result<(), AllocError>
    ensures { IfOk result (λ _. reverse steps.new.items ≡ joined_steps width signed first (map coded parts.now) (reverse steps.old.items)) }
{
    let second = next(first)?;
    let mut left = parts;
    while let Some((part, more)) = left.split_last() {
        let op = Op::Join(expr_input(part, second));
        emit_before(steps, step_at(first, width, signed, op), part, second)?;
        left = more;
    }
    Ok(())
}

// Puts the steps that take the inputs of a gate before those that there are.
#[cycle(emit)]
fn emit_inputs(
    steps: &mut Vec<Step>,
    width: u8,
    signed: bool,
    gate: GateOp,
    inputs: &[SizedExpr],
    first: usize,
) -> Result<(), AllocError>
    ensures { IfOk result (λ _. reverse steps.new.items ≡ inputs_steps gate width signed first (map coded inputs.now) (reverse steps.old.items)) }
{
    let second = next(first)?;
    let mut left = inputs;
    while let Some((input, more)) = left.split_last() {
        let op = ops::gate_input(gate, expr_input(input, second));
        emit_before(steps, step_at(first, width, signed, op), input, second)?;
        left = more;
    }
    Ok(())
}
