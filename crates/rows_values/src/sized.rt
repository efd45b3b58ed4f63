//! Rows on sized expressions that are made by hand:
//! - `word CONTEXT LEAST INDEX WORD..`: the word of a memory at an index, in a context of this size; the memory's least index
//!   is LEAST, and its words from there on are these;
//! - `constant_word CONTEXT PLACE WORD..`: the word at a constant place, likewise;
//! - `gate NAME INPUT..`: a gate over these inputs and one more, which is 0, 1, x and z in turn;
//! - `wide_gate NAME COUNT INPUT LAST`: a gate over so many inputs, of which the last is LAST and the others INPUT;
//! - `case VALUE LABELS..`: the number of the item that a `case` takes, from 1 up, or else 0. The labels of an item stand
//!   between commas, and an `s` behind its digits makes a number signed.
ghost use Rattle.std.specs.Prelude.{◌≤◌, IfOk, vec_len};
ghost use Rattle.vod_eval.specs.Room.{room_of};

use rows_digits::{named, print, truth, value, width};
use sqlite_items::{Boxed, Items};
use std::alloc::{AllocError, Global};
use std::io;
use vod_bits::Bits;
use vod_design::{
    Body, CaseItem, Function, GateOp, Locals, Named, NamedMemory, Part, PartTarget, SizedExpr,
    SizedKind, Statement, Variable,
};
use vod_eval::{Lists, call_rooms, expr_room, value_of};
use vod_four::Four;

/// The calls of such rows.
#[derive(Clone, Copy)]
pub enum Call {
    Word,
    ConstantWord,
    Gate,
    WideGate,
    Case,
}

const GATES: [(&str, GateOp); 8] = [
    ("and", GateOp::And),
    ("nand", GateOp::Nand),
    ("or", GateOp::Or),
    ("nor", GateOp::Nor),
    ("xor", GateOp::Xor),
    ("xnor", GateOp::Xnor),
    ("buf", GateOp::Buf),
    ("not", GateOp::Not),
];

/// Lets go of a part of a tree.
pub fn let_go<T: Drop>(_value: T) {}

pub fn sized(width: u8, signed: bool, kind: SizedKind) -> SizedExpr {
    SizedExpr {
        place: 0,
        width,
        signed,
        kind,
    }
}

/// The signal of a number, of so many bits.
pub fn signal(number: u32, width: u8) -> SizedExpr {
    sized(
        width,
        false,
        SizedKind::Name(Named::Variable(Variable::Signal(number))),
    )
}

/// Room for the value of an expression.
fn room(alloc: Global, functions: &[Function], e: &SizedExpr) -> Result<Vec<Four>, AllocError>
    ensures { IfOk result (λ v. room_of functions.now e.now ≤ vec_len v) }
{
    let rooms = call_rooms(alloc, functions)?;
    let count = expr_room(&rooms, e);
    let mut room = Vec::new(alloc);
    for _ in 0..count {
        room.push(truth(false))?;
    }
    Ok(room)
}

/// The values of words.
fn values(alloc: Global, digits: &[&str]) -> Result<Items<Four>, AllocError> {
    let mut values = Items::new(alloc);
    for word in digits {
        if let Some(value) = value(word) {
            values.push(value)?;
        }
    }
    Ok(values)
}

/// A memory with the number 0 that has these words.
fn memory(words: &Items<Four>) -> NamedMemory {
    let width = words.as_slice().first().map_or(1, |word| width(*word));
    NamedMemory { number: 0, width }
}

/// Prints the value of an expression.
fn print_value(
    rt: &(impl Print + AllocGlobal),
    functions: &[Function],
    signals: &[Four],
    memories: &[Items<Four>],
    e: &SizedExpr,
) -> io::Result<()> {
    let tables = Lists { signals, memories };
    let mut room = room(rt.alloc(), functions, e)?;
    print(rt, Some(value_of(functions, &tables, e, &mut room)))
}

/// The same of an expression that nothing else needs.
fn print_last(
    rt: &(impl Print + AllocGlobal),
    functions: &[Function],
    signals: &[Four],
    memories: &[Items<Four>],
    e: SizedExpr,
) -> io::Result<()> {
    let printed = print_value(rt, functions, signals, memories, &e);
    let_go(e);
    printed
}

/// A word of a memory by the one signal.
fn word(
    alloc: Global,
    context: u8,
    memory: NamedMemory,
    least: u16,
    index: u8,
) -> Result<SizedExpr, AllocError> {
    let index = Boxed::new(alloc, signal(0, index))?;
    Ok(sized(context, false, SizedKind::WordIndex(memory, least, index)))
}

/// `word`
fn print_indexed(
    rt: &(impl Print + AllocGlobal),
    context: u8,
    least: u16,
    index: Four,
    digits: &[&str],
) -> io::Result<()> {
    let words = values(rt.alloc(), digits)?;
    let memory = memory(&words);
    let memories = [words];
    match word(rt.alloc(), context, memory, least, width(index)) {
        Ok(e) => print_last(rt, &[], &[index], &memories, e),
        Err(error) => Err(error.into()),
    }
}

/// `constant_word`
fn print_constant(
    rt: &(impl Print + AllocGlobal),
    context: u8,
    place: u16,
    digits: &[&str],
) -> io::Result<()> {
    let words = values(rt.alloc(), digits)?;
    let kind = SizedKind::Word(memory(&words), place);
    let memories = [words];
    print_last(rt, &[], &[], &memories, sized(context, false, kind))
}

/// A gate over signals of one bit by their numbers.
fn gate(alloc: Global, op: GateOp, numbers: &[u32]) -> Result<SizedExpr, AllocError> {
    let mut inputs = Items::new(alloc);
    for number in numbers {
        match inputs.push(signal(*number, 1)) {
            Ok(()) => {}
            Err(error) => {
                let_go(inputs);
                return Err(error);
            }
        }
    }
    Ok(sized(1, false, SizedKind::Gate(op, inputs)))
}

/// Prints the value of a gate over signals with these values.
fn print_gate(
    rt: &(impl Print + AllocGlobal),
    op: GateOp,
    numbers: &[u32],
    signals: &[Four],
) -> io::Result<()> {
    match gate(rt.alloc(), op, numbers) {
        Ok(e) => print_last(rt, &[], signals, &[], e),
        Err(error) => Err(error.into()),
    }
}

/// The numbers from 0 to one behind those of so many words.
fn numbers(alloc: Global, digits: &[&str]) -> Result<Vec<u32>, AllocError> {
    let mut numbers = Vec::from_slice(alloc, &[0])?;
    for (number, _) in (1u32..).zip(digits) {
        numbers.push(number)?;
    }
    Ok(numbers)
}

/// Prints the value of a gate with a last input.
fn print_with(
    rt: &(impl Print + AllocGlobal),
    op: GateOp,
    digits: &[&str],
    last: Four,
) -> io::Result<()> {
    let mut signals = values(rt.alloc(), digits)?;
    signals.push(last)?;
    let numbers = numbers(rt.alloc(), digits)?;
    print_gate(rt, op, &numbers, signals.as_slice())
}

/// `gate`
fn print_gates(rt: &(impl Print + AllocGlobal), op: GateOp, digits: &[&str]) -> io::Result<()> {
    for last in ["0", "1", "x", "z"] {
        if let Some(last) = value(last) {
            print_with(rt, op, digits, last)?;
        }
    }
    Ok(())
}

/// `wide_gate`
fn print_wide(
    rt: &(impl Print + AllocGlobal),
    op: GateOp,
    count: usize,
    digits: &[&str],
) -> io::Result<()> {
    let mut numbers = Vec::new(rt.alloc());
    for _ in 1..count {
        numbers.push(0)?;
    }
    numbers.push(1)?;
    let signals = values(rt.alloc(), digits)?;
    print_gate(rt, op, &numbers, signals.as_slice())
}

/// A number as it is written, and whether it is signed.
#[derive(Clone, Copy)]
struct Numeral {
    bits: Bits,
    signed: bool,
}

/// The number that a word stands for.
fn literal(word: &str) -> Option<Numeral> {
    let (digits, signed) = match word.strip_suffix('s') {
        Some(digits) => (digits, true),
        None => (word, false),
    };
    let bits = value(digits)?.known()?;
    Some(Numeral { bits, signed })
}

fn number(literal: Numeral) -> SizedExpr {
    sized(
        literal.bits.width,
        literal.signed,
        SizedKind::Number(literal.bits),
    )
}

/// The whole result of a function of 8 bits without inputs.
fn result(alloc: Global) -> Result<Items<Part>, AllocError> {
    let mut parts = Items::new(alloc);
    parts.push(Part {
        place: 0,
        low: 0,
        width: 8,
        target: PartTarget::Bits(Variable::Local(0), 0),
    })?;
    Ok(parts)
}

/// The statement that gives the function's result a number.
fn assigned(alloc: Global, given: u8) -> Result<Boxed<Statement>, AllocError> {
    let parts = result(alloc)?;
    let literal = Numeral {
        bits: Bits {
            width: 8,
            word: u64::from(given),
        },
        signed: false,
    };
    Boxed::new(alloc, Statement::Assign(parts, number(literal)))
}

/// The labels of an item.
fn labels(alloc: Global, words: &str) -> Result<Items<SizedExpr>, AllocError> {
    let mut labels = Items::new(alloc);
    for word in words.split(',') {
        if let Some(label) = literal(word) {
            labels.push(number(label))?;
        }
    }
    Ok(labels)
}

/// An item of a `case`, which gives the result a number.
fn item(alloc: Global, given: u8, words: &str) -> Result<CaseItem, AllocError> {
    let labels = labels(alloc, words)?;
    match assigned(alloc, given) {
        Ok(body) => Ok(CaseItem {
            labels,
            body: body.into_inner(),
        }),
        Err(error) => {
            let_go(labels);
            Err(error)
        }
    }
}

/// The items of a `case`.
pub fn items(alloc: Global, words: &[&str]) -> Result<Items<CaseItem>, AllocError> {
    let mut items = Items::new(alloc);
    for (n, word) in (1u8..).zip(words) {
        match pushed(alloc, &mut items, n, word) {
            Ok(()) => {}
            Err(error) => {
                let_go(items);
                return Err(error);
            }
        }
    }
    Ok(items)
}

/// Adds an item.
fn pushed(
    alloc: Global,
    items: &mut Items<CaseItem>,
    n: u8,
    words: &str,
) -> Result<(), AllocError> {
    let item = item(alloc, n, words)?;
    items.push(item)
}

/// The `case`.
fn case(alloc: Global, tested: Numeral, words: &[&str]) -> Result<Body, AllocError> {
    let items = items(alloc, words)?;
    match assigned(alloc, 0) {
        Ok(otherwise) => Ok(Body::new(Statement::Case(number(tested), items, otherwise))),
        Err(error) => {
            let_go(items);
            Err(error)
        }
    }
}

/// A function without inputs.
fn function(alloc: Global, body: Body) -> Function {
    Function {
        scope: 0,
        width: 8,
        signed: false,
        inputs: Locals::new(Vec::new(alloc)),
        locals: Locals::new(Vec::new(alloc)),
        body,
    }
}

/// `case`
fn print_case(rt: &(impl Print + AllocGlobal), tested: Numeral, words: &[&str]) -> io::Result<()> {
    let body = match case(rt.alloc(), tested, words) {
        Ok(body) => body,
        Err(error) => return Err(error.into()),
    };
    let functions = [function(rt.alloc(), body)];
    let call = sized(8, false, SizedKind::Call(0, Items::new(rt.alloc())));
    let printed = print_last(rt, &functions, &[], &[], call);
    let_go(functions);
    printed
}

/// Prints what the words behind the call's name give.
pub fn answer(rt: &(impl Print + AllocGlobal), call: Call, words: &[&str]) -> io::Result<()> {
    match call {
        Call::Word => answer_word(rt, words),
        Call::ConstantWord => answer_constant(rt, words),
        Call::Gate => answer_gate(rt, words),
        Call::WideGate => answer_wide(rt, words),
        Call::Case => answer_case(rt, words),
    }
}

fn answer_word(rt: &(impl Print + AllocGlobal), words: &[&str]) -> io::Result<()> {
    let [context, least, index, digits @ ..] = words else {
        return print(rt, None);
    };
    match (context.parse(), least.parse(), value(index)) {
        (Ok(context), Ok(least), Some(index)) => print_indexed(rt, context, least, index, digits),
        _ => print(rt, None),
    }
}

fn answer_constant(rt: &(impl Print + AllocGlobal), words: &[&str]) -> io::Result<()> {
    let [context, place, digits @ ..] = words else {
        return print(rt, None);
    };
    match (context.parse(), place.parse()) {
        (Ok(context), Ok(place)) => print_constant(rt, context, place, digits),
        _ => print(rt, None),
    }
}

fn answer_gate(rt: &(impl Print + AllocGlobal), words: &[&str]) -> io::Result<()> {
    let [name, digits @ ..] = words else {
        return print(rt, None);
    };
    match named(name, &GATES) {
        Some(op) => print_gates(rt, op, digits),
        None => print(rt, None),
    }
}

fn answer_wide(rt: &(impl Print + AllocGlobal), words: &[&str]) -> io::Result<()> {
    let [name, count, digits @ ..] = words else {
        return print(rt, None);
    };
    match (named(name, &GATES), count.parse()) {
        (Some(op), Ok(count)) => print_wide(rt, op, count, digits),
        _ => print(rt, None),
    }
}

fn answer_case(rt: &(impl Print + AllocGlobal), words: &[&str]) -> io::Result<()> {
    let [tested, labels @ ..] = words else {
        return print(rt, None);
    };
    match literal(tested) {
        Some(tested) => print_case(rt, tested, labels),
        None => print(rt, None),
    }
}
