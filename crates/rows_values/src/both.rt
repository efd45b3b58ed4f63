//! Rows that are evaluated over known values, where each of them is known, and over values of four states:
//! - `choose TEST A B`: `TEST ? A : B`, at the width of A;
//! - `mixed A B`: `{A + B, A < B, ^A}`, at the width of A and two bits more;
//! - `select LOW COUNT VALUE`: so many bits of a value from a place up;
//! - `part LOW COUNT VALUE`: the bits of a value that a part of a left side takes;
//! - `if TEST`: 1 where an `if` takes its first branch, else 0;
//! - `item VALUE LABELS..`: the number of the item that a `case` takes, from 0 up, or none. The labels stand as in `case`;
//! - `target LEAST INDEX`: the bit that an assignment to `a[INDEX]` writes, where the lowest bit of `a` has the index LEAST, or none;
//! - `target_word LEAST INDEX`: the word that it writes of a memory, likewise.
ghost use Rattle.std.specs.Prelude.{◌≤◌, [], IfOk, length, vec_len};
ghost use Rattle.vod_eval.specs.Room.{room_of, call_room, statement_room, parts_room};

use crate::sized::{items, let_go, signal, sized};
use rows_digits::{Digits, value, width};
use sqlite_items::{Boxed, Items};
use std::alloc::{AllocError, Global};
use std::io;
use vod_bits::{Bits, Word};
use vod_design::{
    BinaryOp, ComparisonOp, Named, Part, PartTarget, ReductionOp, SizedExpr, SizedKind, Statement,
    Target, Variable,
};
use vod_eval::{
    Lists, call_rooms, expr_room, is_taken, item_taken, part_value, resolve, statement_room,
    value_of,
};
use vod_four::Four;
use vod_value::Value;

/// The calls of such rows.
#[derive(Clone, Copy)]
pub enum Call {
    Choose,
    Mixed,
    Select,
    Part,
    If,
    Item,
    Target,
    TargetWord,
}

/// Room for the value of an expression that calls nothing.
fn room<V: Value>(alloc: Global, e: &SizedExpr) -> Result<Vec<V>, AllocError>
    ensures { IfOk result (λ v. room_of [] e.now ≤ vec_len v) }
{
    let rooms = call_rooms(alloc, &[])?;
    let count = expr_room(&rooms, e);
    let mut room = Vec::new(alloc);
    for _ in 0..count {
        room.push(V::nothing())?;
    }
    Ok(room)
}

/// Room for what a statement asks that calls nothing.
fn space<V: Value>(alloc: Global, s: &Statement) -> Result<Vec<V>, AllocError>
    ensures { IfOk result (λ v. statement_room (call_room [] 0) s.now ≤ vec_len v) }
{
    let rooms = call_rooms(alloc, &[])?;
    let count = statement_room(&rooms, s);
    let mut room = Vec::new(alloc);
    for _ in 0..count {
        room.push(V::nothing())?;
    }
    Ok(room)
}

/// The value of an expression over signals.
fn value_over<V: Value>(alloc: Global, signals: &[V], e: &SizedExpr) -> Result<V, AllocError> {
    let tables = Lists {
        signals,
        memories: &[],
    };
    let mut room = room(alloc, e)?;
    Ok(value_of(&[], &tables, e, &mut room))
}

/// What a statement asks over signals: whether its test is true, the number of its item, or the place that its one part writes.
fn asked<V: Value>(signals: &[V], s: &Statement, room: &mut [V]) -> Option<Word>
    requires { statement_room (call_room [] 0) s.now ≤ length room.old }
{
    let tables = Lists {
        signals,
        memories: &[],
    };
    match s {
        Statement::If(test, _, _) => Some(Word::from(is_taken(&[], &tables, test, room))),
        Statement::Case(tested, items, _) => {
            let item = item_taken(&[], &tables, tested, items.as_slice(), room)?;
            Some(item as Word)
        }
        Statement::Assign(parts, _) => place(&tables, parts.as_slice(), room),
        _ => None,
    }
}

/// The place that one part writes.
fn place<V: Value>(tables: &Lists<'_, V>, parts: &[Part], room: &mut [V]) -> Option<Word>
    requires { parts_room [] parts.now ≤ length room.old }
{
    let mut targets = [None];
    if parts.len() <= 1 {
        resolve(&[], tables, parts, &mut targets, room);
    }
    match targets[0]? {
        Target::Bits(_, place) => Some(place),
        Target::Word(_, place) => Some(place),
    }
}

/// The same in room of its own.
fn asked_over<V: Value>(
    alloc: Global,
    signals: &[V],
    s: &Statement,
) -> Result<Option<Word>, AllocError> {
    let mut room = space(alloc, s)?;
    Ok(asked(signals, s, &mut room))
}

/// The values as known ones, none where one of them isn't known.
fn known(alloc: Global, values: &[Four]) -> Result<Option<Vec<Bits>>, AllocError> {
    let mut known = Vec::new(alloc);
    for value in values {
        match value.known() {
            Some(bits) => known.push(bits)?,
            None => return Ok(None),
        }
    }
    Ok(Some(known))
}

/// Prints the value of an expression over signals.
fn print_value(rt: &(impl Print + AllocGlobal), signals: &[Four], e: &SizedExpr) -> io::Result<()> {
    match known(rt.alloc(), signals)? {
        Some(bits) => {
            let value = value_over(rt.alloc(), &bits, e)?;
            print!(rt; " {}", Digits(Four::of(value)))?;
        }
        None => rt.print(" -")?,
    }
    let value = value_over(rt.alloc(), signals, e)?;
    print!(rt; " {}", Digits(value))
}

/// Prints a number, or that there is none.
fn print_number(rt: &impl Print, number: Option<Word>) -> io::Result<()> {
    match number {
        Some(n) => print!(rt; " {n}"),
        None => rt.print(" none"),
    }
}

/// Prints what a statement asks over signals.
fn print_asked(rt: &(impl Print + AllocGlobal), signals: &[Four], s: &Statement) -> io::Result<()> {
    match known(rt.alloc(), signals)? {
        Some(bits) => print_number(rt, asked_over(rt.alloc(), &bits, s)?)?,
        None => rt.print(" -")?,
    }
    print_number(rt, asked_over(rt.alloc(), signals, s)?)
}

/// Prints the value of an expression, and lets go of it.
fn print_last(
    rt: &(impl Print + AllocGlobal),
    signals: &[Four],
    made: Result<SizedExpr, AllocError>,
) -> io::Result<()> {
    match made {
        Ok(e) => {
            let printed = print_value(rt, signals, &e);
            let_go(e);
            printed
        }
        Err(error) => Err(error.into()),
    }
}

/// Prints what a statement asks, and lets go of it.
fn print_last_asked(
    rt: &(impl Print + AllocGlobal),
    signals: &[Four],
    made: Result<Statement, AllocError>,
) -> io::Result<()> {
    match made {
        Ok(s) => {
            let printed = print_asked(rt, signals, &s);
            let_go(s);
            printed
        }
        Err(error) => Err(error.into()),
    }
}

/// The signal of a number in a box.
fn boxed(alloc: Global, number: u32, width: u8) -> Result<Boxed<SizedExpr>, AllocError> {
    Boxed::new(alloc, signal(number, width))
}

/// `choose`
fn choose(alloc: Global, test: u8, a: u8, b: u8) -> Result<SizedExpr, AllocError> {
    let test = boxed(alloc, 0, test)?;
    match (boxed(alloc, 1, a), boxed(alloc, 2, b)) {
        (Ok(yes), Ok(no)) => Ok(sized(a, false, SizedKind::Conditional(test, yes, no))),
        _ => {
            let_go(test);
            Err(AllocError)
        }
    }
}

/// Adds an operator on the two signals.
fn push_pair(
    alloc: Global,
    parts: &mut Items<SizedExpr>,
    width: u8,
    sum: bool,
) -> Result<(), AllocError> {
    match (boxed(alloc, 0, width), boxed(alloc, 1, width)) {
        (Ok(a), Ok(b)) if sum => {
            parts.push(sized(width, false, SizedKind::Binary(BinaryOp::Add, a, b)))
        }
        (Ok(a), Ok(b)) => {
            parts.push(sized(1, false, SizedKind::Comparison(ComparisonOp::Less, a, b)))
        }
        _ => Err(AllocError),
    }
}

/// `mixed`
fn mixed(alloc: Global, width: u8) -> Result<SizedExpr, AllocError> {
    let mut parts = Items::new(alloc);
    match add_mixed(alloc, &mut parts, width) {
        Ok(()) => {
            let width = width.saturating_add(2);
            Ok(sized(width, false, SizedKind::Concat(parts)))
        }
        Err(error) => {
            let_go(parts);
            Err(error)
        }
    }
}

fn add_mixed(alloc: Global, parts: &mut Items<SizedExpr>, width: u8) -> Result<(), AllocError> {
    push_pair(alloc, parts, width, true)?;
    push_pair(alloc, parts, width, false)?;
    let a = boxed(alloc, 0, width)?;
    parts.push(sized(1, false, SizedKind::Reduction(ReductionOp::Xor, a)))
}

/// A statement that does nothing.
fn empty(alloc: Global) -> Result<Boxed<Statement>, AllocError> {
    Boxed::new(alloc, Statement::Empty)
}

/// `if`
fn decided(alloc: Global, width: u8) -> Result<Statement, AllocError> {
    match (empty(alloc), empty(alloc)) {
        (Ok(taken), Ok(other)) => Ok(Statement::If(signal(0, width), taken, other)),
        _ => Err(AllocError),
    }
}

/// `item`
fn chosen(alloc: Global, width: u8, labels: &[&str]) -> Result<Statement, AllocError> {
    let items = items(alloc, labels)?;
    match empty(alloc) {
        Ok(otherwise) => Ok(Statement::Case(signal(0, width), items, otherwise)),
        Err(error) => {
            let_go(items);
            Err(error)
        }
    }
}

/// `target` and `target_word`
fn written(alloc: Global, target: PartTarget) -> Result<Statement, AllocError> {
    let mut parts = Items::new(alloc);
    let part = Part {
        place: 0,
        low: 0,
        width: 1,
        target,
    };
    match parts.push(part) {
        Ok(()) => Ok(Statement::Assign(parts, signal(0, 1))),
        Err(error) => {
            let_go(parts);
            Err(error)
        }
    }
}

/// `part`
fn print_part(rt: &impl Print, low: u8, count: u8, value: Four) -> io::Result<()> {
    let part = Part {
        place: 0,
        low,
        width: count,
        target: PartTarget::Bits(Variable::Signal(0), 0),
    };
    match value.known() {
        Some(bits) => print!(rt; " {}", Digits(Four::of(part_value(&part, bits))))?,
        None => rt.print(" -")?,
    }
    print!(rt; " {}", Digits(part_value(&part, value)))
}

/// Prints what the words behind the call's name give.
pub fn answer(rt: &(impl Print + AllocGlobal), call: Call, words: &[&str]) -> io::Result<()> {
    match call {
        Call::Choose => answer_choose(rt, words),
        Call::Mixed => answer_mixed(rt, words),
        Call::Select => answer_bits(rt, words, false),
        Call::Part => answer_bits(rt, words, true),
        Call::If => answer_if(rt, words),
        Call::Item => answer_item(rt, words),
        Call::Target => answer_target(rt, words, false),
        Call::TargetWord => answer_target(rt, words, true),
    }
}

fn answer_choose(rt: &(impl Print + AllocGlobal), words: &[&str]) -> io::Result<()> {
    let [test, a, b] = words else {
        return rt.print(" not a row");
    };
    match (value(test), value(a), value(b)) {
        (Some(test), Some(a), Some(b)) => {
            let e = choose(rt.alloc(), width(test), width(a), width(b));
            print_last(rt, &[test, a, b], e)
        }
        _ => rt.print(" not a row"),
    }
}

fn answer_mixed(rt: &(impl Print + AllocGlobal), words: &[&str]) -> io::Result<()> {
    let [a, b] = words else {
        return rt.print(" not a row");
    };
    match (value(a), value(b)) {
        (Some(a), Some(b)) => print_last(rt, &[a, b], mixed(rt.alloc(), width(a))),
        _ => rt.print(" not a row"),
    }
}

fn answer_bits(rt: &(impl Print + AllocGlobal), words: &[&str], part: bool) -> io::Result<()> {
    let [low, count, digits] = words else {
        return rt.print(" not a row");
    };
    match (low.parse(), count.parse(), value(digits)) {
        (Ok(low), Ok(count), Some(value)) if part => print_part(rt, low, count, value),
        (Ok(low), Ok(count), Some(value)) => {
            let kind = SizedKind::Select(Named::Variable(Variable::Signal(0)), low, count);
            print_last(rt, &[value], Ok(sized(count, false, kind)))
        }
        _ => rt.print(" not a row"),
    }
}

fn answer_if(rt: &(impl Print + AllocGlobal), words: &[&str]) -> io::Result<()> {
    let [test] = words else {
        return rt.print(" not a row");
    };
    match value(test) {
        Some(test) => print_last_asked(rt, &[test], decided(rt.alloc(), width(test))),
        None => rt.print(" not a row"),
    }
}

fn answer_item(rt: &(impl Print + AllocGlobal), words: &[&str]) -> io::Result<()> {
    let [tested, labels @ ..] = words else {
        return rt.print(" not a row");
    };
    match value(tested) {
        Some(tested) => print_last_asked(rt, &[tested], chosen(rt.alloc(), width(tested), labels)),
        None => rt.print(" not a row"),
    }
}

fn answer_target(rt: &(impl Print + AllocGlobal), words: &[&str], word: bool) -> io::Result<()> {
    let [least, index] = words else {
        return rt.print(" not a row");
    };
    let (Ok(least), Some(index)) = (least.parse(), value(index)) else {
        return rt.print(" not a row");
    };
    let by = signal(0, width(index));
    let target = if word {
        PartTarget::Word(0, least, by)
    } else {
        PartTarget::Index(Variable::Signal(1), least, by)
    };
    print_last_asked(rt, &[index], written(rt.alloc(), target))
}
