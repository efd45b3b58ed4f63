//! How much room the evaluation takes, by the formula of specs/Room: a value for each variable of a function that is called, and
//! for each index of a left side.
ghost use Rattle.std.specs.Prelude.{◌≡◌, ◌+◌, map, max, length, IfOk};
ghost use Rattle.vod_eval.specs.Room.{saturated, room_in, call_room, expr_room, statement_room, item_room_of, index_room, most, staged};

use std::alloc::{AllocError, Global};
use vod_design::{CaseItem, Function, Part, PartTarget, SizedExpr, SizedKind, Statement};

/// The room that a call of each function takes. More room than there can be is refused for want of memory.
pub fn call_rooms(alloc: Global, functions: &[Function]) -> Result<Vec<usize>, AllocError>
    ensures { IfOk result (λ rooms. room_in rooms.items ≡ call_room functions.now (length functions.now)) }
{
    let mut rooms = Vec::with_capacity(alloc, functions.len())?;
    for function in functions {
        let room = function_room(&rooms, function);
        if room == usize::MAX {
            return Err(AllocError);
        }
        rooms.push(room)?;
    }
    Ok(rooms)
}

// The room of a call of a function, given that of calls of those before it.
fn function_room(rooms: &[usize], function: &Function) -> usize
    ensures { result ≡ saturated (length function.now.inputs + length function.now.locals + 1 + statement_room (room_in rooms.now) function.now.body) }
{
    let inputs = function.inputs.as_slice().len();
    let locals = function.locals.as_slice().len();
    inputs
        .saturating_add(locals)
        .saturating_add(1)
        .saturating_add(statement_room(rooms, function.body.statement()))
}

// The room of a call of the function of a number.
fn room_at(rooms: &[usize], n: usize) -> usize
    ensures { result ≡ room_in rooms.now n }
{
    rooms.get(n).copied().unwrap_or(0)
}

/// The room of an expression, where calls of the functions take these rooms: that, or `usize::MAX` where it is more.
#[cycle(expr)]
pub fn expr_room(rooms: &[usize], e: &SizedExpr) -> usize
    ensures { result ≡ saturated (expr_room (room_in rooms.now) e.now) }
{
    match &e.kind {
        SizedKind::Number(_) => 0,
        SizedKind::Name(_) => 0,
        SizedKind::Select(_, _, _) => 0,
        SizedKind::Index(_, _, index) => expr_room(rooms, index.get()),
        SizedKind::Word(_, _) => 0,
        SizedKind::WordIndex(_, _, index) => expr_room(rooms, index.get()),
        SizedKind::Unary(_, a) => expr_room(rooms, a.get()),
        SizedKind::Binary(_, a, b) => expr_room(rooms, a.get()).max(expr_room(rooms, b.get())),
        SizedKind::Comparison(_, a, b) => expr_room(rooms, a.get()).max(expr_room(rooms, b.get())),
        SizedKind::LogicalNot(a) => expr_room(rooms, a.get()),
        SizedKind::Logical(_, a, b) => expr_room(rooms, a.get()).max(expr_room(rooms, b.get())),
        SizedKind::Reduction(_, a) => expr_room(rooms, a.get()),
        SizedKind::Shift(_, a, amount) => expr_room(rooms, a.get()).max(expr_room(
            rooms,
            amount.get(),
        )),
        SizedKind::Conditional(test, a, b) => {
            expr_room(rooms, test.get()).max(expr_room(rooms, a.get()).max(expr_room(
                rooms,
                b.get(),
            )))
        }
        SizedKind::Concat(parts) => most_room(rooms, parts.as_slice()),
        SizedKind::Replicate(_, a) => expr_room(rooms, a.get()),
        SizedKind::Call(n, arguments) => {
            staged_room(rooms, arguments.as_slice()).max(room_at(rooms, *n as usize))
        }
        SizedKind::Gate(_, inputs) => most_room(rooms, inputs.as_slice()),
    }
}

// The most room of several expressions.
#[cycle(expr)]
fn most_room(rooms: &[usize], exprs: &[SizedExpr]) -> usize
    ensures { result ≡ saturated (most (map (expr_room (room_in rooms.now)) exprs.now)) }
{
    let mut room = 0;
    for e in exprs {
        room = expr_room(rooms, e).max(room);
    }
    room
}

// The room of several expressions whose values are kept.
#[cycle(expr)]
fn staged_room(rooms: &[usize], exprs: &[SizedExpr]) -> usize
    ensures { result ≡ saturated (staged (map (expr_room (room_in rooms.now)) exprs.now)) }
{
    let mut room = 0;
    for (i, e) in exprs.iter().enumerate() {
        room = expr_room(rooms, e).max(1).saturating_add(i).max(room);
    }
    room
}

/// The room of a statement, likewise.
#[cycle(statement)]
pub fn statement_room(rooms: &[usize], statement: &Statement) -> usize
    ensures { result ≡ saturated (statement_room (room_in rooms.now) statement.now) }
{
    match statement {
        Statement::Assign(parts, right) => {
            expr_room(rooms, right).max(parts_room(rooms, parts.as_slice()))
        }
        Statement::If(test, taken, other) => expr_room(rooms, test).max(statement_room(
            rooms,
            taken.get(),
        ).max(statement_room(rooms, other.get()))),
        Statement::Case(tested, items, otherwise) => expr_room(rooms, tested).max(items_room(
            rooms,
            items.as_slice(),
        ).max(statement_room(rooms, otherwise.get()))),
        Statement::Begin(statements) => statements_room(rooms, statements.as_slice()),
        Statement::Empty => 0,
    }
}

// The most room of several statements.
#[cycle(statement)]
fn statements_room(rooms: &[usize], statements: &[Statement]) -> usize
    ensures { result ≡ saturated (most (map (statement_room (room_in rooms.now)) statements.now)) }
{
    let mut room = 0;
    for s in statements {
        room = statement_room(rooms, s).max(room);
    }
    room
}

// The most room of the items of a `case`.
#[cycle(statement)]
fn items_room(rooms: &[usize], items: &[CaseItem]) -> usize
    ensures { result ≡ saturated (most (map (item_room_of (room_in rooms.now)) items.now)) }
{
    let mut room = 0;
    for item in items {
        let labels = most_room(rooms, item.labels.as_slice());
        room = statement_room(rooms, &item.body).max(labels).max(room);
    }
    room
}

// The room of the indices of a left side.
fn parts_room(rooms: &[usize], parts: &[Part]) -> usize
    ensures { result ≡ saturated (staged (map (λ p. index_room (room_in rooms.now) p.target) parts.now)) }
{
    let mut room = 0;
    for (i, part) in parts.iter().enumerate() {
        room = part_room(rooms, part).max(1).saturating_add(i).max(room);
    }
    room
}

// The room of the index of a part.
fn part_room(rooms: &[usize], part: &Part) -> usize
    ensures { result ≡ saturated (index_room (room_in rooms.now) part.now.target) }
{
    match &part.target {
        PartTarget::Bits(_, _) => 0,
        PartTarget::Index(_, _, index) => expr_room(rooms, index),
        PartTarget::Word(_, _, index) => expr_room(rooms, index),
    }
}
