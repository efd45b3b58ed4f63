//! What the calls of rows give.
ghost use Rattle.std.specs.Prelude.{◌≤◌, ◌<◌, IfOk, vec_len};
ghost use Rattle.vod_eval.specs.Room.{room_of};

use crate::lefts::{left_of, print_left};
use crate::names::{World, declare_all};
use rows_digits::{Digits, truth};
use std::alloc::{AllocError, Global};
use std::io;
use vod_bits::WIDTH;
use vod_design::{Function, Read, SizedExpr};
use vod_eval::{Lists, add_reads, call_rooms, expr_room, value_of};
use vod_expr::read_expr;
use vod_four::Four;
use vod_token::tokens;
use vod_tree::Expr;
use vod_width::{Decls, WidthFault, constant, own, size, size_at};

/// The longest expression of a row, in bytes.
const LONGEST: usize = 1000;

/// The expression that a text is.
fn read(alloc: Global, text: &str) -> Option<Expr> {
    let source = text.as_bytes();
    if source.len() > LONGEST {
        return None;
    }
    let Ok(tokens) = tokens(alloc, source) else {
        return None;
    };
    let Ok((expr, count)) = read_expr(alloc, source, &tokens, 0) else {
        return None;
    };
    if count == tokens.len() {
        Some(expr)
    } else {
        None
    }
}

/// Room for the value of an expression.
fn room(alloc: Global, functions: &[Function], e: &SizedExpr) -> Result<Vec<Four>, AllocError>
    ensures { IfOk result (λ v. room_of functions.now e.now ≤ vec_len v) }
{
    let rooms = call_rooms(alloc, functions)?;
    let count = expr_room(&rooms, e);
    let mut room = Vec::new(alloc);
    for _ in 0..count {
        room.push(truth(false))?;
    }
    Ok(room)
}

/// The value of an expression that was given a size.
pub fn value(alloc: Global, world: &World, e: &SizedExpr) -> Result<Four, AllocError> {
    let functions = world.functions.as_slice();
    let mut room = room(alloc, functions, e)?;
    let tables = Lists {
        signals: world.signals.as_slice(),
        memories: world.rams.as_slice(),
    };
    Ok(value_of(functions, &tables, e, &mut room))
}

fn print_value(rt: &impl Print, width: u8, signed: bool, value: Four) -> io::Result<()> {
    let sign = if signed { "signed" } else { "unsigned" };
    println!(rt; "{width} {sign} {}", Digits(value))
}

pub fn print_fault(rt: &impl Print, fault: WidthFault) -> io::Result<()> {
    match fault {
        WidthFault::Rule { place } => println!(rt; "rule at {place}"),
        WidthFault::Width { place } => println!(rt; "width at {place}"),
        WidthFault::Open => rt.println("open"),
        WidthFault::Memory => rt.println("memory"),
    }
}

/// What a row asks of its expression.
#[derive(Clone, Copy)]
pub enum Question {
    /// Its size, sign and value in a context of this size.
    Size(u8),
    /// What it stands for as a constant.
    Constant,
    /// Its own size and sign, and whether it is constant.
    Own,
    /// Its size, sign and value at this size and sign.
    At(u8, bool),
    /// The place of its first token.
    Place,
    /// What it can read.
    Reads,
}

/// Prints the size, sign and value of an expression that was given a size.
fn print_sized(rt: &(impl Print + AllocGlobal), world: &World, e: &SizedExpr) -> io::Result<()> {
    let value = value(rt.alloc(), world, e)?;
    print_value(rt, e.width, e.signed, value)
}

fn print_constant(
    rt: &(impl Print + AllocGlobal),
    decls: &Decls<'_>,
    expr: &Expr,
) -> io::Result<()> {
    match constant(rt.alloc(), expr, decls) {
        Ok(found) => print_value(rt, found.value.width, found.signed, Four::of(found.value)),
        Err(fault) => print_fault(rt, fault),
    }
}

fn print_size(
    rt: &(impl Print + AllocGlobal),
    world: &World,
    decls: &Decls<'_>,
    expr: &Expr,
    context: u8,
) -> io::Result<()>
    requires { context ≤ WIDTH }
{
    match size(rt.alloc(), expr, decls, context) {
        Ok(e) => print_sized(rt, world, &e),
        Err(fault) => print_fault(rt, fault),
    }
}

fn print_own(rt: &(impl Print + AllocGlobal), decls: &Decls<'_>, expr: &Expr) -> io::Result<()> {
    match own(rt.alloc(), expr, decls) {
        Ok(own) => {
            let sign = if own.signed { "signed" } else { "unsigned" };
            let kind = if own.constant { "constant" } else { "variable" };
            println!(rt; "{} {sign} {kind}", own.width)
        }
        Err(fault) => print_fault(rt, fault),
    }
}

fn print_size_at(
    rt: &(impl Print + AllocGlobal),
    world: &World,
    decls: &Decls<'_>,
    expr: &Expr,
    width: u8,
    signed: bool,
) -> io::Result<()> {
    match size_at(rt.alloc(), expr, decls, width, signed) {
        Ok(e) => print_sized(rt, world, &e),
        Err(fault) => print_fault(rt, fault),
    }
}

fn print_place(rt: &(impl Print + AllocGlobal), decls: &Decls<'_>, expr: &Expr) -> io::Result<()> {
    match size(rt.alloc(), expr, decls, 0) {
        Ok(e) => println!(rt; "at {}", e.place),
        Err(fault) => print_fault(rt, fault),
    }
}

fn print_read(rt: &impl Print, read: Read) -> io::Result<()> {
    match read {
        Read::Whole(signal) => print!(rt; "whole {signal}"),
        Read::Bits(signal, low, width) => print!(rt; "bits {signal} {low} {width}"),
        Read::Word(memory, place) => print!(rt; "word {memory} {place}"),
        Read::Ram(memory) => print!(rt; "ram {memory}"),
    }
}

fn print_reads(rt: &(impl Print + AllocGlobal), e: &SizedExpr) -> io::Result<()> {
    let mut reads = Vec::new(rt.alloc());
    add_reads(e, &mut reads)?;
    for (i, read) in reads.as_slice().iter().enumerate() {
        rt.print(if i == 0 { "" } else { ", " })?;
        print_read(rt, *read)?;
    }
    rt.println("")
}

fn print_reads_of(
    rt: &(impl Print + AllocGlobal),
    decls: &Decls<'_>,
    expr: &Expr,
) -> io::Result<()> {
    match size(rt.alloc(), expr, decls, 0) {
        Ok(e) => print_reads(rt, &e),
        Err(fault) => print_fault(rt, fault),
    }
}

/// Prints the answer on an expression of declared names.
fn print_found(
    rt: &(impl Print + AllocGlobal),
    world: &World,
    decls: &Decls<'_>,
    question: Question,
    expr: &Expr,
) -> io::Result<()> {
    match question {
        Question::Size(context) => {
            if context <= WIDTH {
                print_size(rt, world, decls, expr, context)
            } else {
                rt.println("not a row")
            }
        }
        Question::Constant => print_constant(rt, decls, expr),
        Question::Own => print_own(rt, decls, expr),
        Question::At(width, signed) => print_size_at(rt, world, decls, expr, width, signed),
        Question::Place => print_place(rt, decls, expr),
        Question::Reads => print_reads_of(rt, decls, expr),
    }
}

/// Prints the answer on an expression, where the names are those of a text.
fn print_expr(
    rt: &(impl Print + AllocGlobal),
    names: &str,
    question: Question,
    expr: &Expr,
) -> io::Result<()> {
    let mut world = World::new(rt.alloc());
    let mut decls = Decls::new(rt.alloc());
    match declare_all(rt.alloc(), &mut world, &mut decls, names) {
        Ok(_) => print_found(rt, &world, &decls, question, expr),
        Err(fault) => Err(fault.into()),
    }
}

/// Prints the answer on the expression that a text is.
pub fn print_answer(
    rt: &(impl Print + AllocGlobal),
    names: &str,
    question: Question,
    text: &str,
) -> io::Result<()> {
    match read(rt.alloc(), text) {
        Some(expr) => print_expr(rt, names, question, &expr),
        None => rt.println("not a row"),
    }
}

/// Prints the answer on a left side, where the names are those of a text.
fn print_left_of(rt: &(impl Print + AllocGlobal), names: &str, expr: Expr) -> io::Result<()> {
    let mut world = World::new(rt.alloc());
    let mut decls = Decls::new(rt.alloc());
    declare_all(rt.alloc(), &mut world, &mut decls, names)?;
    match left_of(rt.alloc(), expr)? {
        Some(left) => print_left(rt, &world, &decls, &left),
        None => rt.println("not a row"),
    }
}

/// Prints the answer on the left side that a text is.
pub fn print_left_answer(
    rt: &(impl Print + AllocGlobal),
    names: &str,
    text: &str,
) -> io::Result<()> {
    match read(rt.alloc(), text) {
        Some(expr) => print_left_of(rt, names, expr),
        None => rt.println("not a row"),
    }
}

/// Prints how many names a row declares.
pub fn print_count(rt: &(impl Print + AllocGlobal), names: &str) -> io::Result<()> {
    let mut world = World::new(rt.alloc());
    let mut decls = Decls::new(rt.alloc());
    match declare_all(rt.alloc(), &mut world, &mut decls, names) {
        Ok(count) => println!(rt; "{count} declared"),
        Err(fault) => Err(fault.into()),
    }
}

/// Prints what a fault says.
pub fn print_message(rt: &impl Print, fault: &str) -> io::Result<()> {
    let fault = match fault.split_once(" at ") {
        Some(("rule", place)) => place.parse().ok().map(|place| WidthFault::Rule { place }),
        Some(("width", place)) => place.parse().ok().map(|place| WidthFault::Width { place }),
        Some(_) => None,
        None if fault == "memory" => Some(WidthFault::Memory),
        None if fault == "open" => Some(WidthFault::Open),
        None => None,
    };
    match fault {
        Some(fault) => println!(rt; "{fault}"),
        None => rt.println("not a row"),
    }
}
