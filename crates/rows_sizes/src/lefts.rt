//! Left sides of rows.
use crate::answers::{print_fault, value};
use crate::names::World;
use rows_digits::Digits;
use sqlite_items::Items;
use std::alloc::{AllocError, Global};
use std::io;
use vod_design::{Part, PartTarget, SizedExpr, Variable};
use vod_tree::{Expr, ExprKind, Lval, LvalKind};
use vod_width::{Decls, Parts, size_left};

/// A left side that is a name or a select, where an expression is one.
fn leaf(expr: Expr) -> Option<Lval> {
    let place = expr.place;
    match expr.kind {
        ExprKind::Name(ident) => Some(left(place, LvalKind::Name(ident))),
        ExprKind::Index(ident, i) => Some(left(place, LvalKind::Index(ident, i.into_inner()))),
        ExprKind::Range(ident, a, b) => {
            let (a, b) = (a.into_inner(), b.into_inner());
            Some(left(place, LvalKind::Range(ident, a, b)))
        }
        _ => None,
    }
}

fn left(place: u32, kind: LvalKind) -> Lval {
    Lval { place, kind }
}

/// Left sides in the other order.
fn turned(alloc: Global, lefts: Items<Lval>) -> Result<Items<Lval>, AllocError> {
    let mut lefts = lefts;
    let mut turned = Items::new(alloc);
    for _ in 0..lefts.len() {
        if let Some(left) = lefts.pop() {
            turned.push(left)?;
        }
    }
    Ok(turned)
}

/// Left sides side by side, where each expression is one.
fn leaves(alloc: Global, exprs: Items<Expr>) -> Result<Option<LvalKind>, AllocError> {
    let mut exprs = exprs;
    let mut lefts = Items::new(alloc);
    for _ in 0..exprs.len() {
        if let Some(expr) = exprs.pop() {
            match leaf(expr) {
                Some(left) => lefts.push(left)?,
                None => return Ok(None),
            }
        }
    }
    Ok(Some(LvalKind::Concat(turned(alloc, lefts)?)))
}

/// The left side that an expression is, where it is one with no concatenation inside another.
fn inner_left(alloc: Global, expr: Expr) -> Result<Option<Lval>, AllocError> {
    let place = expr.place;
    match expr.kind {
        ExprKind::Concat(parts) => match leaves(alloc, parts)? {
            Some(kind) => Ok(Some(Lval { place, kind })),
            None => Ok(None),
        },
        kind => Ok(leaf(Expr { place, kind })),
    }
}

/// The left side that an expression is, where it is one with no more than two concatenations inside one another.
pub fn left_of(alloc: Global, expr: Expr) -> Result<Option<Lval>, AllocError> {
    let place = expr.place;
    match expr.kind {
        ExprKind::Concat(parts) => match inner_lefts(alloc, parts)? {
            Some(kind) => Ok(Some(Lval { place, kind })),
            None => Ok(None),
        },
        kind => Ok(leaf(Expr { place, kind })),
    }
}

fn inner_lefts(alloc: Global, exprs: Items<Expr>) -> Result<Option<LvalKind>, AllocError> {
    let mut exprs = exprs;
    let mut lefts = Items::new(alloc);
    for _ in 0..exprs.len() {
        if let Some(expr) = exprs.pop() {
            match inner_left(alloc, expr)? {
                Some(left) => lefts.push(left)?,
                None => return Ok(None),
            }
        }
    }
    Ok(Some(LvalKind::Concat(turned(alloc, lefts)?)))
}

/// Prints a variable of a left side.
fn print_variable(rt: &impl Print, x: Variable) -> io::Result<()> {
    match x {
        Variable::Signal(n) => print!(rt; "signal {n}"),
        Variable::Local(n) => print!(rt; "local {n}"),
    }
}

/// Prints an index by its size, its place and its value.
fn print_index(
    rt: &(impl Print + AllocGlobal),
    world: &World,
    least: u16,
    index: &SizedExpr,
) -> io::Result<()> {
    let value = value(rt.alloc(), world, index)?;
    print!(rt; " from {least} by {} at {}", Digits(value), index.place)
}

/// Prints what a part writes.
fn print_target(
    rt: &(impl Print + AllocGlobal),
    world: &World,
    target: &PartTarget,
) -> io::Result<()> {
    match target {
        PartTarget::Bits(x, low) => {
            print_variable(rt, *x)?;
            print!(rt; " bit {low}")
        }
        PartTarget::Index(x, least, index) => {
            print_variable(rt, *x)?;
            print_index(rt, world, *least, index)
        }
        PartTarget::Word(memory, least, index) => {
            print!(rt; "memory {memory}")?;
            print_index(rt, world, *least, index)
        }
    }
}

/// Prints a part: the bits of the value that it takes, its place, and what it writes.
fn print_part(rt: &(impl Print + AllocGlobal), world: &World, part: &Part) -> io::Result<()> {
    print!(rt; " [{} from {} at {}: ", part.width, part.low, part.place)?;
    print_target(rt, world, &part.target)?;
    print!(rt; "]")
}

fn print_parts(rt: &(impl Print + AllocGlobal), world: &World, parts: &Parts) -> io::Result<()> {
    print!(rt; "parts")?;
    for part in parts.as_slice() {
        print_part(rt, world, part)?;
    }
    rt.println("")
}

/// Prints the answer on a left side of declared names.
pub fn print_left(
    rt: &(impl Print + AllocGlobal),
    world: &World,
    decls: &Decls<'_>,
    left: &Lval,
) -> io::Result<()> {
    match size_left(rt.alloc(), left, decls) {
        Ok(parts) => print_parts(rt, world, &parts),
        Err(fault) => print_fault(rt, fault),
    }
}
