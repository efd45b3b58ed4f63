//! Left sides: the parts that an assignment writes (6.1, 9.2).
ghost use Rattle.std.specs.Prelude.{◌≡◌, ◌+◌, ◌&&◌, if◌then◌else◌, nat_lt, false, List, [], Some, None, min, map, IfOk, MatchResult};
ghost use Rattle.std.specs.Option.{option_copied};
ghost use Rattle.vod_design.specs.declared.sized.SizedKind.TheViews.{out-SizedKind};
ghost use Rattle.vod_design.specs.declared.sized.SizedKind.TheVariants as kind;
ghost use Rattle.vod_design.specs.declared.statement.PartTarget.TheVariants as target;
ghost use Rattle.vod_operand.specs.Operands.{Looked as Found, node};
ghost use Rattle.vod_operand.specs.declared.fault.Fault.TheVariants.{Width};
ghost use Rattle.vod_width.specs.Names.{declared};
ghost use Rattle.vod_width.specs.Sizes.{look, look_name, look_index, look_range};
ghost use Rattle.vod_width.specs.View.{SeesKind};
ghost use Rattle.vod_width.specs.Refusals.{Refused};
ghost use Rattle.vod_width.specs.Lefts.{LookedLeft, variable_of, at_variable, place_number, target_of, parts_of, is_open_written, is_written, left_of, left_concat, left_at, look_left, inside_left, laid};
ghost use Rattle.vod_width.specs.SeesLeft.{SeesLeft, NearLeft, SeesLefts, parts_tree_of, unless_fault, joined_parts};

use crate::decls::{Declared, Decls, Sort};
use crate::expr::{both_ok, look_expr};
use crate::parts::wider;
use crate::select::{index, is_constant, name, range};
use crate::sizing::refusal;
use crate::types::WidthFault;
use sqlite_items::Items;
use std::alloc::{AllocError, Global};
use vod_bits::{Bits, WIDTH, Word};
use vod_design::{Named, Part, PartTarget, SizedExpr, SizedKind, Variable};
use vod_operand::{Fault, Looked, both_hold, fault_if, sooner};
use vod_tree::{Expr, Ident, Lval, LvalKind, let_go};

/// The parts of a left side, seen as a list from the left.
pub type Parts = Items<Part>;

// What a left side is: its width, and its parts or the first fault. Each part is as if it took the lowest bits of the value.
#[derive(Drop)]
pub struct Left {
    pub width: u8,
    pub parts: Result<Items<Part>, Fault>,
}

// Left sides one beside the other: the sum of their widths, whether all have a width, and the parts of all or the first fault.
#[derive(Drop)]
pub struct Lefts {
    pub width: u8,
    pub sized: bool,
    pub parts: Result<Items<Part>, Fault>,
}

fn variable_of(name: Named) -> Option<Variable>
    ensures { result ≡ variable_of name }
{
    match name {
        Named::Variable(x) => Some(x),
        Named::Constant(_) => None,
    }
}

// The number of a word, as an expression.
fn place_number(place: u16) -> SizedExpr
    ensures { result ≡ place_number place }
{
    let number = Bits {
        width: 16,
        word: Word::from(place),
    };
    unsized_number(number)
}

fn unsized_number(number: Bits) -> SizedExpr
    ensures { result ≡ node 16 false (kind.Number number) }
{
    SizedExpr {
        place: 0,
        width: 16,
        signed: false,
        kind: SizedKind::Number(number),
    }
}

fn bits_at(variable: Option<Variable>, low: u8) -> Option<PartTarget>
    ensures { result ≡ at_variable (λ x. target.Bits x low) variable }
{
    match variable {
        Some(x) => Some(PartTarget::Bits(x, low)),
        None => None,
    }
}

fn index_at(variable: Option<Variable>, least: u16, index: SizedExpr) -> Option<PartTarget>
    ensures { result ≡ at_variable (λ x. target.Index x least index) variable }
{
    match variable {
        Some(x) => Some(PartTarget::Index(x, least, index)),
        None => {
            let_go(index);
            None
        }
    }
}

// What is written, by what the same expression reads.
fn target_of(kind: SizedKind) -> Option<PartTarget>
    ensures { result ≡ target_of (out-SizedKind kind) }
{
    match kind {
        SizedKind::Name(name) => bits_at(variable_of(name), 0),
        SizedKind::Select(name, low, _count) => bits_at(variable_of(name), low),
        SizedKind::Index(name, least, index) => {
            index_at(variable_of(name), least, index.into_inner())
        }
        SizedKind::Word(memory, place) => {
            Some(PartTarget::Word(memory.number, 0, place_number(place)))
        }
        SizedKind::WordIndex(memory, least, index) => Some(PartTarget::Word(
            memory.number,
            least,
            index.into_inner(),
        )),
        _ => None,
    }
}

// The one part of a name or a select.
fn parts_of(
    alloc: Global,
    place: u32,
    width: u8,
    target: Option<PartTarget>,
) -> Result<Items<Part>, AllocError>
    ensures { IfOk result (λ ps. ps ≡ parts_of place width target) }
{
    let mut parts = Items::new(alloc);
    match target {
        Some(target) => {
            parts.push(Part {
                place,
                low: 0,
                width,
                target,
            })?;
            Ok(parts)
        }
        None => Ok(parts),
    }
}

// The same of a tree, where there is one.
fn parts_tree(
    alloc: Global,
    place: u32,
    width: u8,
    tree: Result<SizedExpr, Fault>,
) -> Result<Result<Items<Part>, Fault>, AllocError>
    ensures { IfOk result (λ r. r ≡ parts_tree_of place width tree) }
{
    match tree {
        Ok(t) => {
            let parts = parts_of(alloc, place, width, target_of(t.kind))?;
            Ok(Ok(parts))
        }
        Err(f) => Ok(Err(f)),
    }
}

// Parts, unless there is a fault beside them.
fn unless_fault(
    parts: Result<Items<Part>, Fault>,
    fault: Option<Fault>,
) -> Result<Items<Part>, Fault>
    ensures { result ≡ unless_fault parts fault }
{
    match fault {
        None => parts,
        Some(g) => match parts {
            Ok(parts) => {
                let_go(parts);
                Err(g)
            }
            Err(f) => Err(sooner(f, g)),
        },
    }
}

fn is_open_written(sort: Sort) -> bool
    ensures { result ≡ is_open_written sort }
{
    match sort {
        Sort::Net => true,
        Sort::Constant => false,
        Sort::Ram => true,
        Sort::Function => true,
    }
}

// Whether a name may be written, as far as what it is doesn't put it at fault already.
fn is_written(declared: Option<&Declared>) -> bool
    ensures { result ≡ is_written (option_copied declared.entry) }
{
    match declared {
        Some(Declared::Vector(v)) => !is_constant(v.name),
        Some(Declared::Open(sort)) => is_open_written(*sort),
        Some(Declared::Ram(_)) => true,
        Some(Declared::Function(_)) => true,
        None => true,
    }
}

// A name, or a select of one.
fn leaf(
    alloc: Global,
    place: u32,
    declared: Option<&Declared>,
    x: Looked,
) -> Result<Left, AllocError>
    ensures { IfOk result (λ c. (y : Found) → SeesKind x y → NearLeft c (left_of place (option_copied declared.entry) y)) }
{
    let width = x.width;
    let fault = fault_if(!is_written(declared), place);
    let parts = parts_tree(alloc, place, width, x.tree)?;
    Ok(Left {
        width,
        parts: unless_fault(parts, fault),
    })
}

fn left_name(
    alloc: Global,
    decls: &Decls<'_>,
    place: u32,
    ident: &Ident,
) -> Result<Left, AllocError>
    ensures { IfOk result (λ c. NearLeft c (left_of place (declared decls.now ident.now.name) (look_name place (declared decls.now ident.now.name)))) }
{
    let x = name(place, decls, ident);
    leaf(alloc, place, decls.get(ident.name.as_slice()), x)
}

fn left_index(
    alloc: Global,
    decls: &Decls<'_>,
    place: u32,
    ident: &Ident,
    i: &Expr,
) -> Result<Left, AllocError>
    ensures { IfOk result (λ c. NearLeft c (left_of place (declared decls.now ident.now.name) (look_index place (declared decls.now ident.now.name) (look decls.now i.now)))) }
{
    let i = look_expr(alloc, decls, i)?;
    let x = index(alloc, place, decls, ident, i)?;
    leaf(alloc, place, decls.get(ident.name.as_slice()), x)
}

fn left_range(
    alloc: Global,
    decls: &Decls<'_>,
    place: u32,
    ident: &Ident,
    a: &Expr,
    b: &Expr,
) -> Result<Left, AllocError>
    ensures { IfOk result (λ c. NearLeft c (left_of place (declared decls.now ident.now.name) (look_range place (declared decls.now ident.now.name) (look decls.now a.now) (look decls.now b.now)))) }
{
    let first = look_expr(alloc, decls, a);
    let last = look_expr(alloc, decls, b);
    let (msb, lsb) = both_ok(first, last)?;
    let x = range(alloc, place, decls, ident, msb, lsb)?;
    leaf(alloc, place, decls.get(ident.name.as_slice()), x)
}

// That a width past `WIDTH` is at fault.
fn wide_fault(width: u8, place: u32) -> Option<Fault>
    ensures { result ≡ (if nat_lt WIDTH width then Some (Width place) else None) }
{
    if width > WIDTH {
        Some(Fault::Width(place))
    } else {
        None
    }
}

// A left side at its place. One that is too wide is at fault there.
fn left_at(place: u32, x: Left) -> Left
    ensures { (y : LookedLeft) → NearLeft x y → SeesLeft result (left_at place y) }
{
    let wide = wide_fault(x.width, place);
    Left {
        width: x.width,
        parts: unless_fault(x.parts, wide),
    }
}

// No left sides.
fn no_lefts(alloc: Global) -> Lefts
    ensures { SeesLefts result [] }
{
    Lefts {
        width: 0,
        sized: true,
        parts: Ok(Items::new(alloc)),
    }
}

// Parts behind others, or the sooner fault.
fn joined_parts(
    a: Result<Items<Part>, Fault>,
    b: Result<Items<Part>, Fault>,
) -> Result<Result<Items<Part>, Fault>, AllocError>
    ensures { IfOk result (λ r. r ≡ joined_parts a b) }
{
    match a {
        Ok(mut a) => match b {
            Ok(b) => {
                a.append(b)?;
                Ok(Ok(a))
            }
            Err(g) => Ok(Err(g)),
        },
        Err(f) => match b {
            Ok(_) => Ok(Err(f)),
            Err(g) => Ok(Err(sooner(f, g))),
        },
    }
}

// A left side behind others.
fn with_left(all: Lefts, x: Left) -> Result<Lefts, AllocError>
    ensures { IfOk result (λ r. (r.width ≡ min (all.width + x.width) 65) × (r.sized ≡ (all.sized && nat_lt 0 x.width)) × (r.parts ≡ joined_parts all.parts x.parts)) }
{
    let parts = joined_parts(all.parts, x.parts)?;
    Ok(Lefts {
        width: wider(all.width, x.width),
        sized: both_hold(all.sized, x.width > 0),
        parts,
    })
}

// The sum of widths, where all have one.
fn total(sized: bool, width: u8) -> u8
    ensures { result ≡ (if sized then width else 0) }
{
    if sized { width } else { 0 }
}

// `{ }`
fn left_concat(all: Lefts) -> Left
    ensures { (ys : List LookedLeft) → SeesLefts all ys → NearLeft result (left_concat ys) }
{
    let width = total(all.sized, all.width);
    Left {
        width,
        parts: all.parts,
    }
}

// What a left side is.
#[cycle(left)]
fn look_left(alloc: Global, decls: &Decls<'_>, left: &Lval) -> Result<Left, AllocError>
    ensures { IfOk result (λ c. SeesLeft c (look_left decls.now left.now)) }
{
    let x = look_left_kind(alloc, decls, left)?;
    Ok(left_at(left.place, x))
}

// What it is apart from its own place and width.
#[cycle(left)]
fn look_left_kind(alloc: Global, decls: &Decls<'_>, left: &Lval) -> Result<Left, AllocError>
    ensures { IfOk result (λ c. NearLeft c (inside_left decls.now left.now)) }
{
    match &left.kind {
        LvalKind::Name(ident) => left_name(alloc, decls, left.place, ident),
        LvalKind::Index(ident, i) => left_index(alloc, decls, left.place, ident, i),
        LvalKind::Range(ident, a, b) => left_range(alloc, decls, left.place, ident, a, b),
        LvalKind::Concat(lefts) => Ok(left_concat(look_lefts(alloc, decls, lefts.as_slice())?)),
    }
}

// Left sides, one beside the other.
#[cycle(left)]
fn look_lefts(alloc: Global, decls: &Decls<'_>, lefts: &[Lval]) -> Result<Lefts, AllocError>
    ensures { IfOk result (λ p. SeesLefts p (map (look_left decls.now) lefts.now)) }
{
    let mut all = no_lefts(alloc);
    for left in lefts {
        let x = look_left(alloc, decls, left)?;
        all = with_left(all, x)?;
    }
    Ok(all)
}

// Parts that are laid out: each takes the bits of the value above those of the parts behind it.
fn lay(alloc: Global, parts: Items<Part>) -> Result<Items<Part>, AllocError>
    ensures { IfOk result (λ r. r ≡ laid parts) }
{
    let mut parts = parts;
    let mut done = Vec::new(alloc);
    let mut low: u8 = 0;
    while let Some(part) = parts.pop() {
        let width = part.width;
        done.insert(
            0,
            Part {
                place: part.place,
                low,
                width,
                target: part.target,
            },
        )?;
        low = low.saturating_add(width);
    }
    Ok(Items::from_vec(done))
}

/// The parts that an assignment to a left side writes, from the left. Each takes the bits of the value above those of the parts behind
/// it. A name or a select is judged as the same expression is, and a constant isn't written. The refusal is the first fault of it and
/// its parts.
pub fn size_left(alloc: Global, left: &Lval, decls: &Decls<'_>) -> Result<Parts, WidthFault>
    ensures { MatchResult result (λ ps. ((look_left decls.now left.now).faults ≡ []) × (ps ≡ laid (look_left decls.now left.now).parts)) (λ f. Refused f (look_left decls.now left.now).faults) }
{
    let x = look_left(alloc, decls, left)?;
    match x.parts {
        Ok(parts) => {
            let laid = lay(alloc, parts)?;
            Ok(laid)
        }
        Err(f) => Err(refusal(f)),
    }
}
