//! Whether expressions call no functions, and how many cells their steps use.
ghost use Rattle.std.specs.Prelude.{◌≡◌, ◌+◌, ◌&&◌, max, map};
ghost use Rattle.vod_eval.specs.Room.{saturated};
ghost use Rattle.vod_compiled.specs.Code.{is_flat, all_flat, cells_of};
ghost use Rattle.vod_eval.specs.Room.{most};

use vod_design::{SizedExpr, SizedKind};

// Whether both tests hold.
fn both(a: bool, b: bool) -> bool
    ensures { result ≡ a && b }
{
    a && b
}

// Whether an expression calls no function.
#[cycle(flat)]
pub fn is_flat(e: &SizedExpr) -> bool
    ensures { result ≡ is_flat e.now }
{
    match &e.kind {
        SizedKind::Number(_) => true,
        SizedKind::Name(_) => true,
        SizedKind::Select(_, _, _) => true,
        SizedKind::Index(_, _, index) => is_flat(index.get()),
        SizedKind::Word(_, _) => true,
        SizedKind::WordIndex(_, _, index) => is_flat(index.get()),
        SizedKind::Unary(_, a) => is_flat(a.get()),
        SizedKind::Binary(_, a, b) => both(is_flat(a.get()), is_flat(b.get())),
        SizedKind::Comparison(_, a, b) => both(is_flat(a.get()), is_flat(b.get())),
        SizedKind::LogicalNot(a) => is_flat(a.get()),
        SizedKind::Logical(_, a, b) => both(is_flat(a.get()), is_flat(b.get())),
        SizedKind::Reduction(_, a) => is_flat(a.get()),
        SizedKind::Shift(_, a, amount) => both(is_flat(a.get()), is_flat(amount.get())),
        SizedKind::Conditional(test, a, b) => both(
            is_flat(test.get()),
            both(is_flat(a.get()), is_flat(b.get())),
        ),
        SizedKind::Concat(parts) => all_flat(parts.as_slice()),
        SizedKind::Replicate(_, a) => is_flat(a.get()),
        SizedKind::Call(_, _) => false,
        SizedKind::Gate(_, inputs) => all_flat(inputs.as_slice()),
    }
}

// Whether no expression calls a function.
#[cycle(flat)]
fn all_flat(exprs: &[SizedExpr]) -> bool
    ensures { result ≡ all_flat (map is_flat exprs.now) }
{
    for e in exprs {
        if !is_flat(e) {
            return false;
        }
    }
    true
}

// The larger of a number and one more than another.
fn beside(a: usize, b: usize) -> usize
    ensures { result ≡ saturated (max a (1 + b)) }
{
    a.max(b.saturating_add(1))
}

// How many cells the steps of an expression use: that, or `usize::MAX` where it is more.
#[cycle(cells)]
pub fn cells_of(e: &SizedExpr) -> usize
    ensures { result ≡ saturated (cells_of e.now) }
{
    match &e.kind {
        SizedKind::Number(_) => 0,
        SizedKind::Name(_) => 0,
        SizedKind::Select(_, _, _) => 1,
        SizedKind::Index(_, _, index) => cells_of(index.get()).max(1),
        SizedKind::Word(_, _) => 1,
        SizedKind::WordIndex(_, _, index) => cells_of(index.get()).max(1),
        SizedKind::Unary(_, a) => cells_of(a.get()).max(1),
        SizedKind::Binary(_, a, b) => beside(cells_of(a.get()), cells_of(b.get())),
        SizedKind::Comparison(_, a, b) => beside(cells_of(a.get()), cells_of(b.get())),
        SizedKind::LogicalNot(a) => cells_of(a.get()).max(1),
        SizedKind::Logical(_, a, b) => beside(cells_of(a.get()), cells_of(b.get())),
        SizedKind::Reduction(_, a) => cells_of(a.get()).max(1),
        SizedKind::Shift(_, a, amount) => beside(cells_of(a.get()), cells_of(amount.get())),
        SizedKind::Conditional(test, a, b) => beside(
            cells_of(test.get()),
            beside(cells_of(a.get()), cells_of(b.get())),
        ),
        SizedKind::Concat(parts) => most_cells(parts.as_slice()).saturating_add(1),
        SizedKind::Replicate(_, a) => cells_of(a.get()).max(1),
        SizedKind::Call(_, _) => 0,
        SizedKind::Gate(_, inputs) => most_cells(inputs.as_slice()).saturating_add(1),
    }
}

// The most cells of several expressions.
#[cycle(cells)]
fn most_cells(exprs: &[SizedExpr]) -> usize
    ensures { result ≡ saturated (most (map cells_of exprs.now)) }
{
    let mut cells = 0;
    for e in exprs {
        cells = cells_of(e).max(cells);
    }
    cells
}
