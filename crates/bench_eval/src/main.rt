//! Times how expressions of 32 bits are evaluated, by their compiled form and as trees, over known values and over values of four
//! states: `bench_eval COUNT` evaluates each so often, five times over, and prints the nanoseconds that each node on its way takes
//! in the best of the five. Without a count it does nothing.
#![tactic(auto)]

mod trees;

ghost use Rattle.std.specs.Prelude.{◌≤◌, [], IfOk, vec_len, length};
ghost use Rattle.vod_compiled.specs.Code.{room};
ghost use Rattle.vod_eval.specs.Room.{room_of};

use sqlite_items::Items;
use std::alloc::{AllocError, Global};
use std::time::Instant;
use std::{env, io};
use trees::{parts, six_way, sums, three_way, words};
use vod_bits::Bits;
use vod_compiled::Compiled;
use vod_design::SizedExpr;
use vod_eval::{Lists, call_rooms, expr_room, value_of};
use vod_four::Four;
use vod_value::Value;

/// How often each is timed.
const TRIES: u32 = 5;

/// Room for the value of a tree that calls nothing.
fn room_of_tree<V: Value>(alloc: Global, e: &SizedExpr) -> Result<Vec<V>, AllocError>
    ensures { IfOk result (λ v. room_of [] e.now ≤ vec_len v) }
{
    let rooms = call_rooms(alloc, &[])?;
    let count = expr_room(&rooms, e);
    let mut room = Vec::new(alloc);
    for _ in 0..count {
        room.push(V::nothing())?;
    }
    Ok(room)
}

/// Cells for the value of a compiled expression that calls nothing.
fn cells<V: Value>(alloc: Global, compiled: &Compiled<'_>) -> Result<Vec<V>, AllocError>
    ensures { IfOk result (λ v. room [] compiled.now ≤ vec_len v) }
{
    let count = compiled.room(&[]);
    let mut cells = Vec::new(alloc);
    for _ in 0..count {
        cells.push(V::nothing())?;
    }
    Ok(cells)
}

fn turn<V: Value>(
    compiled: &Compiled<'_>,
    signals: &[V],
    memories: &[Items<V>],
    cells: &mut [V],
) -> V
    requires { room [] compiled.now ≤ length cells.old }
{
    compiled.value(&[], &Lists { signals, memories }, cells)
}

/// Evaluates a compiled expression so often, each time with the last value as the first signal's.
fn turns<V: Value>(
    count: u32,
    compiled: &Compiled<'_>,
    signals: &mut [V],
    memories: &[Items<V>],
    cells: &mut [V],
)
    requires { room [] compiled.now ≤ length cells.old }
{
    for _ in 0..count {
        let value = turn(compiled, signals, memories, cells);
        if let Some(first) = signals.get_mut(0) {
            *first = value;
        }
    }
}

fn tree_turn<V: Value>(e: &SizedExpr, signals: &[V], memories: &[Items<V>], room: &mut [V]) -> V
    requires { room_of [] e.now ≤ length room.old }
{
    value_of(&[], &Lists { signals, memories }, e, room)
}

/// The same of a tree.
fn tree_turns<V: Value>(
    count: u32,
    e: &SizedExpr,
    signals: &mut [V],
    memories: &[Items<V>],
    room: &mut [V],
)
    requires { room_of [] e.now ≤ length room.old }
{
    for _ in 0..count {
        let value = tree_turn(e, signals, memories, room);
        if let Some(first) = signals.get_mut(0) {
            *first = value;
        }
    }
}

/// The least nanoseconds of several tries of the compiled form.
fn best_turns<V: Value>(
    rt: &HostRuntime,
    count: u32,
    compiled: &Compiled<'_>,
    signals: &mut [V],
    memories: &[Items<V>],
    cells: &mut [V],
) -> io::Result<u128>
    requires { room [] compiled.now ≤ length cells.old }
{
    let mut best = u128::MAX;
    for _ in 0..TRIES {
        let start = Instant::now(rt)?;
        turns(count, compiled, signals, memories, cells);
        best = start.elapsed(rt)?.as_nanos().min(best);
    }
    Ok(best)
}

/// The same, from the expression on.
fn best_compiled<V: Value>(
    rt: &HostRuntime,
    count: u32,
    e: &SizedExpr,
    signals: &mut [V],
    memories: &[Items<V>],
) -> io::Result<u128> {
    let compiled = Compiled::of(rt.alloc(), e)?;
    let mut cells = cells(rt.alloc(), &compiled)?;
    best_turns(rt, count, &compiled, signals, memories, &mut cells)
}

/// The same of the tree.
fn best_tree<V: Value>(
    rt: &HostRuntime,
    count: u32,
    e: &SizedExpr,
    signals: &mut [V],
    memories: &[Items<V>],
) -> io::Result<u128> {
    let mut room = room_of_tree(rt.alloc(), e)?;
    let mut best = u128::MAX;
    for _ in 0..TRIES {
        let start = Instant::now(rt)?;
        tree_turns(count, e, signals, memories, &mut room);
        best = start.elapsed(rt)?.as_nanos().min(best);
    }
    Ok(best)
}

/// Prints the nanoseconds of a node, to a tenth, of so many nodes.
fn print_node(rt: &HostRuntime, nanoseconds: u128, nodes: u64) -> io::Result<()> {
    let tenths = nanoseconds.saturating_mul(10) / u128::from(nodes.max(1));
    let whole = tenths / 10;
    let part = tenths % 10;
    print!(rt; " {whole}.{part}")
}

/// An expression and how many nodes are on its way.
#[derive(Clone, Copy)]
struct Sample<'e> {
    name: &'static str,
    nodes: u64,
    expr: &'e SizedExpr,
}

/// Prints the times over one kind of values: of the compiled form, and of the tree.
fn time<V: Value>(
    rt: &HostRuntime,
    count: u32,
    kind: &str,
    sample: &Sample<'_>,
    signals: &mut [V],
) -> io::Result<()> {
    let mut words = Items::new(rt.alloc());
    for _ in 0..2u32 {
        for signal in signals.iter() {
            words.push(*signal)?;
        }
    }
    let memories = [words];
    let nodes = sample.nodes.saturating_mul(u64::from(count));
    print!(rt; "{}, {} nodes, {}:", sample.name, sample.nodes, kind)?;
    let best = best_compiled(rt, count, sample.expr, signals, &memories)?;
    print_node(rt, best, nodes)?;
    let best = best_tree(rt, count, sample.expr, signals, &memories)?;
    print_node(rt, best, nodes)?;
    rt.println("")
}

/// A value of 32 bits.
fn known(n: u64) -> Bits {
    Bits {
        width: 32,
        word: n % 4_294_967_296,
    }
}

/// Prints the times over both kinds of value.
fn both(rt: &HostRuntime, count: u32, sample: &Sample<'_>) -> io::Result<()> {
    let mut bits = [
        known(305419896),
        known(252645135),
        known(16711935),
        known(858993459),
        known(1431655765),
        known(2863311530),
        known(19088743),
        known(1431655765),
    ];
    time(rt, count, "known", sample, &mut bits)?;
    let mut fours = [
        Four::of(known(305419896)),
        Four::of(known(252645135)),
        Four::of(known(16711935)),
        Four::of(known(858993459)),
        Four::of(known(1431655765)),
        Four::of(known(2863311530)),
        Four::of(known(19088743)),
        Four::of(known(1431655765)),
    ];
    time(rt, count, "four states", sample, &mut fours)
}

/// Prints the times of an expression.
fn timed(
    rt: &HostRuntime,
    count: u32,
    name: &'static str,
    nodes: u64,
    expr: &SizedExpr,
) -> io::Result<()> {
    both(rt, count, &Sample { name, nodes, expr })
}

fn all(rt: &HostRuntime, count: u32) -> io::Result<()> {
    rt.println("nanoseconds a node: compiled, tree")?;
    let e = sums(rt.alloc())?;
    timed(rt, count, "sums", 15, e.get())?;
    let e = parts(rt.alloc())?;
    timed(rt, count, "selects and concatenations", 10, e.get())?;
    let e = three_way(rt.alloc())?;
    timed(rt, count, "a chain of three ?:", 13, e.get())?;
    let e = six_way(rt.alloc())?;
    timed(rt, count, "a chain of six ?:", 25, e.get())?;
    let e = words(rt.alloc())?;
    timed(rt, count, "memory words", 10, e.get())
}

fn main(rt: HostRuntime) -> io::Result<()> {
    let words: Vec<String> = env::args(&rt)?.skip(1).collect(rt.alloc())?;
    match words.first() {
        None => Ok(()),
        Some(word) => match word.parse() {
            Ok(count) => all(&rt, count),
            Err(_) => rt.println("not a count"),
        },
    }
}
