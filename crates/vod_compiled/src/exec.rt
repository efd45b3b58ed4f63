//! Steps, one after the other.
ghost use Rattle.std.specs.Prelude.{◌≡◌, ◌+◌, ◌-◌, ◌<◌, map, min};
ghost use Rattle.vod_compiled.specs.Steps.{world, at_step, truth_of, put, where_true, where_false, after, left_out, exec, op_bits};

use crate::operand::{at_step, held, put, truth};
use crate::quick::quickly;
use crate::step::{Input, Op, Step};
use crate::work::step_value;
use vod_eval::Tables;
use vod_value::Value;

// How many steps a test leaves out.
#[inline(always)]
fn test<V: Value, T: Tables<V>>(tables: &T, cells: &[V], test: &Input, behind: usize) -> usize
    ensures { result ≡ where_false (truth_of (world V.fill (T.values tables.now)) (map V.bits cells.now) test.now) behind 0 }
{
    match truth(tables, cells, test) {
        Some(true) => 0,
        Some(false) => behind,
        None => 0,
    }
}

// Puts a value into the cell behind one, where there is one.
#[tactic(auto, using(crate::proofs::Lists::map_put, crate::proofs::Lists::map_put_past))]
fn put_behind<V: Value>(cells: &mut [V], to: usize, value: V)
    ensures { map V.bits cells.new ≡ put (map V.bits cells.old) (to + 1) (V.bits value) }
{
    if to < cells.len() {
        put(cells, to + 1, value);
    }
}

// Puts an operand at the size of a step into its cell.
#[inline(always)]
fn put_at_step<V: Value, T: Tables<V>>(tables: &T, cells: &mut [V], step: &Step, a: &Input)
    ensures { map V.bits cells.new ≡ put (map V.bits cells.old) step.now.to (at_step (world V.fill (T.values tables.now)) (map V.bits cells.old) step.now a.now) }
{
    if let Some(value) = held(tables, cells, a, step.width, step.signed) {
        put(cells, step.to, value);
        return;
    }
    put(cells, step.to, at_step(tables, cells, step, a));
}

// The first branch of a conditional; gives how many steps are left out.
#[inline(always)]
fn first<V: Value, T: Tables<V>>(
    tables: &T,
    cells: &mut [V],
    step: &Step,
    test: &Input,
    a: &Input,
    behind: usize,
) -> usize
    ensures cells { map V.bits cells.new ≡ where_true (truth_of (world V.fill (T.values tables.now)) (map V.bits cells.old) test.now) (put (map V.bits cells.old) step.now.to (at_step (world V.fill (T.values tables.now)) (map V.bits cells.old) step.now a.now)) (put (map V.bits cells.old) (step.now.to + 1) (at_step (world V.fill (T.values tables.now)) (map V.bits cells.old) step.now a.now)) }
    ensures left_out { result ≡ where_true (truth_of (world V.fill (T.values tables.now)) (map V.bits cells.old) test.now) behind 0 }
{
    match truth(tables, cells, test) {
        Some(true) => {
            put_at_step(tables, cells, step, a);
            behind
        }
        Some(false) => {
            put_behind(cells, step.to, at_step(tables, cells, step, a));
            0
        }
        None => {
            put_behind(cells, step.to, at_step(tables, cells, step, a));
            0
        }
    }
}

// Puts what a step does into its cell, the quick way where that can be.
#[inline(always)]
fn fill<V: Value, T: Tables<V>>(tables: &T, cells: &mut [V], step: &Step)
    ensures { map V.bits cells.new ≡ put (map V.bits cells.old) step.now.to (op_bits (world V.fill (T.values tables.now)) (map V.bits cells.old) step.now step.now.op) }
{
    if quickly(tables, cells, step) {
        return;
    }
    put(cells, step.to, step_value(tables, cells, step));
}

// Does a step; gives how many steps behind it are left out.
#[inline(always)]
#[tactic(auto, using(crate::proofs::Loop::puts, crate::proofs::Loop::goes_on))]
fn perform<V: Value, T: Tables<V>>(tables: &T, cells: &mut [V], step: &Step) -> usize
    ensures cells { map V.bits cells.new ≡ after (world V.fill (T.values tables.now)) (map V.bits cells.old) step.now }
    ensures skips { result ≡ left_out (world V.fill (T.values tables.now)) (map V.bits cells.old) step.now }
{
    match &step.op {
        Op::Test(operand, behind) => test(tables, cells, operand, *behind),
        Op::First(operand, a, behind) => first(tables, cells, step, operand, a, *behind),
        _ => {
            fill(tables, cells, step);
            0
        }
    }
}

// The place of the next step, behind one and so many that are left out.
#[inline(always)]
fn next_place(at: usize, behind: usize, count: usize) -> usize
    requires { at < count }
    ensures { result ≡ at + (1 + min behind (count - at - 1)) }
{
    if behind == 0 {
        return at + 1;
    }
    at + 1 + behind.min(count - at - 1)
}

/// Does steps one after the other, but for those that are left out.
pub fn run<V: Value, T: Tables<V>>(tables: &T, steps: &[Step], cells: &mut [V])
    ensures { map V.bits cells.new ≡ exec (world V.fill (T.values tables.now)) 0 steps.now (map V.bits cells.old) }
{
    let mut at: usize = 0;
    while at < steps.len() {
        let behind = perform(tables, cells, &steps[at]);
        at = next_place(at, behind, steps.len());
    }
}
