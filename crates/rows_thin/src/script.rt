//! Scripts: their vectors, the last time, and since when all inputs are known.
ghost use Rattle.std.specs.Prelude.{◌≡◌, ◌<◌, length, IfOk};
ghost use Rattle.vod_thin_design.specs.Names.{HasPlainNames};
ghost use Rattle.vod_thin_design.specs.Netlist.{Netlist};
ghost use Rattle.vod_thin_design.specs.Vectors.{IsVector};

use crate::netlist::{digit_of, input_name};
use rows_text::Page;
use std::alloc::{AllocError, Global};
use vod_thin_design::{Bit, Design, Move, Moves, Vector};
use vod_thin_script::{AddFault, History, read_script};

/// What the lines of a script are.
pub fn show_script(alloc: Global, page: &mut Page, design: &Design, script: &[u8])
    requires { HasPlainNames design.now }
{
    match &read_script(alloc, design, script) {
        Ok(past) => show_past(page, design, past),
        Err(fault) => page.shown(fault),
    }
}

fn show_past(page: &mut Page, design: &Design, past: &History<'_>) {
    for vector in past.vectors() {
        page.put(" (");
        page.put_shown(&vector.time);
        show_moves(page, design, vector);
        page.close();
    }
    page.placed("last", past.last_time());
    match past.known_since() {
        Some(since) => page.placed("known", since),
        None => page.word("not known"),
    }
}

fn show_moves(page: &mut Page, design: &Design, vector: &Vector) {
    for assignment in vector.moves.as_slice() {
        page.put(" ");
        page.put_bytes(input_name(design, assignment.input));
        page.put("=");
        page.put(digit_of(assignment.value));
    }
}

/// Whether a vector is added behind those of a script: the third input gets 1, or else the second, and the first gets 0.
pub fn show_added(
    alloc: Global,
    page: &mut Page,
    design: &Design,
    time: u64,
    third: bool,
    script: &[u8],
) -> Result<(), AllocError>
    requires { HasPlainNames design.now }
{
    let vector = vector_at(alloc, time, third)?;
    if design.inputs().len() != 3 {
        page.word("not three inputs");
        return Ok(());
    }
    match read_script(alloc, design, script) {
        Ok(mut past) => page.word(added_word(past.add(vector))),
        Err(fault) => page.shown(&fault),
    }
    Ok(())
}

fn added_word(added: Result<(), AddFault>) -> &'static str {
    match added {
        Ok(()) => "added",
        Err(AddFault::Refused) => "refused",
        Err(AddFault::Memory) => "Memory",
    }
}

/// The number of the third input, or of the second.
fn second(third: bool) -> u32
    ensures { (0 < result) × (result < 3) }
{
    if third { 2 } else { 1 }
}

fn vector_at(alloc: Global, time: u64, third: bool) -> Result<Vector, AllocError>
    ensures { IfOk result (λ vector. (d : Netlist) → length d.inputs ≡ 3 → IsVector d vector) }
{
    let first = Move {
        input: 0,
        value: Bit::Zero,
    };
    let other = Move {
        input: second(third),
        value: Bit::One,
    };
    let moves = Moves::new(vec![in alloc; other, first]?);
    Ok(Vector { time, moves })
}
