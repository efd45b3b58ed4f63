//! Steps over the cells of a small design that is made by hand: a net that shows a register, a block that waits for a posedge of the
//! clock, and a memory word. Each line has what is taken, and then the values of the clock, the net, the register and the word,
//! whether the net's driver awaits evaluation and the block was started, and what the driver would bring its target.
#![tactic(auto)]

ghost use Rattle.std.specs.Prelude.{◌≡◌, ◌<◌, ◌≤◌, length, vec_len, All, IfOk};
ghost use Rattle.vod_design.specs.declared.statement.Place.{Place};
ghost use Rattle.vod_eval.specs.Room.{room_of};
ghost use Rattle.rows_cells.specs.Small.{small, shown};

mod small;

use rows_digits::{print, truth};
use std::alloc::{AllocError, Global};
use std::io;
use vod_bits::Bits;
use vod_cells::Cells;
use vod_design::{Design, Driver, Function, SizedExpr};
use vod_eval::{call_rooms, expr_room};
use vod_four::Four;

/// What is taken.
#[derive(Clone, Copy)]
enum Step {
    Start,
    Word(bool),
    PastEnd,
    Clock(bool),
    Register(bool),
    Net(bool),
    Settle,
    Wait,
}

const STEPS: [(&str, Step); 13] = [
    ("start", Step::Start),
    ("word 1", Step::Word(true)),
    ("word past the end 0", Step::PastEnd),
    ("settle", Step::Settle),
    ("register 0", Step::Register(false)),
    ("settle", Step::Settle),
    ("register 0 again", Step::Register(false)),
    ("net 0", Step::Net(false)),
    ("clock 0", Step::Clock(false)),
    ("clock 1", Step::Clock(true)),
    ("wait", Step::Wait),
    ("clock 1 again", Step::Clock(true)),
    ("register 1", Step::Register(true)),
];

/// The driver of the net.
fn driver(design: &Design) -> &Driver
    requires { design.now.netlist ≡ small }
    ensures shown { result.now ≡ shown }
    ensures target { All (λ (p : Place). p.signal < length design.now.netlist.signals) result.now.target }
{
    &design.drivers()[0]
}

/// Room for the value of an expression.
fn room(alloc: Global, functions: &[Function], e: &SizedExpr) -> Result<Vec<Four>, AllocError>
    ensures { IfOk result (λ v. room_of functions.now e.now ≤ vec_len v) }
{
    let rooms = call_rooms(alloc, functions)?;
    let count = expr_room(&rooms, e);
    let mut room = Vec::new(alloc);
    for _ in 0..count {
        room.push(truth(false))?;
    }
    Ok(room)
}

fn take(cells: &mut Cells<'_>, design: &Design, step: Step)
    requires small { design.now.netlist ≡ small }
    requires design { cells.old.design ≡ small }
    ensures { cells.new.design ≡ small }
{
    match step {
        Step::Start => {}
        Step::Word(bit) => cells.put_word(0, 0, truth(bit)),
        Step::PastEnd => cells.put_word(0, 1, truth(false)),
        Step::Clock(bit) => cells.put_bits(0, 0, one_bit(bit)),
        Step::Register(bit) => cells.put_bits(2, 0, one_bit(bit)),
        Step::Net(bit) => cells.put_places(driver(design).target.as_slice(), truth(bit)),
        Step::Settle => cells.settle_driver(0),
        Step::Wait => cells.wait(0),
    }
}

fn one_bit(bit: bool) -> Four
    ensures { length result ≡ 1 }
{
    Four::of(Bits::bit(bit))
}

/// Prints what the driver of the net would bring it.
fn print_pending(
    rt: &(impl Print + AllocGlobal),
    cells: &Cells<'_>,
    design: &Design,
) -> io::Result<()>
    requires small { design.now.netlist ≡ small }
    requires design { cells.now.design ≡ small }
{
    let driver = driver(design);
    let mut room = room(rt.alloc(), design.functions(), &driver.value)?;
    match cells.evaluate(driver, &mut room) {
        None => rt.println(" nothing"),
        Some(value) => {
            print(rt, Some(value))?;
            rt.println("")
        }
    }
}

fn print_cells(
    rt: &(impl Print + AllocGlobal),
    cells: &Cells<'_>,
    design: &Design,
) -> io::Result<()>
    requires small { design.now.netlist ≡ small }
    requires design { cells.now.design ≡ small }
{
    for signal in 0..3 {
        print(rt, Some(cells.value(signal)))?;
    }
    print(rt, Some(cells.word(0, 0)))?;
    print!(rt; " {} {}", cells.is_awake(0), cells.is_started(0))?;
    print_pending(rt, cells, design)
}

fn take_all(rt: &(impl Print + AllocGlobal), design: &Design) -> io::Result<()>
    requires { design.now.netlist ≡ small }
{
    let mut cells: Cells<'_> = Cells::start(rt.alloc(), design)?;
    for (text, step) in STEPS {
        take(&mut cells, design, step);
        print!(rt; "{text} ->")?;
        print_cells(rt, &cells, design)?;
    }
    Ok(())
}

fn main(rt: HostRuntime) -> io::Result<()> {
    match small::design(rt.alloc()) {
        Ok(design) => take_all(&rt, &design),
        Err(error) => Err(error.into()),
    }
}
