//! Rows over the call of the program, on sources, sinks and a device in memory. Rows before a `call` say what it is handed; the
//! device keeps its bytes from one call to the next.
#![tactic(auto)]

mod row;
mod table;

use crate::row::{Row, row_of};
use crate::table::Table;
use std::io;

/// Prints a line, and behind a call or a look what it gives.
fn answer(rt: HostRuntime, table: &mut Table, line: &str) -> io::Result<()> {
    let Some(row) = row_of(line) else {
        return println!(rt; "{line} -> unknown row");
    };
    match row {
        Row::Text => rt.println(line),
        Row::Design(text) => {
            table.set_design(rt.alloc(), text)?;
            rt.println(line)
        }
        Row::Script(text) => {
            table.set_script(rt.alloc(), text)?;
            rt.println(line)
        }
        Row::Device(text) => {
            table.set_device(rt.alloc(), text)?;
            rt.println(line)
        }
        Row::Turn { place, mask } => {
            table.turn(place, mask);
            rt.println(line)
        }
        Row::Fails(object, numbers) => {
            table.set_fails(rt.alloc(), object, numbers)?;
            rt.println(line)
        }
        Row::Crash(calls) => {
            table.set_crash(calls);
            rt.println(line)
        }
        Row::Call(words) => {
            let page = table.call(rt.alloc(), words)?;
            println!(rt; "{line} -> {page}")
        }
        Row::Left(pick) => {
            let page = table.left(rt.alloc(), pick)?;
            println!(rt; "{line} -> {page}")
        }
    }
}

fn main(rt: HostRuntime) -> io::Result<()> {
    let mut table = Table::new(rt.alloc());
    for line in rt.lines(rt.alloc()) {
        answer(rt, &mut table, line?.as_str())?;
    }
    Ok(())
}
