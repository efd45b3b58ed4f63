//! Rows on the dump of a design in which nothing is driven. A row has, parted by `|`, how it is written, the source, the unit of
//! times, the instances, each as `NAME` or `NAME.PARENT`, the signals, each as `NAME:INSTANCE:KIND:WIDTH` with `:LSB` where it has a
//! range and KIND being `n` for a net or `r` for a register, the opening as a time and values, and calls, parted by commas: `slot`
//! with a time and values, `written` with a time, values and behind `/` the numbers of the signals that were written, or `close`
//! with a time. It is answered with the text, behind the header where it is written by `dump` or `fails N`, in which the sink's N-th
//! call fails, and without it where it is written by `values`.
#![tactic(auto)]

mod calls;
mod parts;
mod row;

use std::io;

fn main(rt: HostRuntime) -> io::Result<()> {
    for line in rt.lines(rt.alloc()) {
        let answered = row::answered(rt.alloc(), line?.as_str())?;
        println!(rt; "{answered}")?;
    }
    Ok(())
}
