//! Rows on images of a design's state. A `blank` row has the signals of a design in which nothing is driven, each as its width and
//! `n` for a net or `r` for a register, and is answered with how many numbers its blank image has. A `fit` row has besides, behind
//! `|`, the numbers of an image's registers, and those of its inputs, and is answered with whether it fits.
#![tactic(auto)]

mod row;

use std::io;

fn main(rt: HostRuntime) -> io::Result<()> {
    for line in rt.lines(rt.alloc()) {
        let answered = row::answered(rt.alloc(), line?.as_str())?;
        println!(rt; "{answered}")?;
    }
    Ok(())
}
