//! Prints all that is read back of a small design that is made by hand.
#![tactic(auto)]

mod images;
mod print;
mod small;

use std::io;
use vod_design::Design;

fn print_all(rt: &(impl Print + AllocGlobal), design: &Design) -> io::Result<()> {
    print::design(rt, design)?;
    images::print(rt, design)
}

fn main(rt: HostRuntime) -> io::Result<()> {
    match small::design(rt.alloc()) {
        Ok(design) => print_all(&rt, &design),
        Err(error) => Err(error.into()),
    }
}
