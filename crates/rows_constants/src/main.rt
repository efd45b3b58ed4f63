//! Rows on constants of declarations. A row says what the parameters of a module are set to (`own`, `open`, or a value as `u8 200`), and
//! has a source of one module. It is answered with what each parameter, range and memory of that module is, in order, or with its first
//! fault.
#![tactic(auto)]

mod declared;
mod row;

use std::io;

fn main(rt: HostRuntime) -> io::Result<()> {
    for line in rt.lines(rt.alloc()) {
        let answered = row::answered(rt.alloc(), line?.as_str())?;
        println!(rt; "{answered}")?;
    }
    Ok(())
}
