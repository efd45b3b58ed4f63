//! Rows on the thin form: its sentences and designs, scripts, runs and dumps. Each line of the input names a call and what it
//! reads, and is printed with its answer.
#![tactic(auto)]

mod dump;
mod netlist;
mod row;
mod run;
mod script;
mod sentence;

use std::io;

fn main(rt: HostRuntime) -> io::Result<()> {
    let mut design = Vec::new(rt.alloc());
    for line in rt.lines(rt.alloc()) {
        let answered = row::answered(rt.alloc(), &mut design, line?.as_str())?;
        println!(rt; "{answered}")?;
    }
    Ok(())
}
