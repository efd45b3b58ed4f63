//! Rows on tokens and syntax trees. Each line of the input names a call and what it reads, and is printed with its answer.
#![tactic(auto)]

mod declaration;
mod expression;
mod facts;
mod instance;
mod lexis;
mod page;
mod row;
mod statement;
mod tree;

use std::io;

fn main(rt: HostRuntime) -> io::Result<()> {
    for line in rt.lines(rt.alloc()) {
        let answered = row::answered(rt.alloc(), line?.as_str())?;
        println!(rt; "{answered}")?;
    }
    Ok(())
}
