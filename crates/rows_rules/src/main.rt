//! Rows on the rules of modules and names. A `modules` row has a source, and is answered with its top or the least place where the
//! rule on modules is broken; a `declared` row with the least place where a declaration is at fault, and a `names` row with the least
//! place where the rule on names is broken, and a `limits` row with the first limit that all instances together pass.
#![tactic(auto)]

mod row;

use std::io;

fn main(rt: HostRuntime) -> io::Result<()> {
    for line in rt.lines(rt.alloc()) {
        let answered = row::answered(rt.alloc(), line?.as_str())?;
        println!(rt; "{answered}")?;
    }
    Ok(())
}
