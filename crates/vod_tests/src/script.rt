//! A script of the most bytes, and one of a byte more.

use std::alloc::{AllocError, Global};
use std::test::Fail;
use vod_thin::read_thin;
use vod_thin_script::{ScriptFault, read_script};

// A first line, and lines of 24 bytes.
fn long(alloc: Global, first: &str) -> Result<String, AllocError> {
    let mut script = String::from_str(alloc, first)?;
    for time in 2..43_692 {
        script.push_str(format!(in alloc; "{time:019} a=0\n")?.as_str())?;
    }
    Ok(script)
}

#[test]
fn scripts_have_at_most_a_mebibyte(rt: HostRuntime) -> Result<(), Fail> {
    let alloc = rt.alloc();
    let design = read_thin(alloc, b"module g (input a, input b); endmodule", false)?;
    for (first, size, answer) in [
        ("0000001 a=1 b=0\n", 1_048_576, Ok(43_691)),
        (
            "00000001 a=1 b=0\n",
            1_048_577,
            Err(ScriptFault::Refused { line: 0 }),
        ),
    ] {
        let script = long(alloc, first)?;
        let read = read_script(alloc, &design, script.as_bytes());
        let count = read.map(|past| past.vectors().len());
        assert!(rt; script.len() == size && count == answer, "{size} bytes");
    }
    Ok(())
}
