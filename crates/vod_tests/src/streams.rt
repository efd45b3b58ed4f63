//! Streams of the system that write little, or fail in mid-stream.
ghost use Rattle.std.specs.Prelude.{◌≤◌, length, IfOk};

use std::alloc::Allocator;
use std::cell::Cell;
use std::fmt::Display;
use std::io;
use std::io::{BufRead, Input, Lines, Print, Read};
use std::test::Fail;
use vod_io::{Failed, FillFault, PrintErr, Sink, StdSink, StdSource, fill, put_all};

// Standard output and error that take at most two bytes a write, nothing at the fourth byte, and fail
// past it. They count what they took.
#[derive(Clone, Copy)]
struct Streams<'a> {
    out: &'a Cell<usize>,
    err: &'a Cell<usize>,
}

fn take_some(taken: &Cell<usize>, bytes: &[u8]) -> io::Result<usize>
    ensures { IfOk result (λ n. n ≤ length bytes.now) }
{
    let before = taken.get();
    let count = match before {
        0..4 => bytes.len().min(2),
        4 => 0,
        _ => return Err(io::Error::from(io::ErrorKind::BrokenPipe)),
    };
    taken.set(before.saturating_add(count));
    Ok(count)
}

impl Print for Streams<'_> {
    fn print<D: Display + Drop>(&self, _value: D) -> io::Result<()> {
        Ok(())
    }

    fn println<D: Display + Drop>(&self, _value: D) -> io::Result<()> {
        Ok(())
    }

    fn write_all(&self, _bytes: &[u8]) -> io::Result<()> {
        Ok(())
    }

    fn write_some(&self, bytes: &[u8]) -> io::Result<usize> {
        take_some(self.out, bytes)
    }
}

impl PrintErr for Streams<'_> {
    fn write_err(&self, bytes: &[u8]) -> io::Result<usize> {
        take_some(self.err, bytes)
    }
}

#[test]
fn standard_streams_are_written_through(rt: HostRuntime) -> Result<(), Fail> {
    for (err, begun, piece, answer, taken) in [
        (false, 0, b"abc".as_slice(), Ok(()), (3, 0)),
        (true, 0, b"abc".as_slice(), Ok(()), (0, 3)),
        (false, 0, b"abcde".as_slice(), Err(Failed), (4, 0)),
        (true, 0, b"".as_slice(), Ok(()), (0, 0)),
        (false, 5, b"a".as_slice(), Err(Failed), (5, 0)),
        (true, 0, [0; 70_000].as_slice(), Err(Failed), (0, 4)),
    ] {
        let counts = (Cell::new(begun), Cell::new(0));
        let streams = Streams {
            out: &counts.0,
            err: &counts.1,
        };
        let mut sink = StdSink::new(streams, err);
        let written = put_all(&mut sink, piece).and_then(|()| sink.flush());
        assert!(rt;
            written == answer && (counts.0.get(), counts.1.get()) == taken,
            "{piece:?}"
        );
    }
    for err in [false, true] {
        let mut sink = StdSink::new(rt, err);
        let written = put_all(&mut sink, b"to a standard stream\n").and_then(|()| sink.flush());
        assert!(rt; written == Ok(()));
    }
    Ok(())
}

// Three bytes, a failed read, and two bytes.
#[derive(Drop)]
struct Broken {
    calls: u64,
}

impl Read for Broken {
    fn read(&mut self, buf: &mut [u8]) -> io::Result<usize> {
        let call = self.calls;
        self.calls = call.saturating_add(1);
        let next = match call {
            0 => b"abc".as_slice(),
            1 => return Err(io::Error::from(io::ErrorKind::Other)),
            2 => b"de".as_slice(),
            _ => b"".as_slice(),
        };
        let count = buf.len().min(next.len());
        buf[..count].copy_from_slice(&next[..count]);
        Ok(count)
    }
}

impl BufRead for Broken {
    fn fill_buf(&mut self) -> io::Result<&[u8]> {
        Err(io::Error::from(io::ErrorKind::Unsupported))
    }

    fn consume(&mut self, _amount: usize) {}
}

#[derive(Clone, Copy)]
struct Inputs;

impl Input for Inputs {
    type Reader = Broken;

    fn read_line<A: Allocator + Clone>(&self, _buf: &mut String<A>) -> io::Result<usize> {
        Err(io::Error::from(io::ErrorKind::Unsupported))
    }

    fn lines<A: Allocator>(&self, alloc: A) -> Lines<Broken, A> {
        self.reader().lines(alloc)
    }

    fn reader(&self) -> Broken {
        Broken { calls: 0 }
    }
}

#[test]
fn standard_input_is_opened_once(rt: HostRuntime) -> Result<(), Fail> {
    let mut source = StdSource::new(Inputs);
    let begin = fill(rt.alloc(), &mut source, 9).err();
    let rest = fill(rt.alloc(), &mut source, 9)?;
    assert!(rt; begin == Some(FillFault::Read));
    assert!(rt; rest.bytes.as_slice() == b"de".as_slice() && !rest.more);
    Ok(())
}
