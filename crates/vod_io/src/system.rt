ghost use Rattle.std.specs.Prelude.{◌≡◌, ◌≤◌, ◌<◌, ◌+◌, None, length, IfOk};
ghost use Rattle.std.specs.String.{string_bytes};
ghost use Rattle.vod_io.specs.Faults.{HasCause};

use crate::{Failed, Sink, Source};
use std::fs::{File, Files};
use std::io;
use std::io::{Input, Print, Read};
use std::marker::Model;

/// A file of the system as a source, which doesn't tell what is left.
#[derive(Drop)]
pub struct FileSource<R: Files> {
    rt: R,
    path: String,
    file: Option<R::File>,
    faults: u64,
}

impl<R: Files> Model for FileSource<R> {
    ghost use Rattle.std.specs.String.{string_bytes};
    ghost use Rattle.vod_io.specs.System.{FileView};

    ghost Value = { FileView };

    ghost view = { λ s. record { path = string_bytes s.path; faults = s.faults } };
}

impl<R: Files> FileSource<R> {
    /// The file at `path`, which the first read opens.
    pub fn new(rt: R, path: String) -> FileSource<R>
        ensures { result ≡ record { path = string_bytes path; faults = 0 } }
    {
        FileSource {
            rt,
            path,
            file: None,
            faults: 0,
        }
    }
}

impl<R: Files> Source for FileSource<R> {
    ghost left = { λ _. None };

    ghost faults = { λ s. s.faults };

    fn read(&mut self, buf: &mut [u8]) -> Result<usize, Failed> {
        match read_file(&self.rt, self.path.as_str(), &mut self.file, buf) {
            Ok(count) => Ok(count),
            Err(_) => {
                self.faults = self.faults.saturating_add(1);
                Err(Failed)
            }
        }
    }
}

// Reads from the file, which is opened where it isn't open yet.
fn read_file<R: Files>(
    rt: &R,
    path: &str,
    file: &mut Option<R::File>,
    buf: &mut [u8],
) -> io::Result<usize>
    ensures { IfOk result (λ n. n ≤ length buf.old) }
{
    match file {
        Some(open) => open.read(buf),
        None => {
            let mut open = File::open(rt, path)?;
            let count = open.read(buf);
            *file = Some(open);
            count
        }
    }
}

/// Standard input as a source, which doesn't tell what is left. Contracts see its count of faults.
#[derive(Drop)]
pub struct StdSource<R: Input> {
    rt: R,
    reader: Option<R::Reader>,
    faults: u64,
}

impl<R: Input> Model for StdSource<R> {
    ghost use Rattle.std.specs.Prelude.{ℕ};

    ghost Value = { ℕ };

    ghost view = { λ s. s.faults };
}

impl<R: Input> StdSource<R> {
    /// Standard input, which the first read opens.
    pub fn new(rt: R) -> StdSource<R>
        ensures { result ≡ 0 }
    {
        StdSource {
            rt,
            reader: None,
            faults: 0,
        }
    }
}

impl<R: Input> Source for StdSource<R> {
    ghost left = { λ _. None };

    ghost faults = { λ s. s };

    fn read(&mut self, buf: &mut [u8]) -> Result<usize, Failed> {
        match read_input(&self.rt, &mut self.reader, buf) {
            Ok(count) => Ok(count),
            Err(_) => {
                self.faults = self.faults.saturating_add(1);
                Err(Failed)
            }
        }
    }
}

// Reads from standard input, which is opened where it isn't open yet.
fn read_input<R: Input>(rt: &R, reader: &mut Option<R::Reader>, buf: &mut [u8]) -> io::Result<usize>
    ensures { IfOk result (λ n. n ≤ length buf.old) }
{
    match reader {
        Some(open) => open.read(buf),
        None => {
            let mut open = rt.reader();
            let count = open.read(buf);
            *reader = Some(open);
            count
        }
    }
}

/// A runtime that writes bytes to standard error, as `Print` does to standard output.
pub trait PrintErr {
    /// Writes some of the bytes and answers how many, or fails and has written none.
    fn write_err(&self, bytes: &[u8]) -> io::Result<usize>
        ensures { IfOk result (λ n. n ≤ length bytes.now) };
}

impl PrintErr for HostRuntime {
    fn write_err(&self, bytes: &[u8]) -> io::Result<usize> {
        self.stderr().write_some(bytes)
    }
}

/// How many bytes a standard stream gathers before it writes them.
const GATHERED: usize = 65_536;

/// Standard output or standard error as a sink, which gathers up to 65,536 bytes, until it is flushed. It doesn't tell what it took.
#[derive(Drop)]
pub struct StdSink<R: Print + PrintErr> {
    rt: R,
    err: bool,
    gathered: [u8; GATHERED],
    // How many bytes are gathered.
    len: usize,
    faults: u64,
}

impl<R: Print + PrintErr> Model for StdSink<R> {
    ghost use Rattle.std.specs.Prelude.{◌≤◌};
    ghost use Rattle.vod_io.specs.System.{StreamView};

    ghost Value = { StreamView };

    ghost view = { λ s. record { err = s.err; faults = s.faults } };

    ghost invariant = { λ s. s.len ≤ 65536 };
}

impl<R: Print + PrintErr> StdSink<R> {
    /// Standard error where `err` is true, and else standard output.
    pub fn new(rt: R, err: bool) -> StdSink<R>
        ensures { result ≡ record { err = err; faults = 0 } }
    {
        StdSink {
            rt,
            err,
            gathered: [0; GATHERED],
            len: 0,
            faults: 0,
        }
    }

    // Where the next byte is gathered; where there is no room, those that are gathered are written first.
    fn free_place(&mut self) -> Result<usize, Failed>
        ensures within { IfOk result (λ at. at < 65536) }
        ensures caused { HasCause self.old.faults self.new.faults result }
    {
        if self.len < GATHERED {
            return Ok(self.len);
        }
        self.flush()?;
        Ok(0)
    }
}

// Writes some of the bytes to standard error where `err` is true, and else to standard output.
fn write_stream<R: Print + PrintErr>(rt: &R, err: bool, bytes: &[u8]) -> io::Result<usize>
    ensures { IfOk result (λ n. n ≤ length bytes.now) }
{
    if err {
        rt.write_err(bytes)
    } else {
        rt.write_some(bytes)
    }
}

// Writes all the bytes; a stream that takes none of them fails.
fn write_through<R: Print + PrintErr>(rt: &R, err: bool, bytes: &[u8]) -> Result<(), Failed> {
    let mut rest = bytes;
    while !rest.is_empty() {
        match write_stream(rt, err, rest) {
            Ok(count) if count > 0 => rest = &rest[count..],
            _ => return Err(Failed),
        }
    }
    Ok(())
}

// Puts as many of the bytes as there is room for behind those gathered, and answers how many.
fn gather(gathered: &mut [u8], len: usize, piece: &[u8]) -> usize
    requires { len < length gathered.old }
    ensures within { result ≤ length piece.now }
    ensures some { 0 < length piece.now → 0 < result }
    ensures room { len + result ≤ length gathered.old }
{
    let count = piece.len().min(gathered.len() - len);
    gathered[len..len + count].copy_from_slice(&piece[..count]);
    count
}

impl<R: Print + PrintErr> Sink for StdSink<R> {
    ghost taken = { λ _. None };

    ghost faults = { λ s. s.faults };

    fn write(&mut self, piece: &[u8]) -> Result<usize, Failed> {
        let at = self.free_place()?;
        let count = gather(&mut self.gathered, at, piece);
        self.len = at + count;
        Ok(count)
    }

    fn flush(&mut self) -> Result<(), Failed> {
        let len = self.len;
        self.len = 0;
        match write_through(&self.rt, self.err, &self.gathered[..len]) {
            Ok(()) => Ok(()),
            Err(Failed) => {
                self.faults = self.faults.saturating_add(1);
                Err(Failed)
            }
        }
    }
}
