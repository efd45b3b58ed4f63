//! The system as a runtime that prints a line on standard output for each call, and then makes it.
ghost use Rattle.std.specs.Prelude.{◌≤◌, length, IfOk};

use std::alloc::Allocator;
use std::fmt::Display;
use std::fs::{File, Files, Metadata, OpenFile, OpenOptions};
use std::io;
use std::io::{ErrorKind, Print, Read, Seek, SeekFrom, Write};
use vod_io::PrintErr;

/// What is wrong with the system.
#[derive(Clone, Copy, PartialEq, Eq)]
pub enum Trouble {
    /// Nothing.
    None,
    /// Reads and writes of files are cut at 1,000 bytes.
    Short,
    /// Calls of this kind fail.
    Fails(Call),
}

/// A call that the program makes on the system.
#[derive(Clone, Copy, PartialEq, Eq)]
pub enum Call {
    /// A file is opened.
    Open,
    /// Its length is asked.
    Len,
    /// It is read from a place on.
    Read,
    /// It is written from a place on.
    Write,
    /// What was written is made to last.
    Sync,
    /// A text is written to standard output, whole.
    Say,
    /// As much of a text as goes is written to standard output.
    Put,
}

/// The system, with a trouble. What the program has no use for is refused.
#[derive(Clone, Copy)]
pub struct Traced {
    rt: HostRuntime,
    trouble: Trouble,
}

impl Traced {
    /// The system with this trouble.
    pub fn new(rt: HostRuntime, trouble: Trouble) -> Traced {
        Traced { rt, trouble }
    }

    /// Ends the line of a call, which may fail.
    fn made(&self, call: Call) -> io::Result<()> {
        if self.trouble == Trouble::Fails(call) {
            self.rt.println(" fails")?;
            return Err(io::Error::from(ErrorKind::Other));
        }
        self.rt.println("")
    }

    /// How many of some bytes a call takes.
    fn room(&self, len: usize) -> usize
        ensures { result ≤ len }
    {
        if self.trouble == Trouble::Short {
            len.min(1000)
        } else {
            len
        }
    }
}

fn refused<T>() -> io::Result<T> {
    Err(io::Error::from(ErrorKind::Unsupported))
}

/// A file of the system, and the place where its next read or write begins.
#[derive(Drop)]
pub struct TracedFile {
    traced: Traced,
    file: File,
    at: u64,
}

impl Read for TracedFile {
    fn read(&mut self, buf: &mut [u8]) -> io::Result<usize> {
        print!(self.traced.rt; "read {} {}", self.at, buf.len())?;
        self.traced.made(Call::Read)?;
        let room = self.traced.room(buf.len());
        let count = self.file.read(&mut buf[..room])?;
        self.at = self.at.saturating_add(count as u64);
        Ok(count)
    }
}

impl Write for TracedFile {
    fn write(&mut self, buf: &[u8]) -> io::Result<usize> {
        print!(self.traced.rt; "write {} {}", self.at, buf.len())?;
        self.traced.made(Call::Write)?;
        let room = self.traced.room(buf.len());
        let count = self.file.write(&buf[..room])?;
        self.at = self.at.saturating_add(count as u64);
        Ok(count)
    }

    fn flush(&mut self) -> io::Result<()> {
        refused()
    }
}

impl Seek for TracedFile {
    fn seek(&mut self, to: SeekFrom) -> io::Result<u64> {
        let at = self.file.seek(to)?;
        self.at = at;
        Ok(at)
    }
}

impl OpenFile for TracedFile {
    fn metadata(&self) -> io::Result<Metadata> {
        self.traced.rt.print("len")?;
        self.traced.made(Call::Len)?;
        self.file.metadata()
    }

    fn set_len(&self, _size: u64) -> io::Result<()> {
        refused()
    }

    fn sync_all(&self) -> io::Result<()> {
        self.traced.rt.print("sync")?;
        self.traced.made(Call::Sync)?;
        self.file.sync_all()
    }

    fn sync_data(&self) -> io::Result<()> {
        refused()
    }
}

/// A word, where it is asked for.
fn asked(asks: bool, word: &'static str) -> &'static str {
    if asks { word } else { "" }
}

impl Files for Traced {
    type File = TracedFile;

    type Dir = TracedFile;

    fn open_file(&self, how: &OpenOptions, path: &str) -> io::Result<TracedFile> {
        print!(self.rt; "open {path}")?;
        self.rt.print(asked(how.asks_read(), " read"))?;
        self.rt.print(asked(how.asks_write(), " write"))?;
        self.rt.print(asked(how.asks_append(), " append"))?;
        self.rt.print(asked(how.asks_truncate(), " truncate"))?;
        self.rt.print(asked(how.asks_create(), " create"))?;
        self.rt.print(asked(how.asks_create_new(), " create_new"))?;
        self.made(Call::Open)?;
        Ok(TracedFile {
            traced: *self,
            file: self.rt.open_file(how, path)?,
            at: 0,
        })
    }

    fn open_dir(&self, _path: &str) -> io::Result<TracedFile> {
        refused()
    }

    fn metadata(&self, _path: &str) -> io::Result<Metadata> {
        refused()
    }

    fn symlink_metadata(&self, _path: &str) -> io::Result<Metadata> {
        refused()
    }

    fn copy(&self, _from: &str, _to: &str) -> io::Result<u64> {
        refused()
    }

    fn rename(&self, _from: &str, _to: &str) -> io::Result<()> {
        refused()
    }

    fn remove_file(&self, _path: &str) -> io::Result<()> {
        refused()
    }

    fn create_dir(&self, _path: &str) -> io::Result<()> {
        refused()
    }

    fn remove_dir(&self, _path: &str) -> io::Result<()> {
        refused()
    }

    fn remove_dir_all<B: Allocator>(&self, _alloc: B, _path: &str) -> io::Result<()> {
        refused()
    }
}

impl Print for Traced {
    fn print<D: Display + Drop>(&self, _value: D) -> io::Result<()> {
        refused()
    }

    fn println<D: Display + Drop>(&self, _value: D) -> io::Result<()> {
        refused()
    }

    fn write_all(&self, bytes: &[u8]) -> io::Result<()> {
        self.rt.print("say")?;
        self.made(Call::Say)?;
        self.rt.write_all(bytes)
    }

    fn write_some(&self, bytes: &[u8]) -> io::Result<usize> {
        if self.trouble == Trouble::Fails(Call::Put) {
            return Err(io::Error::from(ErrorKind::Other));
        }
        self.rt.write_some(bytes)
    }
}

/// What goes to standard error goes to standard output here.
impl PrintErr for Traced {
    fn write_err(&self, bytes: &[u8]) -> io::Result<usize> {
        self.rt.write_some(bytes)
    }
}
