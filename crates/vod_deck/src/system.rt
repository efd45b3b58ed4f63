ghost use Rattle.std.specs.Prelude.{◌≡◌, length, OnOk};
ghost use Rattle.std.specs.String.{string_bytes};
ghost use Rattle.vod_deck.specs.System.{untold};
ghost use Rattle.vod_deck.specs.Untold.{untold-counts_now, untold-only_now};

use crate::Deck;
use std::fs::{Files, OpenFile, OpenOptions};
use std::io;
use std::io::{Print, Read, Seek, SeekFrom, Write};
use std::marker::Model;
use vod_io::Failed;

/// A file of the system beside standard output. It tells its counts alone.
#[derive(Drop)]
pub struct FileDeck<R: Files + Print> {
    rt: R,
    path: String,
    writes: bool,
    file: Option<R::File>,
    faults: u64,
    bytes_read: u64,
}

impl<R: Files + Print> Model for FileDeck<R> {
    ghost use Rattle.std.specs.String.{string_bytes};
    ghost use Rattle.vod_deck.specs.System.{FileView};

    ghost Value = { FileView };

    ghost view = { λ s. record { path = string_bytes s.path; writes = s.writes; faults = s.faults; bytes_read = s.bytes_read } };
}

impl<R: Files + Print> FileDeck<R> {
    /// The file at `path`, which the first call that needs it opens, and standard output. Where
    /// `writes`, the file is opened for writing too, and created where there is none.
    pub fn new(rt: R, path: String, writes: bool) -> FileDeck<R>
        ensures { result ≡ record { path = string_bytes path; writes = writes; faults = 0; bytes_read = 0 } }
    {
        FileDeck {
            rt,
            path,
            writes,
            file: None,
            faults: 0,
            bytes_read: 0,
        }
    }
}

// The file, which is opened where it isn't open yet. It is taken out.
fn take_file<R: Files>(
    rt: &R,
    path: &str,
    writes: bool,
    file: &mut Option<R::File>,
) -> io::Result<R::File> {
    match file.take() {
        Some(open) => Ok(open),
        None => OpenOptions::new()
            .read(true)
            .write(writes)
            .create(writes)
            .open(rt, path),
    }
}

fn file_len<R: Files>(
    rt: &R,
    path: &str,
    writes: bool,
    file: &mut Option<R::File>,
) -> io::Result<u64> {
    let open = take_file(rt, path, writes, file)?;
    let metadata = open.metadata();
    *file = Some(open);
    Ok(metadata?.len())
}

fn read_file<R: Files>(
    rt: &R,
    path: &str,
    writes: bool,
    file: &mut Option<R::File>,
    at: u64,
    buf: &mut [u8],
) -> io::Result<()> {
    let mut open = take_file(rt, path, writes, file)?;
    let done = read_range(&mut open, at, buf);
    *file = Some(open);
    done
}

fn read_range<F: Read + Seek>(file: &mut F, at: u64, buf: &mut [u8]) -> io::Result<()> {
    file.seek(SeekFrom::Start(at))?;
    file.read_exact(buf)
}

fn write_file<R: Files>(
    rt: &R,
    path: &str,
    writes: bool,
    file: &mut Option<R::File>,
    at: u64,
    bytes: &[u8],
) -> io::Result<()> {
    let mut open = take_file(rt, path, writes, file)?;
    let done = write_range(&mut open, at, bytes);
    *file = Some(open);
    done
}

fn write_range<F: Write + Seek>(file: &mut F, at: u64, bytes: &[u8]) -> io::Result<()> {
    file.seek(SeekFrom::Start(at))?;
    file.write_all(bytes)
}

fn sync_file<R: Files>(
    rt: &R,
    path: &str,
    writes: bool,
    file: &mut Option<R::File>,
) -> io::Result<()> {
    let open = take_file(rt, path, writes, file)?;
    let done = open.sync_all();
    *file = Some(open);
    done
}

impl<R: Files + Print> Deck for FileDeck<R> {
    ghost tells = { ⊥ };

    ghost view = { untold };

    ghost counts_now = { untold-counts_now };

    ghost only_now = { untold-only_now };

    fn len(&mut self) -> Result<u64, Failed> {
        match file_len(&self.rt, self.path.as_str(), self.writes, &mut self.file) {
            Ok(len) => Ok(len),
            Err(_) => {
                self.faults = self.faults.saturating_add(1);
                Err(Failed)
            }
        }
    }

    fn read_at(&mut self, at: u64, buf: &mut [u8]) -> Result<(), Failed> {
        // What a read that fails has read is counted as the whole.
        self.bytes_read = self.bytes_read.saturating_add(buf.len() as u64);
        match read_file(
            &self.rt,
            self.path.as_str(),
            self.writes,
            &mut self.file,
            at,
            buf,
        ) {
            Ok(()) => Ok(()),
            Err(_) => {
                self.faults = self.faults.saturating_add(1);
                Err(Failed)
            }
        }
    }

    fn write_at(&mut self, at: u64, bytes: &[u8]) -> Result<(), Failed> {
        match write_file(
            &self.rt,
            self.path.as_str(),
            self.writes,
            &mut self.file,
            at,
            bytes,
        ) {
            Ok(()) => Ok(()),
            Err(_) => {
                self.faults = self.faults.saturating_add(1);
                Err(Failed)
            }
        }
    }

    fn sync(&mut self) -> Result<(), Failed> {
        match sync_file(&self.rt, self.path.as_str(), self.writes, &mut self.file) {
            Ok(()) => Ok(()),
            Err(_) => {
                self.faults = self.faults.saturating_add(1);
                Err(Failed)
            }
        }
    }

    fn say(&mut self, text: &[u8]) -> Result<(), Failed> {
        match self.rt.write_all(text) {
            Ok(()) => Ok(()),
            Err(_) => {
                self.faults = self.faults.saturating_add(1);
                Err(Failed)
            }
        }
    }

    fn lives(&self) {}
}
