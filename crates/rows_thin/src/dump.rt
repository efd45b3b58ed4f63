//! Dumps and windows, and what their writer writes.
ghost use Rattle.std.specs.Prelude.{◌≡◌};
ghost use Rattle.vod_thin_design.specs.Names.{HasPlainNames};

use rows_text::{Page, number_at};
use std::alloc::{AllocError, Global};
use vod_io::{Failed, MemSink};
use vod_thin_design::{Bit, Design};
use vod_thin_script::read_script;
use vod_thin_vcd::Writer;
use vod_thin_window::{Window, WindowFault, write_dump, write_window};

/// The most bytes of a dump.
const ROOM: usize = 65_536;

fn sink(alloc: Global) -> Result<MemSink, AllocError> {
    match MemSink::new(alloc, ROOM, Vec::new(alloc)) {
        Ok(sink) => Ok(sink),
        Err(_) => Err(AllocError),
    }
}

/// The full dump of the run over a script.
pub fn show_dump(
    alloc: Global,
    page: &mut Page,
    source: &[u8],
    design: &Design,
    script: &[u8],
) -> Result<(), AllocError>
    requires { HasPlainNames design.now }
{
    let mut out = sink(alloc)?;
    match &read_script(alloc, design, script) {
        Ok(past) => {
            let written = write_dump(alloc, source, design, past.vectors(), &mut out);
            show_written(page, written, &out);
        }
        Err(fault) => page.shown(fault),
    }
    Ok(())
}

/// A window of the run over a script.
pub fn show_window(
    alloc: Global,
    page: &mut Page,
    source: &[u8],
    design: &Design,
    window: Window,
    script: &[u8],
) -> Result<(), AllocError>
    requires { HasPlainNames design.now }
{
    let mut out = sink(alloc)?;
    match &read_script(alloc, design, script) {
        Ok(past) => {
            let written = write_window(alloc, source, design, past.vectors(), window, &mut out);
            show_written(page, written, &out);
        }
        Err(fault) => page.shown(fault),
    }
    Ok(())
}

fn show_written(page: &mut Page, written: Result<(), WindowFault>, out: &MemSink) {
    match written {
        Ok(()) => show_text(page, out),
        Err(WindowFault::Write) => page.word("Write"),
        Err(WindowFault::Memory) => page.word("Memory"),
    }
}

fn show_text(page: &mut Page, out: &MemSink) {
    page.put(" ");
    page.put_lines(out.taken());
}

/// What is written of moments, which commas part: the first opens, each is a time and a digit for each signal, and a time alone
/// closes.
pub fn show_writes(
    alloc: Global,
    page: &mut Page,
    source: &[u8],
    design: &Design,
    moments: &[u8],
) -> Result<(), AllocError> {
    let mut out = sink(alloc)?;
    let Ok(mut writer) = Writer::new(alloc, design, source) else {
        return Err(AllocError);
    };
    let signals = design.signals().len();
    match write_moments(alloc, &mut writer, signals, moments, &mut out)? {
        Ok(()) => show_text(page, &out),
        Err(Failed) => page.word("Write"),
    }
    Ok(())
}

fn write_moments(
    alloc: Global,
    writer: &mut Writer,
    signals: usize,
    moments: &[u8],
    out: &mut MemSink,
) -> Result<Result<(), Failed>, AllocError>
    requires { writer.old.signals ≡ signals }
{
    for (number, moment) in moments.split(|byte| *byte == b',').enumerate() {
        let (time, digits) = number_at(moment);
        let values = bits_of(alloc, digits)?;
        if write_moment(writer, signals, number == 0, time, values.as_slice(), out).is_err() {
            return Ok(Err(Failed));
        }
    }
    Ok(Ok(()))
}

fn write_moment(
    writer: &mut Writer,
    signals: usize,
    opens: bool,
    time: u64,
    values: &[Bit],
    out: &mut MemSink,
) -> Result<(), Failed>
    requires { writer.old.signals ≡ signals }
    ensures { writer.new.signals ≡ writer.old.signals }
{
    if values.len() != signals {
        writer.close(time, out)
    } else if opens {
        writer.opening(time, values, out)
    } else {
        writer.slot(time, values, out)
    }
}

/// The bits that digits stand for.
fn bits_of(alloc: Global, digits: &[u8]) -> Result<Vec<Bit>, AllocError> {
    let mut bits = Vec::new(alloc);
    for digit in digits {
        bits.push(bit_of(*digit))?;
    }
    Ok(bits)
}

fn bit_of(digit: u8) -> Bit {
    match digit {
        b'0' => Bit::Zero,
        b'1' => Bit::One,
        b'z' => Bit::Z,
        _ => Bit::X,
    }
}
