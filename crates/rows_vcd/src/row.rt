//! A row: a design and the calls of a writer.

use crate::calls::written;
use crate::parts::{cut, precision, scopes, signals};
use rows_idle::design;
use rows_text::{Page, unescaped};
use std::alloc::{AllocError, Global};
use std::str;
use vod_design::Design;
use vod_io::MemSink;
use vod_vcd::Writer;

/// The most bytes of a text.
const ROOM: usize = 65_536;

/// A row with its answer; a comment and an empty row as they are.
pub fn answered(alloc: Global, row: &str) -> Result<String, AllocError> {
    let text = String::from_str(alloc, row)?;
    if row.is_empty() || row.starts_with('#') {
        return Ok(text);
    }
    let mut page = Page::new(text);
    page.put("\n");
    answer(alloc, &mut page, row)?;
    page.finish()
}

fn answer(alloc: Global, page: &mut Page, row: &str) -> Result<(), AllocError> {
    let (way, rest) = cut(row, '|');
    let (source, rest) = cut(rest, '|');
    let (scale, rest) = cut(rest, '|');
    let source = unescaped(alloc, source.as_bytes())?;
    let Some(precision) = precision(scale) else {
        page.put("no unit");
        return Ok(());
    };
    let (instances, rest) = cut(rest, '|');
    let (words, rest) = cut(rest, '|');
    let signals = signals(alloc, words)?;
    let scopes = scopes(alloc, instances)?;
    match design(alloc, signals, scopes, precision)? {
        Some(design) => show(alloc, page, way, source.as_slice(), &design, rest),
        None => {
            page.put("no design");
            Ok(())
        }
    }
}

fn sink(alloc: Global, way: &str) -> Result<MemSink, AllocError> {
    let mut fails = Vec::new(alloc);
    if let Some(call) = way.strip_prefix("fails ") {
        fails.push(call.parse().unwrap_or(0))?;
    }
    match MemSink::new(alloc, ROOM, fails) {
        Ok(sink) => Ok(sink),
        Err(_) => Err(AllocError),
    }
}

fn show(
    alloc: Global,
    page: &mut Page,
    way: &str,
    source: &[u8],
    design: &Design,
    rest: &str,
) -> Result<(), AllocError> {
    let mut out = sink(alloc, way)?;
    let Ok(mut writer) = Writer::new(alloc, design, source) else {
        return Err(AllocError);
    };
    let signals = design.signals().len();
    let (opening, calls) = cut(rest, '|');
    let began = way == "values" || writer.header(&mut out).is_ok();
    let fine = began && written(alloc, &mut writer, signals, opening, calls, &mut out)?;
    page.put(str::from_utf8(out.taken()).unwrap_or("?"));
    if !fine {
        page.put("failed\n");
    }
    Ok(())
}
