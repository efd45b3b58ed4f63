//! A row: an operation, and what it is tried on. A row `design` reads a design, and the scripts of the rows behind it are of this
//! one.
ghost use Rattle.std.specs.Prelude.{◌≤◌, ◌^◌, length, IfOk};
ghost use Rattle.vod_thin_design.specs.Names.{HasPlainNames};

use crate::dump::{show_dump, show_window, show_writes};
use crate::netlist::show_design;
use crate::run::show_run;
use crate::script::{show_added, show_script};
use crate::sentence::show_sentence;
use rows_text::{Page, number_at, unescaped};
use std::alloc::{AllocError, Global};
use vod_thin::{ThinFault, read_thin};
use vod_thin_design::Design;
use vod_thin_window::Window;

/// The most bytes of a source.
const MOST_BYTES: usize = 1_048_576;

/// What is printed for a longer one.
const LONGER: &str = "longer than 1,048,576 bytes";

/// What is tried.
#[derive(Clone, Copy)]
enum Operation {
    /// The sentence of a source.
    Sentence,
    /// The design of a source.
    Design,
    /// The vectors of a script.
    Script,
    /// A further vector behind those of a script.
    Add,
    /// The full dump over a script.
    Dump,
    /// A window of it.
    Window,
    /// The run over a script, in an order of events.
    Run,
    /// What the writer of dumps writes.
    Writes,
}

fn operation_of(word: &str) -> Option<Operation> {
    match word {
        "sentence" => Some(Operation::Sentence),
        "design" => Some(Operation::Design),
        "script" => Some(Operation::Script),
        "add" => Some(Operation::Add),
        "dump" => Some(Operation::Dump),
        "window" => Some(Operation::Window),
        "run" => Some(Operation::Run),
        "writes" => Some(Operation::Writes),
        _ => None,
    }
}

/// A row with its answer; a comment and an empty row as they are.
pub fn answered(alloc: Global, design: &mut Vec<u8>, row: &str) -> Result<String, AllocError> {
    let text = String::from_str(alloc, row)?;
    if row.is_empty() || row.starts_with('#') {
        return Ok(text);
    }
    let mut page = Page::new(text);
    page.put(" ->");
    let (word, rest) = row.split_once(' ').unwrap_or((row, ""));
    match operation_of(word) {
        Some(operation) => answer(alloc, &mut page, design, operation, rest.as_bytes())?,
        None => page.word("unknown row"),
    }
    page.finish()
}

fn answer(
    alloc: Global,
    page: &mut Page,
    design: &mut Vec<u8>,
    operation: Operation,
    text: &[u8],
) -> Result<(), AllocError> {
    match operation {
        Operation::Sentence => {
            show_source(alloc, page, unescaped(alloc, text)?.as_slice());
            Ok(())
        }
        Operation::Design => {
            *design = unescaped(alloc, text)?;
            show_tried(alloc, page, design.as_slice(), operation, b"")
        }
        _ => show_tried(alloc, page, design.as_slice(), operation, text),
    }
}

/// The sentence of a source.
fn show_source(alloc: Global, page: &mut Page, source: &[u8]) {
    if source.len() > MOST_BYTES {
        page.word(LONGER);
    } else {
        show_sentence(alloc, page, source);
    }
}

/// The design of a source.
fn design_of(alloc: Global, source: &[u8]) -> Result<Design, ThinFault>
    requires { length source.now ≤ 2 ^ 20 }
    ensures { IfOk result (λ design. HasPlainNames design) }
{
    let design = read_thin(alloc, source, false)?;
    Ok(design)
}

/// What is tried on a design.
fn show_tried(
    alloc: Global,
    page: &mut Page,
    source: &[u8],
    operation: Operation,
    text: &[u8],
) -> Result<(), AllocError> {
    if source.len() > MOST_BYTES {
        page.word(LONGER);
        return Ok(());
    }
    match &design_of(alloc, source) {
        Ok(design) => show_operation(alloc, page, source, design, operation, text),
        Err(fault) => {
            show_fault(page, *fault);
            Ok(())
        }
    }
}

fn show_fault(page: &mut Page, fault: ThinFault) {
    match fault {
        ThinFault::At(place) => page.placed("At", u64::from(place)),
        ThinFault::Memory => page.word("Memory"),
    }
}

fn show_operation(
    alloc: Global,
    page: &mut Page,
    source: &[u8],
    design: &Design,
    operation: Operation,
    text: &[u8],
) -> Result<(), AllocError>
    requires { HasPlainNames design.now }
{
    let (first, second, text) = numbers_of(operation, text);
    let script = unescaped(alloc, text)?;
    let script = script.as_slice();
    match operation {
        Operation::Sentence | Operation::Design => show_design(page, design),
        Operation::Script => show_script(alloc, page, design, script),
        Operation::Run => show_run(alloc, page, design, pick_of(first), script),
        Operation::Writes => return show_writes(alloc, page, source, design, script),
        Operation::Dump => return show_dump(alloc, page, source, design, script),
        Operation::Add => return show_added(alloc, page, design, first, second > 0, script),
        Operation::Window => {
            let window = Window {
                from: first,
                to: second,
            };
            return show_window(alloc, page, source, design, window, script);
        }
    }
    Ok(())
}

/// The pick that a number is.
fn pick_of(number: u64) -> u32 {
    u32::try_from(number).unwrap_or(u32::MAX)
}

/// The numbers that stand before a script, and the script.
fn numbers_of(operation: Operation, text: &[u8]) -> (u64, u64, &[u8]) {
    match operation {
        Operation::Run => {
            let (pick, script) = number_at(text);
            (pick, 0, script)
        }
        Operation::Add | Operation::Window => {
            let (first, behind) = number_at(text);
            let (second, script) = number_at(behind);
            (first, second, script)
        }
        _ => (0, 0, text),
    }
}
