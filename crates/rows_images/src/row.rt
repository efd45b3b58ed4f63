//! A row: an operation, the signals of a design, and an image.

use rows_idle::design;
use rows_text::{Page, unescaped};
use std::alloc::{AllocError, Global};
use std::str;
use vod_design::{Design, Edges, Image, Name, Precision, Scope, Signal, Unit, Words};

/// What is asked of a design.
#[derive(Clone, Copy)]
enum Question {
    Blank,
    Fit,
}

fn question_of(word: &str) -> Option<Question> {
    match word {
        "blank" => Some(Question::Blank),
        "fit" => Some(Question::Fit),
        _ => None,
    }
}

/// A row with its answer; a comment and an empty row as they are.
pub fn answered(alloc: Global, row: &str) -> Result<String, AllocError> {
    let text = String::from_str(alloc, row)?;
    if row.is_empty() || row.starts_with('#') {
        return Ok(text);
    }
    let mut page = Page::new(text);
    page.put(" ->");
    answer(alloc, &mut page, row)?;
    page.finish()
}

fn answer(alloc: Global, page: &mut Page, row: &str) -> Result<(), AllocError> {
    let (word, text) = row.split_once(' ').unwrap_or((row, ""));
    let Some(question) = question_of(word) else {
        page.word("unknown row");
        return Ok(());
    };
    let bytes = unescaped(alloc, text.as_bytes())?;
    let words = str::from_utf8(bytes.as_slice()).unwrap_or("");
    let (signals, image) = words.split_once('|').unwrap_or((words, ""));
    match design_of(alloc, signals)? {
        Some(design) => show(alloc, page, question, &design, image),
        None => {
            page.word("no design");
            Ok(())
        }
    }
}

fn show(
    alloc: Global,
    page: &mut Page,
    question: Question,
    design: &Design,
    image: &str,
) -> Result<(), AllocError> {
    match question {
        Question::Blank => show_blank(alloc, page, design),
        Question::Fit => return show_fit(alloc, page, design, image),
    }
    Ok(())
}

fn show_blank(alloc: Global, page: &mut Page, design: &Design) {
    match Image::blank(alloc, design) {
        Ok(image) => show_image(page, design, &image),
        Err(memory) => page.shown(&memory),
    }
}

fn show_image(page: &mut Page, design: &Design, image: &Image) {
    page.placed("registers", image.regs.as_slice().len() as u64);
    page.placed("words", image.words.as_slice().len() as u64);
    page.placed("given", image.given.as_slice().len() as u64);
    page.placed("edges", image.edges.as_slice().len() as u64);
    page.placed("sum", sum(image.regs.as_slice()));
    page.shown(&image.fit(design));
}

/// The sum of numbers, as far as it goes.
fn sum(numbers: &[u64]) -> u64 {
    let mut sum: u64 = 0;
    for number in numbers {
        sum = sum.saturating_add(*number);
    }
    sum
}

fn show_fit(
    alloc: Global,
    page: &mut Page,
    design: &Design,
    image: &str,
) -> Result<(), AllocError> {
    let (registers, inputs) = image.split_once('|').unwrap_or((image, ""));
    let regs = numbers(alloc, registers)?;
    let given = numbers(alloc, inputs)?;
    let image = Image {
        regs,
        words: Words::new(Vec::new(alloc)),
        given,
        edges: Edges::new(Vec::new(alloc)),
    };
    page.shown(&image.fit(design));
    Ok(())
}

/// The numbers of a text.
fn numbers(alloc: Global, text: &str) -> Result<Words, AllocError> {
    let mut list = Vec::new(alloc);
    for word in text.split(' ') {
        if let Ok(number) = word.parse() {
            list.push(number)?;
        }
    }
    Ok(Words::new(list))
}

/// The design that has these signals in its top.
fn design_of(alloc: Global, words: &str) -> Result<Option<Design>, AllocError> {
    let signals = signals_of(alloc, words)?;
    let mut scopes = Vec::with_capacity(alloc, 1)?;
    let name = name(alloc)?;
    scopes.push(Scope { name, parent: None })?;
    let precision = Precision {
        count: 1,
        unit: Unit::Ns,
    };
    design(alloc, signals, scopes, precision)
}

fn signals_of(alloc: Global, words: &str) -> Result<Vec<Signal>, AllocError> {
    let mut signals = Vec::new(alloc);
    for word in words.split(' ') {
        if let Some((width, register)) = signal_at(word) {
            let name = name(alloc)?;
            signals.push(signal(name, width, register))?;
        }
    }
    Ok(signals)
}

fn signal(name: Name, width: u8, register: bool) -> Signal {
    Signal {
        name,
        scope: 0,
        width,
        lsb: 0,
        ranged: width != 1,
        register,
    }
}

/// A name, which all share.
fn name(alloc: Global) -> Result<Name, AllocError> {
    let bytes = Vec::from_slice(alloc, b"s")?;
    Ok(Name::new(bytes))
}

/// A width, and whether it is a register's.
fn signal_at(word: &str) -> Option<(u8, bool)> {
    let (digits, kind) = word.split_at_checked(word.len().saturating_sub(1))?;
    let width = digits.parse().ok()?;
    Some((width, kind == "r"))
}
