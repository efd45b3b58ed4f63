//! Rows over numbers as text and over values of bits: an operation, its operands and what it gives. A value is written as its
//! digits, the upper one first.
#![tactic(auto)]

mod bits;
mod both;
mod four;
mod sized;
mod text;
mod thin;

use rows_digits::named;
use std::io;

/// What the first word of a row names.
#[derive(Clone, Copy)]
enum Layer {
    Text(text::Call),
    Bits,
    Four,
    Sized(sized::Call),
    Both(both::Call),
    Thin,
}

const LAYERS: [(&str, Layer); 21] = [
    ("decimal", Layer::Text(text::Call::Decimal)),
    ("hexadecimal", Layer::Text(text::Call::Hexadecimal)),
    ("based", Layer::Text(text::Call::Based)),
    ("put_decimal", Layer::Text(text::Call::PutDecimal)),
    ("message", Layer::Text(text::Call::Message)),
    ("bits", Layer::Bits),
    ("four", Layer::Four),
    ("word", Layer::Sized(sized::Call::Word)),
    ("constant_word", Layer::Sized(sized::Call::ConstantWord)),
    ("gate", Layer::Sized(sized::Call::Gate)),
    ("wide_gate", Layer::Sized(sized::Call::WideGate)),
    ("case", Layer::Sized(sized::Call::Case)),
    ("choose", Layer::Both(both::Call::Choose)),
    ("mixed", Layer::Both(both::Call::Mixed)),
    ("select", Layer::Both(both::Call::Select)),
    ("part", Layer::Both(both::Call::Part)),
    ("if", Layer::Both(both::Call::If)),
    ("item", Layer::Both(both::Call::Item)),
    ("target", Layer::Both(both::Call::Target)),
    ("target_word", Layer::Both(both::Call::TargetWord)),
    ("thin", Layer::Thin),
];

/// Prints what the call of a row's words gives.
fn answer(rt: &(impl Print + AllocGlobal), words: &[&str]) -> io::Result<()> {
    let [first, rest @ ..] = words else {
        return Ok(());
    };
    match named(first, &LAYERS) {
        Some(Layer::Text(call)) => text::answer(rt, call, rest),
        Some(Layer::Bits) => bits::answer(rt, rest),
        Some(Layer::Four) => four::answer(rt, rest),
        Some(Layer::Sized(call)) => sized::answer(rt, call, rest),
        Some(Layer::Both(call)) => both::answer(rt, call, rest),
        Some(Layer::Thin) => thin::answer(rt, rest),
        None => rt.print(" unknown row"),
    }
}

/// Prints a line, and behind a row what it gives.
fn row(rt: &(impl Print + AllocGlobal), line: &str) -> io::Result<()> {
    if line.is_empty() || line.starts_with('#') {
        return rt.println(line);
    }
    let words: Vec<&str> = line.split_whitespace().collect(rt.alloc())?;
    print!(rt; "{line} ->")?;
    answer(rt, words.as_slice())?;
    rt.println("")
}

fn main(rt: HostRuntime) -> io::Result<()> {
    for line in rt.lines(rt.alloc()) {
        row(&rt, line?.as_str())?;
    }
    Ok(())
}
