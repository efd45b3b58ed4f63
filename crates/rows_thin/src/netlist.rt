//! Designs: the module's name, its signals and their kinds, its inputs and their classes, and its drivers, blocks and initial
//! values, by the names of the signals.
use rows_text::Page;
use vod_thin_design::{Bit, Class, Design, Expr};

/// The parts of a design.
pub fn show_design(page: &mut Page, design: &Design) {
    page.put(" ");
    page.put_bytes(design.name());
    show_signals(page, design);
    show_inputs(page, design);
    show_drivers(page, design);
    show_blocks(page, design);
    show_initials(page, design);
}

/// The name of a signal.
fn name_of(design: &Design, signal: u32) -> &[u8] {
    match design.signals().get(signal as usize) {
        Some(signal) => signal.name.as_slice(),
        None => b"?",
    }
}

/// The name of an input.
pub fn input_name(design: &Design, input: u32) -> &[u8] {
    match design.inputs().get(input as usize) {
        Some(input) => name_of(design, input.signal),
        None => b"?",
    }
}

/// The digit of a bit.
pub fn digit_of(bit: Bit) -> &'static str {
    match bit {
        Bit::Zero => "0",
        Bit::One => "1",
        Bit::X => "x",
        Bit::Z => "z",
    }
}

fn show_name(page: &mut Page, name: &[u8]) {
    page.put(" ");
    page.put_bytes(name);
}

fn show_signals(page: &mut Page, design: &Design) {
    for signal in design.signals() {
        page.open(if signal.register { "reg" } else { "net" });
        show_name(page, signal.name.as_slice());
        page.close();
    }
}

fn show_inputs(page: &mut Page, design: &Design) {
    for input in design.inputs() {
        page.open(class_word(input.class));
        show_name(page, name_of(design, input.signal));
        page.close();
    }
}

fn class_word(class: Class) -> &'static str {
    match class {
        Class::Clock => "clock",
        Class::Data => "data",
    }
}

fn show_drivers(page: &mut Page, design: &Design) {
    for driver in design.drivers() {
        page.open("assign");
        show_name(page, name_of(design, driver.target));
        show_value(page, design, &driver.value);
        page.close();
    }
}

fn show_blocks(page: &mut Page, design: &Design) {
    for block in design.blocks() {
        page.open("posedge");
        show_name(page, name_of(design, block.clock));
        show_name(page, name_of(design, block.register));
        show_value(page, design, &block.value);
        page.close();
    }
}

fn show_initials(page: &mut Page, design: &Design) {
    for initial in design.initials() {
        page.open("initial");
        show_name(page, name_of(design, initial.register));
        page.word(digit_of(initial.value));
        page.close();
    }
}

/// A right side, with each operator before its operands.
fn show_value(page: &mut Page, design: &Design, value: &Expr) {
    match value {
        Expr::Signal(signal) => show_name(page, name_of(design, *signal)),
        Expr::Not(a) => {
            page.open("~");
            show_value(page, design, a.get());
            page.close();
        }
        Expr::And(a, b) | Expr::Xor(a, b) | Expr::Or(a, b) => {
            page.open(word_of(value));
            show_value(page, design, a.get());
            show_value(page, design, b.get());
            page.close();
        }
    }
}

fn word_of(value: &Expr) -> &'static str {
    match value {
        Expr::Signal(_) => "signal",
        Expr::Not(_) => "~",
        Expr::And(_, _) => "&",
        Expr::Xor(_, _) => "^",
        Expr::Or(_, _) => "|",
    }
}
