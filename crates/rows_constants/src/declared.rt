//! What the items of a module declare.
use rows_text::Page;
use std::alloc::{AllocError, Global};
use vod_constants::{Given, memory_words, parameter, vector_span};
use vod_design::Named;
use vod_operand::Fault;
use vod_tree::{ItemKind, Module, ParameterDeclaration, Range, RegDeclaration, Register};
use vod_width::{Declared, Decls, WidthFault};

pub fn show_module(
    alloc: Global,
    page: &mut Page,
    given: &Given,
    module: &Module,
) -> Result<(), AllocError> {
    let mut decls: Decls<'_> = Decls::new(alloc);
    for item in module.items.as_slice() {
        match &item.kind {
            ItemKind::Parameter(d) => show_parameters(alloc, page, given, d, &mut decls)?,
            ItemKind::Localparam(d) => {
                show_parameters(alloc, page, &Given::Default, d, &mut decls)?;
            }
            ItemKind::Reg(d) => show_registers(alloc, page, d, &decls),
            _ => page.word("other"),
        }
    }
    Ok(())
}

fn show_parameters<'s>(
    alloc: Global,
    page: &mut Page,
    given: &Given,
    d: &'s ParameterDeclaration,
    decls: &mut Decls<'s>,
) -> Result<(), AllocError> {
    for setting in d.settings.as_slice() {
        let formed = parameter(alloc, &d.kind, &setting.value, *given, decls)?;
        page.put(" ");
        page.put_bytes(setting.name.name.as_slice());
        show_declared(page, &formed.declared);
        show_fault(page, formed.fault);
        decls.add(setting.name.name.as_slice(), formed.declared)?;
    }
    Ok(())
}

/// `=`, the value, how many bits it has, its sign and the index of its lowest bit.
fn show_declared(page: &mut Page, declared: &Declared) {
    match declared {
        Declared::Vector(v) => {
            if let Named::Constant(bits) = v.name {
                page.put("=");
                page.put_shown(&bits.word);
            }
            page.shown(&v.width);
            page.word(if v.signed { "signed" } else { "unsigned" });
            page.placed("from", u64::from(v.lsb));
        }
        _ => page.word("open"),
    }
}

fn show_fault(page: &mut Page, fault: Option<Fault>) {
    match fault {
        Some(Fault::Rule(place)) => page.placed("A4", u64::from(place)),
        Some(Fault::Width(place)) => page.placed("Width", u64::from(place)),
        Some(Fault::Open) => page.word("hangs"),
        None => {}
    }
}

fn show_refusal(page: &mut Page, refusal: WidthFault) {
    match refusal {
        WidthFault::Rule { place } => page.placed("A4", u64::from(place)),
        WidthFault::Width { place } => page.placed("Width", u64::from(place)),
        WidthFault::Open => page.word("hangs"),
        WidthFault::Memory => page.word("there was no memory"),
    }
}

fn show_registers(alloc: Global, page: &mut Page, d: &RegDeclaration, decls: &Decls<'_>) {
    if let Some(range) = &d.range {
        show_span(alloc, page, range, decls);
    }
    for register in d.registers.as_slice() {
        if let Register::Ram(_, bounds) = register {
            show_words(alloc, page, bounds, decls);
        }
    }
}

fn show_span(alloc: Global, page: &mut Page, range: &Range, decls: &Decls<'_>) {
    match vector_span(alloc, range, decls) {
        Ok(span) => {
            page.placed("bits", u64::from(span.width));
            page.placed("from", u64::from(span.lsb));
        }
        Err(refusal) => show_refusal(page, refusal),
    }
}

fn show_words(alloc: Global, page: &mut Page, bounds: &Range, decls: &Decls<'_>) {
    match memory_words(alloc, bounds, decls) {
        Ok(words) => {
            page.placed("words", u64::from(words.low));
            page.placed("to", u64::from(words.high));
        }
        Err(refusal) => show_refusal(page, refusal),
    }
}
