//! What calls say of a tree: the lengths of times, which names of modules come again, and whose kind each part of a header has.
use rows_text::Page;
use std::alloc::{AllocError, Global};
use vod_declaration::{Part, declared_by};
use vod_tree::{
    Directive, DirectiveKind, Function, Item, ItemKind, Module, Name, Ports, SourceItem, Time, Tree,
};

/// What is said of each part of a source.
pub fn show_facts(alloc: Global, page: &mut Page, tree: &Tree) -> Result<(), AllocError> {
    let parts = tree.items.as_slice();
    for (number, part) in parts.iter().enumerate() {
        match part {
            SourceItem::Directive(directive) => show_lengths(page, directive),
            SourceItem::Module(module) => {
                page.open("module");
                if is_named(&parts[..number], &module.name.name) {
                    page.word("again");
                }
                show_headers(alloc, page, module)?;
                page.close();
            }
        }
    }
    Ok(())
}

/// The lengths of the times of a directive, in powers of ten below 100 seconds.
fn show_lengths(page: &mut Page, directive: &Directive) {
    if let DirectiveKind::Timescale(unit, precision) = directive.kind {
        page.open("times");
        show_length(page, unit);
        show_length(page, precision);
        page.close();
    }
}

fn show_length(page: &mut Page, time: Time) {
    page.shown(&time.count.exponent());
    page.put("-");
    page.put_shown(&time.unit.exponent());
    page.put("=");
    page.put_shown(&time.exponent());
}

/// Whether a module has this name.
fn is_named(parts: &[SourceItem], name: &Name) -> bool {
    for part in parts {
        if let SourceItem::Module(module) = part {
            if module.name.name == *name {
                return true;
            }
        }
    }
    false
}

/// Whose kind the ports and parameters of a module's header, and the inputs of its functions, have.
fn show_headers(alloc: Global, page: &mut Page, module: &Module) -> Result<(), AllocError> {
    if let Some(parameters) = &module.parameters {
        show_numbers(alloc, page, "parameters", parameters.as_slice())?;
    }
    if let Ports::Declared(ports) = &module.ports {
        show_numbers(alloc, page, "ports", ports.as_slice())?;
    }
    for item in module.items.as_slice() {
        show_function(alloc, page, item)?;
    }
    Ok(())
}

fn show_function(alloc: Global, page: &mut Page, item: &Item) -> Result<(), AllocError> {
    if let ItemKind::Function(function) = &item.kind {
        show_inputs(alloc, page, function.get())?;
    }
    Ok(())
}

fn show_inputs(alloc: Global, page: &mut Page, function: &Function) -> Result<(), AllocError> {
    if let Some(inputs) = &function.inputs {
        show_numbers(alloc, page, "inputs", inputs.as_slice())?;
    }
    Ok(())
}

fn show_numbers<P: Part>(
    alloc: Global,
    page: &mut Page,
    word: &str,
    parts: &[P],
) -> Result<(), AllocError> {
    page.open(word);
    for number in declared_by(alloc, parts)?.as_slice() {
        page.shown(number);
    }
    page.close();
    Ok(())
}
