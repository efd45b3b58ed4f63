//! Gates and instances of modules.
use crate::expression::{show_expr, show_exprs};
use crate::page::{open_at, show_ident, show_place};
use rows_text::Page;
use vod_tree::{
    Arguments, Connections, Gate, GateKind, GateTerminals, Instance, Instances, NamedArgument,
    NamedConnection,
};

/// The kind of gates, and each with its name, where it has one, and its terminals.
pub fn show_gate(page: &mut Page, gate: &Gate) {
    page.word(gate_word(gate.kind));
    for one in gate.gates.as_slice() {
        show_terminals(page, one);
    }
}

fn gate_word(kind: GateKind) -> &'static str {
    match kind {
        GateKind::And => "and",
        GateKind::Nand => "nand",
        GateKind::Or => "or",
        GateKind::Nor => "nor",
        GateKind::Xor => "xor",
        GateKind::Xnor => "xnor",
        GateKind::Buf => "buf",
        GateKind::Not => "not",
    }
}

fn show_terminals(page: &mut Page, gate: &GateTerminals) {
    open_at(page, "terminals", gate.place);
    if let Some(ident) = &gate.name {
        page.word(":");
        show_ident(page, ident);
    }
    show_exprs(page, gate.terminals.as_slice());
    page.close()
}

/// The place of instances, their module, their parameters, where they have some, and each instance.
pub fn show_instances(page: &mut Page, instances: &Instances) {
    show_place(page, instances.place);
    show_ident(page, &instances.module);
    if let Some(arguments) = &instances.arguments {
        show_arguments(page, arguments);
    }
    for instance in instances.instances.as_slice() {
        show_instance(page, instance);
    }
}

fn show_arguments(page: &mut Page, arguments: &Arguments) {
    page.open("arguments");
    match arguments {
        Arguments::Ordered(exprs) => show_exprs(page, exprs.as_slice()),
        Arguments::Named(named) => show_named_arguments(page, named.as_slice()),
    }
    page.close()
}

fn show_named_arguments(page: &mut Page, named: &[NamedArgument]) {
    for one in named {
        open_at(page, "", one.place);
        show_ident(page, &one.name);
        show_expr(page, &one.value);
        page.close();
    }
}

fn show_instance(page: &mut Page, instance: &Instance) {
    page.open("instance");
    show_ident(page, &instance.name);
    match &instance.connections {
        Connections::Empty => page.word("empty"),
        Connections::Ordered(exprs) => show_exprs(page, exprs.as_slice()),
        Connections::Named(named) => show_connections(page, named.as_slice()),
    }
    page.close()
}

fn show_connections(page: &mut Page, named: &[NamedConnection]) {
    for one in named {
        open_at(page, "", one.place);
        show_ident(page, &one.name);
        if let Some(expr) = &one.value {
            show_expr(page, expr);
        }
        page.close();
    }
}
