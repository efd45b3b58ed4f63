//! Whole sources: directives, modules, functions and items.
use crate::declaration::{
    show_nets, show_parameter_ports, show_parameters, show_ports, show_registers, show_type,
    show_variables,
};
use crate::instance::{show_gate, show_instances};
use crate::page::{open_at, show_flag, show_ident, show_idents, show_place};
use crate::statement::{show_always, show_assignments, show_initial, show_statement};
use rows_text::Page;
use vod_tree::{
    Directive, DirectiveKind, Function, FunctionDeclaration, FunctionInput, FunctionPort,
    FunctionVariables, Item, ItemKind, Module, NetType, SourceItem, Time, TimeCount, TimeUnit,
    Tree,
};

/// The directives and modules of a source.
pub fn show_tree(page: &mut Page, tree: &Tree) {
    page.open("source");
    for item in tree.items.as_slice() {
        match item {
            SourceItem::Directive(directive) => show_directive(page, directive),
            SourceItem::Module(module) => show_module(page, module),
        }
    }
    page.close()
}

fn show_directive(page: &mut Page, directive: &Directive) {
    match directive.kind {
        DirectiveKind::Timescale(unit, precision) => {
            open_at(page, "timescale", directive.place);
            show_time(page, unit);
            show_time(page, precision);
        }
        DirectiveKind::DefaultNettype(kind) => {
            open_at(page, "default_nettype", directive.place);
            page.word(nettype_word(kind));
        }
    }
    page.close()
}

fn nettype_word(kind: NetType) -> &'static str {
    match kind {
        NetType::None => "none",
        NetType::Wire => "wire",
    }
}

fn show_time(page: &mut Page, time: Time) {
    page.word(count_word(time.count));
    page.put(unit_word(time.unit));
}

fn count_word(count: TimeCount) -> &'static str {
    match count {
        TimeCount::One => "1",
        TimeCount::Ten => "10",
        TimeCount::Hundred => "100",
    }
}

fn unit_word(unit: TimeUnit) -> &'static str {
    match unit {
        TimeUnit::S => "s",
        TimeUnit::Ms => "ms",
        TimeUnit::Us => "us",
        TimeUnit::Ns => "ns",
        TimeUnit::Ps => "ps",
        TimeUnit::Fs => "fs",
    }
}

fn show_module(page: &mut Page, module: &Module) {
    open_at(page, "module", module.place);
    show_ident(page, &module.name);
    page.put(" tokens=");
    page.put_shown(&module.tokens);
    if let Some(parameters) = &module.parameters {
        show_parameter_ports(page, parameters.as_slice());
    }
    show_ports(page, &module.ports);
    show_items(page, module.items.as_slice());
    page.close()
}

fn show_items(page: &mut Page, items: &[Item]) {
    for item in items {
        open_at(page, item_word(&item.kind), item.place);
        show_item(page, &item.kind);
        page.close();
    }
}

fn item_word(kind: &ItemKind) -> &'static str {
    match kind {
        ItemKind::Input(_) => "input",
        ItemKind::Output(_) => "output",
        ItemKind::OutputReg(_) => "output-reg",
        ItemKind::Wire(_) => "wire",
        ItemKind::Reg(_) => "reg",
        ItemKind::Integer(_) => "integer",
        ItemKind::Parameter(_) => "parameter",
        ItemKind::Localparam(_) => "localparam",
        ItemKind::Assign(_) => "assign",
        ItemKind::Gate(_) => "gate",
        ItemKind::Instances(_) => "instances",
        ItemKind::Function(_) => "function",
        ItemKind::Initial(_) => "initial",
        ItemKind::Always(_) => "always",
    }
}

fn show_item(page: &mut Page, kind: &ItemKind) {
    match kind {
        ItemKind::Input(nets) | ItemKind::Output(nets) => show_nets(page, nets),
        ItemKind::OutputReg(variables) | ItemKind::Wire(variables) => {
            show_variables(page, variables)
        }
        ItemKind::Reg(registers) => show_registers(page, registers),
        ItemKind::Integer(names) => show_idents(page, names.as_slice()),
        ItemKind::Parameter(parameters) | ItemKind::Localparam(parameters) => {
            show_parameters(page, parameters)
        }
        ItemKind::Assign(assignments) => show_assignments(page, assignments.as_slice()),
        ItemKind::Gate(gate) => show_gate(page, gate),
        ItemKind::Instances(instances) => show_instances(page, instances),
        ItemKind::Function(function) => show_function(page, function.get()),
        ItemKind::Initial(statement) => show_initial(page, statement.get()),
        ItemKind::Always(always) => show_always(page, always.get()),
    }
}

fn show_function(page: &mut Page, function: &Function) {
    show_place(page, function.place);
    show_flag(page, function.automatic, "automatic");
    show_type(page, function.signed, &function.range);
    show_ident(page, &function.name);
    if let Some(inputs) = &function.inputs {
        show_inputs(page, inputs.as_slice());
    }
    show_declarations(page, function.declarations.as_slice());
    show_statement(page, &function.body)
}

fn show_inputs(page: &mut Page, inputs: &[FunctionInput]) {
    page.open("inputs");
    for input in inputs {
        match input {
            FunctionInput::Port(port) => show_port(page, port),
            FunctionInput::Further(ident) => show_ident(page, ident),
        }
    }
    page.close()
}

fn show_port(page: &mut Page, port: &FunctionPort) {
    open_at(page, "input", port.place);
    show_type(page, port.signed, &port.range);
    show_ident(page, &port.name);
    page.close()
}

fn show_declarations(page: &mut Page, declarations: &[FunctionDeclaration]) {
    for declaration in declarations {
        match declaration {
            FunctionDeclaration::Input(names) => show_names(page, "input", names),
            FunctionDeclaration::Reg(names) => show_names(page, "reg", names),
        }
    }
}

fn show_names(page: &mut Page, word: &str, names: &FunctionVariables) {
    open_at(page, word, names.place);
    show_type(page, names.signed, &names.range);
    show_idents(page, names.names.as_slice());
    page.close()
}
