//! Parameters, ports and declarations.
use crate::expression::show_expr;
use crate::page::{open_at, show_flag, show_ident, show_idents};
use rows_text::Page;
use vod_tree::{
    DeclaredPort, NetDeclaration, NetPort, ParameterDeclaration, ParameterPort, ParameterType,
    Ports, Range, RegDeclaration, RegPort, Register, Setting, TypedParameter, Value,
    VariableDeclaration,
};

/// A sign and a range, where they stand.
pub fn show_type(page: &mut Page, signed: bool, range: &Option<Range>) {
    show_flag(page, signed, "signed");
    match range {
        Some(range) => show_range(page, range),
        None => {}
    }
}

fn show_range(page: &mut Page, range: &Range) {
    open_at(page, "range", range.place);
    show_expr(page, &range.first);
    show_expr(page, &range.second);
    page.close()
}

fn show_setting(page: &mut Page, setting: &Setting) {
    page.open("=");
    show_ident(page, &setting.name);
    show_expr(page, &setting.value);
    page.close()
}

fn show_value(page: &mut Page, value: &Value) {
    match &value.value {
        None => show_ident(page, &value.name),
        Some(expr) => {
            page.open("=");
            show_ident(page, &value.name);
            show_expr(page, expr);
            page.close()
        }
    }
}

fn show_parameter_type(page: &mut Page, kind: &Option<ParameterType>) {
    match kind {
        None => {}
        Some(kind) => {
            open_at(page, "type", kind.place);
            show_flag(page, kind.signed, "signed");
            show_range(page, &kind.range);
            page.close()
        }
    }
}

/// The parameters of a module's header.
pub fn show_parameter_ports(page: &mut Page, parameters: &[ParameterPort]) {
    page.open("parameters");
    for parameter in parameters {
        match parameter {
            ParameterPort::Parameter(typed) => show_typed_parameter(page, typed),
            ParameterPort::Further(setting) => show_setting(page, setting),
        }
    }
    page.close()
}

fn show_typed_parameter(page: &mut Page, parameter: &TypedParameter) {
    open_at(page, "parameter", parameter.place);
    show_parameter_type(page, &parameter.kind);
    show_setting(page, &parameter.setting);
    page.close()
}

/// What stands behind a module's name and parameters.
pub fn show_ports(page: &mut Page, ports: &Ports) {
    match ports {
        Ports::Absent => page.word("absent"),
        Ports::Empty => page.word("empty"),
        Ports::Names(names) => {
            page.open("names");
            show_idents(page, names.as_slice());
            page.close()
        }
        Ports::Declared(ports) => {
            page.open("ports");
            show_declared_ports(page, ports.as_slice());
            page.close()
        }
    }
}

fn show_declared_ports(page: &mut Page, ports: &[DeclaredPort]) {
    for port in ports {
        match port {
            DeclaredPort::Input(net) => show_net_port(page, "input", net.get()),
            DeclaredPort::Output(net) => show_net_port(page, "output", net.get()),
            DeclaredPort::OutputReg(register) => show_reg_port(page, register.get()),
            DeclaredPort::Further(ident) => show_ident(page, ident),
            DeclaredPort::FurtherValue(setting) => show_setting(page, setting),
        }
    }
}

fn show_net_port(page: &mut Page, word: &str, port: &NetPort) {
    open_at(page, word, port.place);
    show_flag(page, port.wire, "wire");
    show_type(page, port.signed, &port.range);
    show_ident(page, &port.name);
    page.close()
}

fn show_reg_port(page: &mut Page, port: &RegPort) {
    open_at(page, "output-reg", port.place);
    show_type(page, port.signed, &port.range);
    show_value(page, &port.value);
    page.close()
}

/// The parts of an `input` or `output`.
pub fn show_nets(page: &mut Page, nets: &NetDeclaration) {
    show_flag(page, nets.wire, "wire");
    show_type(page, nets.signed, &nets.range);
    show_idents(page, nets.names.as_slice())
}

/// The parts of an `output reg` or a `wire`.
pub fn show_variables(page: &mut Page, variables: &VariableDeclaration) {
    show_type(page, variables.signed, &variables.range);
    for value in variables.values.as_slice() {
        show_value(page, value);
    }
}

/// The parts of a `reg`.
pub fn show_registers(page: &mut Page, registers: &RegDeclaration) {
    show_type(page, registers.signed, &registers.range);
    for register in registers.registers.as_slice() {
        match register {
            Register::Value(value) => show_value(page, value),
            Register::Ram(ident, range) => {
                page.open("ram");
                show_ident(page, ident);
                show_range(page, range);
                page.close();
            }
        }
    }
}

/// The parts of a `parameter` or `localparam`.
pub fn show_parameters(page: &mut Page, parameters: &ParameterDeclaration) {
    show_parameter_type(page, &parameters.kind);
    for setting in parameters.settings.as_slice() {
        show_setting(page, setting);
    }
}
