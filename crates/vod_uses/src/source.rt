//! Names in whole sources.
ghost use Rattle.std.specs.Prelude.{◌≡◌, flat_map, IfOk};
ghost use Rattle.vod_places.specs.Places.{least};
ghost use Rattle.vod_names.specs.Lists.{declarations};
ghost use Rattle.vod_uses.specs.Visible.{seen, before, visible};
ghost use Rattle.vod_uses.specs.Items.{parameter_misuses, parameters_misuses, port_misuses, ports_misuses, module_misuses, source_misuses, use_faults};

use crate::declaration::{
    first_range_misuse, first_setting_misuse, first_type_misuse, first_value_misuse,
};
use crate::expr::first_misuse;
use crate::functions::functions_of;
use crate::items::first_item_misuse;
use crate::registers::registers_of;
use crate::scope::Scope;
use sqlite_items::Items;
use std::alloc::Global;
use vod_names::{Memory, Names, declarations};
use vod_places::sooner_of;
use vod_tree::{DeclaredPort, Module, ParameterPort, Ports, SourceItem, Tree};

/// The least place in a source at which a name is used that isn't declared before, or is declared as something else, or at which a
/// function is called that isn't one of the module's or has another number of inputs; None where there is none. Names of ports and
/// parameters of other modules aren't looked at.
pub fn first_use_fault(alloc: Global, tree: &Tree) -> Result<Option<u32>, Memory>
    ensures { IfOk result (λ p. p ≡ least (use_faults tree.now)) }
{
    first_source_misuse(alloc, tree.items.as_slice())
}

#[tactic(auto, using(crate::proofs::Least::each_step))]
fn first_source_misuse(alloc: Global, items: &[SourceItem]) -> Result<Option<u32>, Memory>
    ensures { IfOk result (λ p. p ≡ least (flat_map source_misuses items.now)) }
{
    let mut first = None;
    for item in items {
        first = sooner_of(first, source_misuse(alloc, item)?);
    }
    Ok(first)
}

fn source_misuse(alloc: Global, item: &SourceItem) -> Result<Option<u32>, Memory>
    ensures { IfOk result (λ p. p ≡ least (source_misuses item.now)) }
{
    match item {
        SourceItem::Directive(_) => Ok(None),
        SourceItem::Module(module) => first_module_misuse(alloc, module),
    }
}

fn first_module_misuse(alloc: Global, module: &Module) -> Result<Option<u32>, Memory>
    ensures { IfOk result (λ p. p ≡ least (module_misuses «module».now)) }
{
    let outer = declarations(alloc, module)?;
    first_misuse_with(alloc, module, &outer)
}

// The same where the names of the module are known.
fn first_misuse_with<'s>(
    alloc: Global,
    module: &'s Module,
    outer: &Names<'s>,
) -> Result<Option<u32>, Memory>
    requires { outer.now ≡ declarations «module».now }
    ensures { IfOk result (λ p. p ≡ least (module_misuses «module».now)) }
{
    let registers = registers_of(alloc, outer.as_slice())?;
    let functions = functions_of(alloc, module.items.as_slice())?;
    let inner: Names<'s> = Names::new(alloc);
    let scope = Scope {
        inner: &inner,
        outer,
        registers: &registers,
        functions: &functions,
        limit: 0,
    };
    first_misuse_in(alloc, &scope, module)
}

// The same where all names of the module are known.
#[tactic(auto, using(crate::proofs::Least::least_append))]
fn first_misuse_in<'s>(
    alloc: Global,
    scope: &Scope<'_, '_, 's>,
    module: &'s Module,
) -> Result<Option<u32>, Memory>
    requires { seen scope.now ≡ visible «module».now 0 }
    ensures { IfOk result (λ p. p ≡ least (module_misuses «module».now)) }
{
    let items = first_item_misuse(alloc, scope, module.items.as_slice())?;
    let ports = first_ports_misuse(scope, &module.ports);
    let parameters = first_parameters_misuse(scope, &module.parameters);
    Ok(sooner_of(parameters, sooner_of(ports, items)))
}

fn first_parameters_misuse(
    scope: &Scope<'_, '_, '_>,
    parameters: &Option<Items<ParameterPort>>,
) -> Option<u32>
    ensures { result ≡ least (parameters_misuses (seen scope.now) parameters.now) }
{
    match parameters {
        None => None,
        Some(parameters) => first_parameter_misuse(scope, parameters.as_slice()),
    }
}

#[tactic(auto, using(crate::proofs::Least::each_step))]
fn first_parameter_misuse(scope: &Scope<'_, '_, '_>, parameters: &[ParameterPort]) -> Option<u32>
    ensures { result ≡ least (flat_map (parameter_misuses (seen scope.now)) parameters.now) }
{
    let mut first = None;
    for parameter in parameters {
        first = sooner_of(first, parameter_misuse(scope, parameter));
    }
    first
}

#[tactic(auto, using(crate::proofs::Least::least_append))]
fn parameter_misuse(scope: &Scope<'_, '_, '_>, parameter: &ParameterPort) -> Option<u32>
    ensures { result ≡ least (parameter_misuses (seen scope.now) parameter.now) }
{
    match parameter {
        ParameterPort::Parameter(it) => {
            let kind = first_type_misuse(&scope.before(it.place), &it.kind);
            sooner_of(kind, first_setting_misuse(scope, &it.setting))
        }
        ParameterPort::Further(setting) => first_setting_misuse(scope, setting),
    }
}

fn first_ports_misuse(scope: &Scope<'_, '_, '_>, ports: &Ports) -> Option<u32>
    ensures { result ≡ least (ports_misuses (seen scope.now) ports.now) }
{
    match ports {
        Ports::Absent | Ports::Empty | Ports::Names(_) => None,
        Ports::Declared(ports) => first_port_misuse(scope, ports.as_slice()),
    }
}

#[tactic(auto, using(crate::proofs::Least::each_step))]
fn first_port_misuse(scope: &Scope<'_, '_, '_>, ports: &[DeclaredPort]) -> Option<u32>
    ensures { result ≡ least (flat_map (port_misuses (seen scope.now)) ports.now) }
{
    let mut first = None;
    for port in ports {
        first = sooner_of(first, port_misuse(scope, port));
    }
    first
}

#[tactic(auto, using(crate::proofs::Least::least_append))]
fn port_misuse(scope: &Scope<'_, '_, '_>, port: &DeclaredPort) -> Option<u32>
    ensures { result ≡ least (port_misuses (seen scope.now) port.now) }
{
    match port {
        DeclaredPort::Input(it) | DeclaredPort::Output(it) => {
            first_range_misuse(&scope.before(it.get().place), &it.get().range)
        }
        DeclaredPort::OutputReg(it) => {
            let range = first_range_misuse(&scope.before(it.get().place), &it.get().range);
            sooner_of(range, first_value_misuse(scope, &it.get().value))
        }
        DeclaredPort::Further(_) => None,
        DeclaredPort::FurtherValue(setting) => {
            first_misuse(&scope.before(setting.value.place), &setting.value)
        }
    }
}
