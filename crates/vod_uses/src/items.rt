//! Names in the items of modules.
ghost use Rattle.std.specs.Prelude.{◌≡◌, ◌++◌, flat_map, IfOk};
ghost use Rattle.vod_places.specs.Places.{least};
ghost use Rattle.vod_uses.specs.Visible.{seen};
ghost use Rattle.vod_uses.specs.Items.{range_misuses, value_misuses, register_misuses, type_misuses, setting_misuses, argument_misuses, instance_misuses, event_misuses, second_misuses, always_misuses, kind_item_misuses, item_misuses};

use crate::declaration::{
    first_range_misuse, first_registers_misuse, first_settings_misuse, first_type_misuse,
    first_values_misuse,
};
use crate::function::first_function_misuse;
use crate::initial::first_initial_misuse;
use crate::instance::{
    first_argument_misuse, first_assignment_misuse, first_gate_misuse, first_instance_misuse,
};
use crate::scope::{Scope, Usage, misused};
use crate::statement::first_statement_misuse;
use std::alloc::Global;
use vod_names::Memory;
use vod_places::sooner_of;
use vod_tree::{
    Always, Event, Instances, Item, ItemKind, ParameterDeclaration, RegDeclaration, SecondEvent,
    VariableDeclaration,
};

/// The least place of a name in items that isn't declared as what it is used for.
#[tactic(auto, using(crate::proofs::Least::each_step))]
pub(crate) fn first_item_misuse<'s>(
    alloc: Global,
    scope: &Scope<'_, '_, 's>,
    items: &'s [Item],
) -> Result<Option<u32>, Memory>
    ensures { IfOk result (λ p. p ≡ least (flat_map (item_misuses (seen scope.now)) items.now)) }
{
    let mut first = None;
    for item in items {
        let inside = item_misuse(alloc, &scope.before(item.place), &item.kind)?;
        first = sooner_of(first, inside);
    }
    Ok(first)
}

fn item_misuse<'s>(
    alloc: Global,
    scope: &Scope<'_, '_, 's>,
    kind: &'s ItemKind,
) -> Result<Option<u32>, Memory>
    ensures { IfOk result (λ p. p ≡ least (kind_item_misuses (seen scope.now) kind.now)) }
{
    match kind {
        ItemKind::Input(it) => Ok(first_range_misuse(scope, &it.range)),
        ItemKind::Output(it) => Ok(first_range_misuse(scope, &it.range)),
        ItemKind::OutputReg(it) => Ok(variable_misuse(scope, it)),
        ItemKind::Wire(it) => Ok(variable_misuse(scope, it)),
        ItemKind::Reg(it) => Ok(reg_misuse(scope, it)),
        ItemKind::Integer(_) => Ok(None),
        ItemKind::Parameter(it) => Ok(parameter_misuse(scope, it)),
        ItemKind::Localparam(it) => Ok(parameter_misuse(scope, it)),
        ItemKind::Assign(it) => Ok(first_assignment_misuse(scope, it.as_slice())),
        ItemKind::Gate(it) => Ok(first_gate_misuse(scope, it.gates.as_slice())),
        ItemKind::Instances(it) => Ok(instances_misuse(scope, it)),
        ItemKind::Function(it) => first_function_misuse(alloc, scope, it.get()),
        ItemKind::Initial(it) => first_initial_misuse(alloc, scope, it.get()),
        ItemKind::Always(it) => Ok(always_misuse(scope, it.get())),
    }
}

#[tactic(auto, using(crate::proofs::Least::least_append))]
fn variable_misuse(scope: &Scope<'_, '_, '_>, it: &VariableDeclaration) -> Option<u32>
    ensures { result ≡ least (range_misuses (seen scope.now) it.now.range ++ flat_map (value_misuses (seen scope.now)) it.now.values) }
{
    let values = first_values_misuse(scope, it.values.as_slice());
    sooner_of(first_range_misuse(scope, &it.range), values)
}

#[tactic(auto, using(crate::proofs::Least::least_append))]
fn reg_misuse(scope: &Scope<'_, '_, '_>, it: &RegDeclaration) -> Option<u32>
    ensures { result ≡ least (range_misuses (seen scope.now) it.now.range ++ flat_map (register_misuses (seen scope.now)) it.now.registers) }
{
    let registers = first_registers_misuse(scope, it.registers.as_slice());
    sooner_of(first_range_misuse(scope, &it.range), registers)
}

#[tactic(auto, using(crate::proofs::Least::least_append))]
fn parameter_misuse(scope: &Scope<'_, '_, '_>, it: &ParameterDeclaration) -> Option<u32>
    ensures { result ≡ least (type_misuses (seen scope.now) it.now.kind ++ flat_map (setting_misuses (seen scope.now)) it.now.settings) }
{
    let settings = first_settings_misuse(scope, it.settings.as_slice());
    sooner_of(first_type_misuse(scope, &it.kind), settings)
}

#[tactic(auto, using(crate::proofs::Least::least_append))]
fn instances_misuse(scope: &Scope<'_, '_, '_>, it: &Instances) -> Option<u32>
    ensures { result ≡ least (argument_misuses (seen scope.now) it.now.arguments ++ flat_map (instance_misuses (seen scope.now)) it.now.instances) }
{
    let instances = first_instance_misuse(scope, it.instances.as_slice());
    sooner_of(first_argument_misuse(scope, &it.arguments), instances)
}

#[tactic(auto, using(crate::proofs::Least::least_append))]
fn always_misuse(scope: &Scope<'_, '_, '_>, it: &Always) -> Option<u32>
    ensures { result ≡ least (always_misuses (seen scope.now) it.now) }
{
    let events = sooner_of(
        second_misuse(scope, &it.second),
        first_statement_misuse(scope, &it.body),
    );
    sooner_of(event_misuse(scope, &it.event), events)
}

fn event_misuse(scope: &Scope<'_, '_, '_>, event: &Event) -> Option<u32>
    ensures { result ≡ least (event_misuses (seen scope.now) event.now) }
{
    misused(scope, Usage::Event, &event.name)
}

fn second_misuse(scope: &Scope<'_, '_, '_>, second: &Option<SecondEvent>) -> Option<u32>
    ensures { result ≡ least (second_misuses (seen scope.now) second.now) }
{
    match second {
        None => None,
        Some(second) => event_misuse(scope, &second.event),
    }
}
