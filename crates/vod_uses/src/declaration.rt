//! Names in declarations.
ghost use Rattle.std.specs.Prelude.{◌≡◌, flat_map};
ghost use Rattle.vod_places.specs.Places.{least};
ghost use Rattle.vod_uses.specs.Visible.{seen};
ghost use Rattle.vod_uses.specs.Items.{bound_misuses, range_misuses, given_misuses, value_misuses, setting_misuses, type_misuses, register_misuses};

use crate::expr::first_misuse;
use crate::scope::Scope;
use vod_places::sooner_of;
use vod_tree::{Expr, ParameterType, Range, Register, Setting, Value};

#[tactic(auto, using(crate::proofs::Least::least_append))]
fn first_bound_misuse(scope: &Scope<'_, '_, '_>, range: &Range) -> Option<u32>
    ensures { result ≡ least (bound_misuses (seen scope.now) range.now) }
{
    sooner_of(
        first_misuse(scope, &range.first),
        first_misuse(scope, &range.second),
    )
}

/// The least place of a name in a range that isn't declared as what it is used for.
pub(crate) fn first_range_misuse(scope: &Scope<'_, '_, '_>, range: &Option<Range>) -> Option<u32>
    ensures { result ≡ least (range_misuses (seen scope.now) range.now) }
{
    match range {
        None => None,
        Some(range) => first_bound_misuse(scope, range),
    }
}

/// The same of the type of a parameter.
pub(crate) fn first_type_misuse(
    scope: &Scope<'_, '_, '_>,
    kind: &Option<ParameterType>,
) -> Option<u32>
    ensures { result ≡ least (type_misuses (seen scope.now) kind.now) }
{
    match kind {
        None => None,
        Some(kind) => first_bound_misuse(scope, &kind.range),
    }
}

// The same of an expression before which a name is declared already.
fn first_given_misuse(scope: &Scope<'_, '_, '_>, value: &Option<Expr>) -> Option<u32>
    ensures { result ≡ least (given_misuses (seen scope.now) value.now) }
{
    match value {
        None => None,
        Some(value) => first_misuse(&scope.before(value.place), value),
    }
}

/// The same of a value of a net or a register.
pub(crate) fn first_value_misuse(scope: &Scope<'_, '_, '_>, value: &Value) -> Option<u32>
    ensures { result ≡ least (value_misuses (seen scope.now) value.now) }
{
    first_given_misuse(scope, &value.value)
}

/// The same of values.
#[tactic(auto, using(crate::proofs::Least::each_step))]
pub(crate) fn first_values_misuse(scope: &Scope<'_, '_, '_>, values: &[Value]) -> Option<u32>
    ensures { result ≡ least (flat_map (value_misuses (seen scope.now)) values.now) }
{
    let mut first = None;
    for value in values {
        first = sooner_of(first, first_value_misuse(scope, value));
    }
    first
}

/// The same of a parameter's value.
pub(crate) fn first_setting_misuse(scope: &Scope<'_, '_, '_>, setting: &Setting) -> Option<u32>
    ensures { result ≡ least (setting_misuses (seen scope.now) setting.now) }
{
    first_misuse(&scope.before(setting.name.place), &setting.value)
}

/// The same of parameters' values.
#[tactic(auto, using(crate::proofs::Least::each_step))]
pub(crate) fn first_settings_misuse(scope: &Scope<'_, '_, '_>, settings: &[Setting]) -> Option<u32>
    ensures { result ≡ least (flat_map (setting_misuses (seen scope.now)) settings.now) }
{
    let mut first = None;
    for setting in settings {
        first = sooner_of(first, first_setting_misuse(scope, setting));
    }
    first
}

/// The same of registers and memories.
#[tactic(auto, using(crate::proofs::Least::each_step))]
pub(crate) fn first_registers_misuse(
    scope: &Scope<'_, '_, '_>,
    registers: &[Register],
) -> Option<u32>
    ensures { result ≡ least (flat_map (register_misuses (seen scope.now)) registers.now) }
{
    let mut first = None;
    for register in registers {
        first = sooner_of(first, first_register_misuse(scope, register));
    }
    first
}

fn first_register_misuse(scope: &Scope<'_, '_, '_>, register: &Register) -> Option<u32>
    ensures { result ≡ least (register_misuses (seen scope.now) register.now) }
{
    match register {
        Register::Value(value) => first_value_misuse(scope, value),
        Register::Ram(_, bounds) => first_bound_misuse(scope, bounds),
    }
}
