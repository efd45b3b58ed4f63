//! Names in functions.
ghost use Rattle.std.specs.Prelude.{◌≡◌, flat_map, IfOk};
ghost use Rattle.vod_places.specs.Places.{least};
ghost use Rattle.vod_names.specs.Lists.{function_declarations};
ghost use Rattle.vod_uses.specs.Visible.{seen, within};
ghost use Rattle.vod_uses.specs.Statements.{statement_misuses};
ghost use Rattle.vod_uses.specs.Items.{input_misuses, inputs_misuses, inner_misuses, function_misuses};

use crate::declaration::first_range_misuse;
use crate::scope::Scope;
use crate::statement::first_statement_misuse;
use sqlite_items::Items;
use std::alloc::Global;
use vod_names::{Memory, function_declarations};
use vod_places::sooner_of;
use vod_tree::{Function, FunctionDeclaration, FunctionInput};

/// The least place of a name in a function that isn't declared as what it is used for.
#[tactic(auto, using(crate::proofs::Least::least_append))]
pub(crate) fn first_function_misuse<'s>(
    alloc: Global,
    scope: &Scope<'_, '_, 's>,
    function: &'s Function,
) -> Result<Option<u32>, Memory>
    ensures { IfOk result (λ p. p ≡ least (function_misuses (seen scope.now) function.now)) }
{
    let body = first_body_misuse(alloc, scope, function)?;
    let inputs = first_inputs_misuse(scope, &function.inputs);
    let inner = first_inner_misuse(scope, function.declarations.as_slice());
    let own = first_range_misuse(scope, &function.range);
    Ok(sooner_of(own, sooner_of(inputs, sooner_of(inner, body))))
}

// The same of its statement, in which its own names stand before those of the module.
fn first_body_misuse<'s>(
    alloc: Global,
    scope: &Scope<'_, '_, 's>,
    function: &'s Function,
) -> Result<Option<u32>, Memory>
    ensures { IfOk result (λ p. p ≡ least (statement_misuses (within (seen scope.now) (function_declarations function.now)) function.now.body)) }
{
    let names = function_declarations(alloc, function)?;
    Ok(first_statement_misuse(&scope.within(&names), &function.body))
}

fn first_inputs_misuse(
    scope: &Scope<'_, '_, '_>,
    inputs: &Option<Items<FunctionInput>>,
) -> Option<u32>
    ensures { result ≡ least (inputs_misuses (seen scope.now) inputs.now) }
{
    match inputs {
        None => None,
        Some(inputs) => first_input_misuse(scope, inputs.as_slice()),
    }
}

#[tactic(auto, using(crate::proofs::Least::each_step))]
fn first_input_misuse(scope: &Scope<'_, '_, '_>, inputs: &[FunctionInput]) -> Option<u32>
    ensures { result ≡ least (flat_map (input_misuses (seen scope.now)) inputs.now) }
{
    let mut first = None;
    for input in inputs {
        first = sooner_of(first, input_misuse(scope, input));
    }
    first
}

fn input_misuse(scope: &Scope<'_, '_, '_>, input: &FunctionInput) -> Option<u32>
    ensures { result ≡ least (input_misuses (seen scope.now) input.now) }
{
    match input {
        FunctionInput::Port(it) => first_range_misuse(scope, &it.range),
        FunctionInput::Further(_) => None,
    }
}

#[tactic(auto, using(crate::proofs::Least::each_step))]
fn first_inner_misuse(
    scope: &Scope<'_, '_, '_>,
    declarations: &[FunctionDeclaration],
) -> Option<u32>
    ensures { result ≡ least (flat_map (inner_misuses (seen scope.now)) declarations.now) }
{
    let mut first = None;
    for declaration in declarations {
        first = sooner_of(first, inner_misuse(scope, declaration));
    }
    first
}

fn inner_misuse(scope: &Scope<'_, '_, '_>, declaration: &FunctionDeclaration) -> Option<u32>
    ensures { result ≡ least (inner_misuses (seen scope.now) declaration.now) }
{
    match declaration {
        FunctionDeclaration::Input(it) | FunctionDeclaration::Reg(it) => {
            first_range_misuse(scope, &it.range)
        }
    }
}
