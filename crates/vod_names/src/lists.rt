//! The lists of a module and of a function.
ghost use Rattle.std.specs.Prelude.{◌≡◌, IfOk};
ghost use Rattle.vod_names.specs.Lists.{declarations, directions, function_declarations, listed_names, parameters, ports};

use crate::function::{add_header_inputs, add_inner};
use crate::header::{add_header_names, add_header_parameters, add_header_ports, shaped};
use crate::items::{add_directions, add_items, add_parameters};
use crate::{Kind, Memory, Names};
use std::alloc::Global;
use vod_tree::{Function, Module};

/// All that a module declares: the parameters of its header, its declared ports, and what its items declare.
pub fn declarations<'s>(alloc: Global, module: &'s Module) -> Result<Names<'s>, Memory>
    ensures { IfOk result (λ names. names ≡ declarations «module».now) }
{
    let mut names: Names<'s> = Names::new(alloc);
    add_header_parameters(&mut names, &module.parameters)?;
    add_header_ports(&mut names, &module.ports)?;
    add_items(&mut names, module.items.as_slice())?;
    Ok(names)
}

/// The names of a header that lists names alone (12.3.2).
pub fn listed_names<'s>(alloc: Global, module: &'s Module) -> Result<Names<'s>, Memory>
    ensures { IfOk result (λ names. names ≡ listed_names «module».now) }
{
    let mut names: Names<'s> = Names::new(alloc);
    add_header_names(&mut names, &module.ports)?;
    Ok(names)
}

/// The directions in the body of a module (12.3.3).
pub fn directions<'s>(alloc: Global, module: &'s Module) -> Result<Names<'s>, Memory>
    ensures { IfOk result (λ names. names ≡ directions «module».now) }
{
    let mut names: Names<'s> = Names::new(alloc);
    add_directions(&mut names, module.items.as_slice())?;
    Ok(names)
}

/// The ports of a module in the order of its header (12.3).
pub fn ports<'s>(alloc: Global, module: &'s Module) -> Result<Names<'s>, Memory>
    ensures { IfOk result (λ names. names ≡ ports «module».now) }
{
    let mut names: Names<'s> = Names::new(alloc);
    add_header_names(&mut names, &module.ports)?;
    add_header_ports(&mut names, &module.ports)?;
    Ok(names)
}

/// The parameters that an instance may set, in order: those of the header and then those of the body (12.2.2).
pub fn parameters<'s>(alloc: Global, module: &'s Module) -> Result<Names<'s>, Memory>
    ensures { IfOk result (λ names. names ≡ parameters «module».now) }
{
    let mut names: Names<'s> = Names::new(alloc);
    add_header_parameters(&mut names, &module.parameters)?;
    add_parameters(&mut names, module.items.as_slice())?;
    Ok(names)
}

/// All that a function declares: its own name, the inputs of its header, and what stands behind it (10.4).
pub fn function_declarations<'s>(alloc: Global, function: &'s Function) -> Result<Names<'s>, Memory>
    ensures { IfOk result (λ names. names ≡ function_declarations function.now) }
{
    let mut names: Names<'s> = Names::new(alloc);
    names.declare(
        &function.name,
        shaped(Kind::Function, function.signed, &function.range),
    )?;
    add_header_inputs(&mut names, &function.inputs)?;
    add_inner(&mut names, function.declarations.as_slice())?;
    Ok(names)
}
