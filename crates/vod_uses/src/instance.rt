//! Names in what gates and instances are given.
ghost use Rattle.std.specs.Prelude.{◌≡◌, flat_map};
ghost use Rattle.vod_places.specs.Places.{least};
ghost use Rattle.vod_uses.specs.Visible.{seen};
ghost use Rattle.vod_uses.specs.Items.{assignment_misuses, gate_misuses, named_argument_misuses, argument_misuses, connected_misuses, named_connection_misuses, connection_misuses, instance_misuses};

use crate::expr::{first_misuse, first_misuse_of};
use crate::scope::Scope;
use crate::statement::first_written_misuse;
use vod_places::sooner_of;
use vod_tree::{
    Arguments, Assignment, Connections, Expr, GateTerminals, Instance, NamedArgument,
    NamedConnection,
};

/// The least place of a name in assignments that isn't declared as what it is used for.
#[tactic(auto, using(crate::proofs::Least::each_step))]
pub(crate) fn first_assignment_misuse(
    scope: &Scope<'_, '_, '_>,
    assignments: &[Assignment],
) -> Option<u32>
    ensures { result ≡ least (flat_map (assignment_misuses (seen scope.now)) assignments.now) }
{
    let mut first = None;
    for assignment in assignments {
        let inside = first_written_misuse(scope, &assignment.target, &assignment.value);
        first = sooner_of(first, inside);
    }
    first
}

/// The same of gates.
#[tactic(auto, using(crate::proofs::Least::each_step))]
pub(crate) fn first_gate_misuse(scope: &Scope<'_, '_, '_>, gates: &[GateTerminals]) -> Option<u32>
    ensures { result ≡ least (flat_map (gate_misuses (seen scope.now)) gates.now) }
{
    let mut first = None;
    for gate in gates {
        first = sooner_of(first, first_misuse_of(scope, gate.terminals.as_slice()));
    }
    first
}

/// The same of the parameters that instances are given.
pub(crate) fn first_argument_misuse(
    scope: &Scope<'_, '_, '_>,
    arguments: &Option<Arguments>,
) -> Option<u32>
    ensures { result ≡ least (argument_misuses (seen scope.now) arguments.now) }
{
    match arguments {
        None => None,
        Some(Arguments::Ordered(values)) => first_misuse_of(scope, values.as_slice()),
        Some(Arguments::Named(named)) => first_named_argument_misuse(scope, named.as_slice()),
    }
}

#[tactic(auto, using(crate::proofs::Least::each_step))]
fn first_named_argument_misuse(scope: &Scope<'_, '_, '_>, named: &[NamedArgument]) -> Option<u32>
    ensures { result ≡ least (flat_map (named_argument_misuses (seen scope.now)) named.now) }
{
    let mut first = None;
    for argument in named {
        first = sooner_of(first, first_misuse(scope, &argument.value));
    }
    first
}

/// The same of instances.
#[tactic(auto, using(crate::proofs::Least::each_step))]
pub(crate) fn first_instance_misuse(
    scope: &Scope<'_, '_, '_>,
    instances: &[Instance],
) -> Option<u32>
    ensures { result ≡ least (flat_map (instance_misuses (seen scope.now)) instances.now) }
{
    let mut first = None;
    for instance in instances {
        first = sooner_of(first, first_connection_misuse(scope, &instance.connections));
    }
    first
}

fn first_connection_misuse(scope: &Scope<'_, '_, '_>, connections: &Connections) -> Option<u32>
    ensures { result ≡ least (connection_misuses (seen scope.now) connections.now) }
{
    match connections {
        Connections::Empty => None,
        Connections::Ordered(values) => first_misuse_of(scope, values.as_slice()),
        Connections::Named(named) => first_named_connection_misuse(scope, named.as_slice()),
    }
}

#[tactic(auto, using(crate::proofs::Least::each_step))]
fn first_named_connection_misuse(
    scope: &Scope<'_, '_, '_>,
    named: &[NamedConnection],
) -> Option<u32>
    ensures { result ≡ least (flat_map (named_connection_misuses (seen scope.now)) named.now) }
{
    let mut first = None;
    for connection in named {
        first = sooner_of(first, first_connected_misuse(scope, &connection.value));
    }
    first
}

fn first_connected_misuse(scope: &Scope<'_, '_, '_>, value: &Option<Expr>) -> Option<u32>
    ensures { result ≡ least (connected_misuses (seen scope.now) value.now) }
{
    match value {
        None => None,
        Some(value) => first_misuse(scope, value),
    }
}
