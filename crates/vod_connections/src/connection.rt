//! Connections and parameters of instances.
ghost use Rattle.std.specs.Prelude.{◌≡◌, Some, map, flat_map, length, IfOk};
ghost use Rattle.vod_places.specs.Places.{least, each_after};
ghost use Rattle.vod_names.specs.Entries.{shown};
ghost use Rattle.vod_connections.specs.Connections.{wrong_name, wrong_names, argument_name, connection_name, argument_faults, connection_faults, one_faults, instances_faults};

use crate::interface::Interface;
use std::alloc::Global;
use vod_names::{Declaration, Entry, Kind, Memory, Names};
use vod_places::{place_where, sooner_of};
use vod_tree::{Arguments, Connections, Instance, Instances, NamedArgument, NamedConnection};

/// The least fault in instances of a module that shows this.
#[tactic(auto, using(crate::proofs::Least::least_append))]
pub(crate) fn first_instances_fault(
    alloc: Global,
    child: &Interface<'_>,
    it: &Instances,
) -> Result<Option<u32>, Memory>
    ensures { IfOk result (λ p. p ≡ least (instances_faults (Some child.now) it.now)) }
{
    let place = it.module.place;
    let arguments = first_argument_fault(alloc, place, &child.parameters, &it.arguments)?;
    let instances = first_one_fault(alloc, place, &child.ports, it.instances.as_slice())?;
    Ok(sooner_of(arguments, instances))
}

#[tactic(auto, using(crate::proofs::Least::each_step))]
fn first_one_fault(
    alloc: Global,
    place: u32,
    ports: &Names<'_>,
    instances: &[Instance],
) -> Result<Option<u32>, Memory>
    ensures { IfOk result (λ p. p ≡ least (flat_map (one_faults place ports.now) instances.now)) }
{
    let mut first = None;
    for instance in instances {
        let inside = first_connection_fault(alloc, place, ports, &instance.connections)?;
        first = sooner_of(first, inside);
    }
    Ok(first)
}

#[tactic(auto, using(crate::proofs::Least::least_if))]
fn first_argument_fault(
    alloc: Global,
    place: u32,
    parameters: &Names<'_>,
    arguments: &Option<Arguments>,
) -> Result<Option<u32>, Memory>
    ensures { IfOk result (λ p. p ≡ least (argument_faults place parameters.now arguments.now)) }
{
    match arguments {
        None => Ok(None),
        Some(Arguments::Ordered(values)) => {
            let many = count_of(parameters) < values.as_slice().len();
            Ok(place_where(many, place))
        }
        Some(Arguments::Named(named)) => {
            let names = argument_names(alloc, named.as_slice())?;
            first_wrong_name(alloc, parameters, names.as_slice())
        }
    }
}

#[tactic(auto, using(crate::proofs::Least::least_if))]
fn first_connection_fault(
    alloc: Global,
    place: u32,
    ports: &Names<'_>,
    connections: &Connections,
) -> Result<Option<u32>, Memory>
    ensures { IfOk result (λ p. p ≡ least (connection_faults place ports.now connections.now)) }
{
    match connections {
        Connections::Empty => Ok(place_where(count_of(ports) != 0, place)),
        Connections::Ordered(values) => {
            let same = count_of(ports) == values.as_slice().len();
            Ok(place_where(!same, place))
        }
        Connections::Named(named) => {
            let names = connection_names(alloc, named.as_slice())?;
            first_wrong_name(alloc, ports, names.as_slice())
        }
    }
}

// How many names there are.
fn count_of(names: &Names<'_>) -> usize
    ensures { result ≡ length names.now }
{
    names.as_slice().len()
}

// The least place of a name that isn't among these or stands again.
fn first_wrong_name<'s>(
    alloc: Global,
    names: &Names<'_>,
    given: &[Entry<'s>],
) -> Result<Option<u32>, Memory>
    ensures { IfOk result (λ p. p ≡ least (wrong_names names.now (map shown given.now))) }
{
    let mut seen: Names<'s> = Names::new(alloc);
    let mut first = None;
    for entry in given {
        let unknown = names.first_of(entry.name).is_none();
        let again = seen.first_of(entry.name).is_some();
        first = sooner_of(
            first,
            place_where(unknown || again, entry.declaration.place),
        );
        seen.add(entry.name, entry.declaration)?;
    }
    Ok(first)
}

fn argument_names<'s>(alloc: Global, named: &'s [NamedArgument]) -> Result<Names<'s>, Memory>
    ensures { IfOk result (λ names. names ≡ map argument_name named.now) }
{
    let mut names: Names<'s> = Names::new(alloc);
    for argument in named {
        names.declare(&argument.name, Declaration::plain(Kind::Listed))?;
    }
    Ok(names)
}

fn connection_names<'s>(alloc: Global, named: &'s [NamedConnection]) -> Result<Names<'s>, Memory>
    ensures { IfOk result (λ names. names ≡ map connection_name named.now) }
{
    let mut names: Names<'s> = Names::new(alloc);
    for connection in named {
        names.declare(&connection.name, Declaration::plain(Kind::Listed))?;
    }
    Ok(names)
}
