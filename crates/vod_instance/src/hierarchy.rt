//! Instances of modules, read from the tokens of a source.
ghost use Rattle.vod_grammar.specs.State.{left, Gives, IsOfSource};
ghost use Rattle.vod_instance.specs.InstancesForm.{arguments_form, connected_to, connections_behind, instances_form, override_form, some_connections};

use vod_expr::ParseFault;
use vod_grammar::{Phrase, Reader, Word, expressions, separated};
use vod_tree::{
    Arguments, Connections, Ident, Instance, Instances, NamedArgument, NamedConnection, let_go,
};

/// Instances of a module: its name, their parameters behind `#` or none, each instance's name with its connections in
/// parentheses, and `;`. What its form reads, `instances_are_exact` says: exactly the instances (`AreInstances`).
pub fn instances(reader: Reader<'_>, at: &mut usize) -> Result<Instances, ParseFault>
    requires { IsOfSource reader }
    ensures { Gives result (left reader.entry at.new) (instances_form.read (left reader.entry at.old)) }
{
    let module = reader.name(at)?;
    let arguments = overriding(reader, at)?;
    let instances = separated::<InstancePhrase>(reader, at)?;
    reader.word(at, Word::Semicolon)?;
    Ok(Instances {
        place: module.place,
        module,
        arguments,
        instances,
    })
}

// `#` and parameters in parentheses, or nothing.
fn overriding(reader: Reader<'_>, at: &mut usize) -> Result<Option<Arguments>, ParseFault>
    requires { IsOfSource reader }
    ensures { Gives result (left reader.entry at.new) (override_form.read (left reader.entry at.old)) }
{
    let Some(_) = reader.takes(at, Word::Hash) else {
        return Ok(None);
    };
    reader.word(at, Word::OpenParen)?;
    let arguments = arguments(reader, at)?;
    reader.word(at, Word::CloseParen)?;
    Ok(Some(arguments))
}

// Parameters, by name where a period comes first, or else by order.
#[tactic(auto, using(crate::proofs::Periods::by_name, crate::proofs::Periods::by_order))]
fn arguments(reader: Reader<'_>, at: &mut usize) -> Result<Arguments, ParseFault>
    requires { IsOfSource reader }
    ensures { Gives result (left reader.entry at.new) (arguments_form.read (left reader.entry at.old)) }
{
    if reader.is_next(*at, Word::Period) {
        let arguments = separated::<ArgumentPhrase>(reader, at)?;
        return Ok(Arguments::Named(arguments));
    }
    let arguments = expressions(reader, at)?;
    Ok(Arguments::Ordered(arguments))
}

// A parameter by its name.
struct ArgumentPhrase {}

impl Phrase for ArgumentPhrase {
    type Node = NamedArgument;

    ghost use Rattle.vod_instance.specs.InstancesForm.{argument_form};

    ghost reading = { argument_form.read };

    fn read(reader: Reader<'_>, at: &mut usize) -> Result<NamedArgument, ParseFault> {
        let place = reader.word(at, Word::Period)?;
        let name = reader.name(at)?;
        reader.word(at, Word::OpenParen)?;
        let value = reader.expression(at)?;
        match reader.word(at, Word::CloseParen) {
            Ok(_) => Ok(NamedArgument { place, name, value }),
            Err(fault) => {
                let_go(value);
                Err(fault)
            }
        }
    }
}

// An instance: its name, and its connections in parentheses.
struct InstancePhrase {}

impl Phrase for InstancePhrase {
    type Node = Instance;

    ghost use Rattle.vod_instance.specs.InstancesForm.{instance_form};

    ghost reading = { instance_form.read };

    fn read(reader: Reader<'_>, at: &mut usize) -> Result<Instance, ParseFault> {
        let name = reader.name(at)?;
        reader.word(at, Word::OpenParen)?;
        let connections = connections_behind(reader, at)?;
        Ok(Instance { name, connections })
    }
}

// Behind `(`: connections or none, and `)`.
fn connections_behind(reader: Reader<'_>, at: &mut usize) -> Result<Connections, ParseFault>
    requires { IsOfSource reader }
    ensures { Gives result (left reader.entry at.new) (connections_behind.read (left reader.entry at.old)) }
{
    if let Some(_) = reader.takes(at, Word::CloseParen) {
        return Ok(Connections::Empty);
    }
    let connections = some_connections(reader, at)?;
    reader.word(at, Word::CloseParen)?;
    Ok(connections)
}

// Connections, by name where a period comes first, or else by order.
#[tactic(auto, using(crate::proofs::Periods::by_name, crate::proofs::Periods::by_order))]
fn some_connections(reader: Reader<'_>, at: &mut usize) -> Result<Connections, ParseFault>
    requires { IsOfSource reader }
    ensures { Gives result (left reader.entry at.new) (some_connections.read (left reader.entry at.old)) }
{
    if reader.is_next(*at, Word::Period) {
        let connections = separated::<ConnectionPhrase>(reader, at)?;
        return Ok(Connections::Named(connections));
    }
    let connections = expressions(reader, at)?;
    Ok(Connections::Ordered(connections))
}

// A connection by the name of its port.
struct ConnectionPhrase {}

impl Phrase for ConnectionPhrase {
    type Node = NamedConnection;

    ghost use Rattle.vod_instance.specs.InstancesForm.{connection_form};

    ghost reading = { connection_form.read };

    fn read(reader: Reader<'_>, at: &mut usize) -> Result<NamedConnection, ParseFault> {
        let period = reader.word(at, Word::Period)?;
        let name = reader.name(at)?;
        reader.word(at, Word::OpenParen)?;
        connected_to(reader, at, period, name)
    }
}

// Behind the `(` of a connection: an expression or none, and `)`.
fn connected_to(
    reader: Reader<'_>,
    at: &mut usize,
    place: u32,
    name: Ident,
) -> Result<NamedConnection, ParseFault>
    requires { IsOfSource reader }
    ensures { Gives result (left reader.entry at.new) ((connected_to place name).read (left reader.entry at.old)) }
{
    if let Some(_) = reader.takes(at, Word::CloseParen) {
        let value = None;
        return Ok(NamedConnection { place, name, value });
    }
    let value = reader.expression(at)?;
    match reader.word(at, Word::CloseParen) {
        Ok(_) => {
            let value = Some(value);
            Ok(NamedConnection { place, name, value })
        }
        Err(fault) => {
            let_go(value);
            Err(fault)
        }
    }
}
