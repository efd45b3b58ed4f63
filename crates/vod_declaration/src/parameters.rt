//! Parameters, read from the tokens of a source.
ghost use Rattle.vod_grammar.specs.State.{left, Gives, IsOfSource};
ghost use Rattle.vod_declaration.specs.ParametersForm.{first_parameter, parameter_port, parameter_ports, parameters, setting_form, type_form, typed_parameter};

use crate::lists::{enclosed, listed};
use crate::ranges::bounds;
use sqlite_items::Items;
use vod_expr::ParseFault;
use vod_grammar::{Phrase, Reader, Word};
use vod_tree::{
    ParameterDeclaration, ParameterPort, ParameterType, Setting, TypedParameter, let_go,
};

/// Behind `#`: the parameters of a module's header, of which the first begins with `parameter`. What its form reads,
/// `parameters_are_exact` says: exactly these (`AreParameterPorts`).
pub fn parameter_ports(
    reader: Reader<'_>,
    at: &mut usize,
) -> Result<Items<ParameterPort>, ParseFault>
    requires { IsOfSource reader }
    ensures { Gives result (left reader.entry at.new) (parameter_ports.read (left reader.entry at.old)) }
{
    reader.word(at, Word::OpenParen)?;
    let first = first_parameter(reader, at)?;
    enclosed::<PortPhrase>(reader, at, first)
}

fn first_parameter(reader: Reader<'_>, at: &mut usize) -> Result<ParameterPort, ParseFault>
    requires { IsOfSource reader }
    ensures { Gives result (left reader.entry at.new) (first_parameter.read (left reader.entry at.old)) }
{
    let place = reader.word(at, Word::Parameter)?;
    let parameter = typed_parameter(reader, at, place)?;
    Ok(ParameterPort::Parameter(parameter))
}

// A parameter of a header, behind others.
struct PortPhrase {}

impl Phrase for PortPhrase {
    type Node = ParameterPort;

    ghost use Rattle.vod_declaration.specs.ParametersForm.{parameter_port};

    ghost reading = { parameter_port.read };

    fn read(reader: Reader<'_>, at: &mut usize) -> Result<ParameterPort, ParseFault> {
        parameter_port(reader, at)
    }
}

fn parameter_port(reader: Reader<'_>, at: &mut usize) -> Result<ParameterPort, ParseFault>
    requires { IsOfSource reader }
    ensures { Gives result (left reader.entry at.new) (parameter_port.read (left reader.entry at.old)) }
{
    let Some(place) = reader.takes(at, Word::Parameter) else {
        let setting = setting(reader, at)?;
        return Ok(ParameterPort::Further(setting));
    };
    let parameter = typed_parameter(reader, at, place)?;
    Ok(ParameterPort::Parameter(parameter))
}

// Behind `parameter`, at this place.
fn typed_parameter(
    reader: Reader<'_>,
    at: &mut usize,
    place: u32,
) -> Result<TypedParameter, ParseFault>
    requires { IsOfSource reader }
    ensures { Gives result (left reader.entry at.new) ((typed_parameter place).read (left reader.entry at.old)) }
{
    let kind = parameter_type(reader, at)?;
    match setting(reader, at) {
        Ok(setting) => Ok(TypedParameter {
            place,
            kind,
            setting,
        }),
        Err(fault) => {
            let_go(kind);
            Err(fault)
        }
    }
}

// `signed` and a range, a range, or nothing.
fn parameter_type(reader: Reader<'_>, at: &mut usize) -> Result<Option<ParameterType>, ParseFault>
    requires { IsOfSource reader }
    ensures { Gives result (left reader.entry at.new) (type_form.read (left reader.entry at.old)) }
{
    if let Some(place) = reader.takes(at, Word::Signed) {
        let opener = reader.word(at, Word::OpenBracket)?;
        let range = bounds(reader, at, opener)?;
        let signed = true;
        return Ok(Some(ParameterType {
            place,
            signed,
            range,
        }));
    }
    let Some(place) = reader.takes(at, Word::OpenBracket) else {
        return Ok(None);
    };
    let range = bounds(reader, at, place)?;
    let signed = false;
    Ok(Some(ParameterType {
        place,
        signed,
        range,
    }))
}

fn setting(reader: Reader<'_>, at: &mut usize) -> Result<Setting, ParseFault>
    requires { IsOfSource reader }
    ensures { Gives result (left reader.entry at.new) (setting_form.read (left reader.entry at.old)) }
{
    let name = reader.name(at)?;
    reader.word(at, Word::Equals)?;
    let value = reader.expression(at)?;
    Ok(Setting { name, value })
}

// `NAME = expr`
struct SettingPhrase {}

impl Phrase for SettingPhrase {
    type Node = Setting;

    ghost use Rattle.vod_declaration.specs.ParametersForm.{setting_form};

    ghost reading = { setting_form.read };

    fn read(reader: Reader<'_>, at: &mut usize) -> Result<Setting, ParseFault> {
        setting(reader, at)
    }
}

// Behind `parameter` or `localparam` of an item.
pub(crate) fn parameters(
    reader: Reader<'_>,
    at: &mut usize,
) -> Result<ParameterDeclaration, ParseFault>
    requires { IsOfSource reader }
    ensures { Gives result (left reader.entry at.new) (parameters.read (left reader.entry at.old)) }
{
    let kind = parameter_type(reader, at)?;
    match listed::<SettingPhrase>(reader, at) {
        Ok(settings) => Ok(ParameterDeclaration { kind, settings }),
        Err(fault) => {
            let_go(kind);
            Err(fault)
        }
    }
}
