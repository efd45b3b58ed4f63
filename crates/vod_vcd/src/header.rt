// The lines before the first time (IEEE 1364-2005, 18.2.3).
ghost use Rattle.std.specs.Prelude.{◌≡◌, ◌<◌, ◌++◌, IfOk, OnOk};
ghost use Rattle.std.specs.Fmt.{decimal};
ghost use Rattle.vod_vcd.specs.Header.{header_text, digest_line, timescale_line, unit_name, scope_line, variable_type, range_text, var_line};

use crate::scopes::add_scopes;
use crate::value::code_of;
use itoa::Buffer;
use sha2::{Digest, Sha256};
use std::alloc::{AllocError, Global};
use vod_design::{Design, Precision, Signal, Unit};

/// The version, the digest of the source, the unit of times, and the scopes with their variables.
pub fn header_of(alloc: Global, design: &Design, source: &[u8]) -> Result<Vec<u8>, AllocError>
    ensures { IfOk result (λ text. text.items ≡ header_text source.now design.now.netlist) }
{
    let mut text = Vec::new(alloc);
    text.extend_from_slice(b"$version vod 1 $end\n")?;
    add_digest(alloc, &mut text, source)?;
    add_timescale(&mut text, design.precision())?;
    add_scopes(alloc, &mut text, design)?;
    text.extend_from_slice(b"$enddefinitions $end\n")?;
    Ok(text)
}

// Adds the line of the source's digest.
fn add_digest(alloc: Global, text: &mut Vec<u8>, source: &[u8]) -> Result<(), AllocError>
    ensures { OnOk result (text.new.items ≡ text.old.items ++ digest_line source.now) }
{
    text.extend_from_slice(b"$comment source sha256 ")?;
    text.extend_from_slice(hex::encode(alloc, Sha256::digest(source))?.as_bytes())?;
    text.extend_from_slice(b" $end\n")?;
    Ok(())
}

// Adds a number in decimal digits.
fn add_number(text: &mut Vec<u8>, number: u32) -> Result<(), AllocError>
    ensures { OnOk result (text.new.items ≡ text.old.items ++ decimal number) }
{
    text.extend_from_slice(Buffer::new().format(number).as_bytes())?;
    Ok(())
}

// The name of a unit.
fn unit_name(unit: Unit) -> &'static [u8]
    ensures { result.now ≡ unit_name unit }
{
    match unit {
        Unit::S => b"s",
        Unit::Ms => b"ms",
        Unit::Us => b"us",
        Unit::Ns => b"ns",
        Unit::Ps => b"ps",
        Unit::Fs => b"fs",
    }
}

// Adds the line of the unit of times.
fn add_timescale(text: &mut Vec<u8>, precision: Precision) -> Result<(), AllocError>
    ensures { OnOk result (text.new.items ≡ text.old.items ++ timescale_line precision) }
{
    text.extend_from_slice(b"$timescale ")?;
    add_number(text, u32::from(precision.count))?;
    text.extend_from_slice(b" ")?;
    text.extend_from_slice(unit_name(precision.unit))?;
    text.extend_from_slice(b" $end\n")?;
    Ok(())
}

/// Adds the line of the scope of this name.
pub fn add_scope(text: &mut Vec<u8>, name: &[u8]) -> Result<(), AllocError>
    ensures { OnOk result (text.new.items ≡ text.old.items ++ scope_line name.now) }
{
    text.extend_from_slice(b"$scope module ")?;
    text.extend_from_slice(name)?;
    text.extend_from_slice(b" $end\n")?;
    Ok(())
}

// The type of a variable that is a register, or a net.
fn variable_type(register: bool) -> &'static [u8]
    ensures { result.now ≡ variable_type register }
{
    if register { b"reg" } else { b"wire" }
}

// Adds the range of a signal that was declared with one.
#[tactic(auto, unfolding(crate::specs::Header::range_text))]
fn add_range(text: &mut Vec<u8>, signal: &Signal) -> Result<(), AllocError>
    ensures { OnOk result (text.new.items ≡ text.old.items ++ range_text signal.now) }
{
    if !signal.ranged {
        return Ok(());
    }
    let upper = signal.width.saturating_sub(1);
    text.extend_from_slice(b" [")?;
    add_number(text, u32::from(signal.lsb) + u32::from(upper))?;
    text.extend_from_slice(b":")?;
    add_number(text, u32::from(signal.lsb))?;
    text.extend_from_slice(b"]")?;
    Ok(())
}

/// Adds the line of a signal.
pub fn add_variable(text: &mut Vec<u8>, number: usize, signal: &Signal) -> Result<(), AllocError>
    requires { number < 16384 }
    ensures { OnOk result (text.new.items ≡ text.old.items ++ var_line number signal.now) }
{
    text.extend_from_slice(b"$var ")?;
    text.extend_from_slice(variable_type(signal.register))?;
    text.extend_from_slice(b" ")?;
    add_number(text, u32::from(signal.width))?;
    text.extend_from_slice(b" ")?;
    text.extend_from_slice(code_of(number).as_slice())?;
    text.extend_from_slice(b" ")?;
    text.extend_from_slice(signal.name.as_slice())?;
    add_range(text, signal)?;
    text.extend_from_slice(b" $end\n")?;
    Ok(())
}
