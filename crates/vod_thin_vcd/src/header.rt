// The lines before the first time.
ghost use Rattle.std.specs.Prelude.{◌≡◌, ◌^◌, ◌<◌, ◌++◌, IfOk, OnOk, length};
ghost use Rattle.std.specs.List.{enumerate_from, flat_map};
ghost use Rattle.vod_thin_vcd.specs.Text.{header_text, digest_line, scope_line, variable_type, var_line};

use crate::lines::code_of;
use sha2::{Digest, Sha256};
use std::alloc::{AllocError, Global};
use vod_thin_design::{Design, Signal};

/// The version, the digest of the source, the time unit, and the scope with its variables.
pub fn header_of(alloc: Global, design: &Design, source: &[u8]) -> Result<Vec<u8>, AllocError>
    ensures { IfOk result (λ text. text.items ≡ header_text source.now design.now) }
{
    let mut text = Vec::new(alloc);
    text.extend_from_slice(b"$version vod 1 $end\n")?;
    add_digest(alloc, &mut text, source)?;
    text.extend_from_slice(b"$timescale 1 ns $end\n")?;
    add_scope(&mut text, design.name())?;
    add_variables(&mut text, design.signals())?;
    text.extend_from_slice(b"$upscope $end\n")?;
    text.extend_from_slice(b"$enddefinitions $end\n")?;
    Ok(text)
}

// Adds the line of the source's digest.
fn add_digest(alloc: Global, text: &mut Vec<u8>, source: &[u8]) -> Result<(), AllocError>
    ensures { OnOk result (text.new.items ≡ text.old.items ++ digest_line source.now) }
{
    text.extend_from_slice(b"$comment source sha256 ")?;
    text.extend_from_slice(hex::encode(alloc, Sha256::digest(source))?.as_bytes())?;
    text.extend_from_slice(b" $end\n")?;
    Ok(())
}

// Adds the line of the scope of this name.
fn add_scope(text: &mut Vec<u8>, name: &[u8]) -> Result<(), AllocError>
    ensures { OnOk result (text.new.items ≡ text.old.items ++ scope_line name.now) }
{
    text.extend_from_slice(b"$scope module ")?;
    text.extend_from_slice(name)?;
    text.extend_from_slice(b" $end\n")?;
    Ok(())
}

// Adds the line of each signal.
fn add_variables(text: &mut Vec<u8>, signals: &[Signal]) -> Result<(), AllocError>
    requires { length signals.now < 2 ^ 25 }
    ensures { OnOk result (text.new.items ≡ text.old.items ++ flat_map (λ e. var_line e.0 e.1) (enumerate_from 0 signals.now)) }
{
    for (number, signal) in signals.iter().enumerate() {
        add_variable(text, number, signal)?;
    }
    Ok(())
}

// The type of a variable that is a register, or a net.
fn variable_type(register: bool) -> &'static [u8]
    ensures { result.now ≡ variable_type register }
{
    if register { b"reg" } else { b"wire" }
}

// Adds the line of a signal.
fn add_variable(text: &mut Vec<u8>, number: usize, signal: &Signal) -> Result<(), AllocError>
    requires { number < 2 ^ 25 }
    ensures { OnOk result (text.new.items ≡ text.old.items ++ var_line number signal.now) }
{
    text.extend_from_slice(b"$var ")?;
    text.extend_from_slice(variable_type(signal.register))?;
    text.extend_from_slice(b" 1 ")?;
    text.extend_from_slice(code_of(number).as_slice())?;
    text.extend_from_slice(b" ")?;
    text.extend_from_slice(signal.name.as_slice())?;
    text.extend_from_slice(b" $end\n")?;
    Ok(())
}
