//! All lines of a script, in turn.
ghost use Rattle.std.specs.Prelude.{◌≡◌, ℕ, ◌≤◌, ◌^◌, List, [], ◌++◌, ◌∷◌, length, All, IfOk, OnOk, IfErr};
ghost use Rattle.std.specs.List.Sorted.{IsStrictlyIncreasing};
ghost use Rattle.vod_thin_design.specs.declared.thin.Vector.{Vector};
ghost use Rattle.vod_thin_design.specs.Netlist.{Netlist};
ghost use Rattle.vod_thin_design.specs.Names.{HasPlainNames};
ghost use Rattle.vod_thin_design.specs.Vectors.{IsLawful, assigned};
ghost use Rattle.vod_thin_script.specs.Script.{IsLine, AreLines, IsScript, IsRefused};
ghost use Rattle.vod_thin_script.specs.Reading.{AddsLine};
ghost use Rattle.vod_thin_script.specs.Fault.{IsFault, IsLineFault};

use crate::ScriptFault;
use crate::history::History;
use crate::inputs::Inputs;
use crate::line::{LineFault, read_line};
use crate::pieces::{behind, cut};
use std::alloc::Global;
use vod_thin_design::Design;

/// The most bytes of a script.
const MAX_BYTES: usize = 1_048_576;

/// The vectors of a script, in order, each with its assignments by rising input. It is refused at 0 where it has more than
/// 1,048,576 bytes, and else at its first line that isn't `TIME NAME=VALUE ..` with one space between the parts and LF at its
/// end, or whose vector isn't lawful behind those before it.
pub fn read_script<'d>(
    alloc: Global,
    design: &'d Design,
    script: &[u8],
) -> Result<History<'d>, ScriptFault>
    requires { HasPlainNames design.now }
    ensures design { IfOk result (λ past. past.design ≡ design.now) }
    ensures vectors { IfOk result (λ past. IsScript design.now script.now past.vectors) }
    ensures rises { IfOk result (λ past. All (λ v. IsStrictlyIncreasing (assigned v.moves)) past.vectors) }
    ensures refused { IfErr result (IsFault design.now script.now) }
{
    if script.len() > MAX_BYTES {
        return Err(ScriptFault::Refused { line: 0 });
    }
    let inputs = Inputs::of(alloc, design)?;
    let mut past = History::new(alloc, design)?;
    read_lines(alloc, &inputs, script, &mut past)?;
    Ok(past)
}

// Adds the vectors of lines to a history of none.
fn read_lines(
    alloc: Global,
    inputs: &Inputs,
    script: &[u8],
    past: &mut History,
) -> Result<(), ScriptFault>
    requires same { past.old.design ≡ inputs.now }
    requires none { past.old.vectors ≡ [] }
    requires names { HasPlainNames inputs.now }
    requires short { length script.now ≤ 2 ^ 20 }
    ensures design { past.new.design ≡ inputs.now }
    ensures lines { OnOk result (AreLines inputs.now script.now past.new.vectors) }
    ensures lawful { OnOk result (IsLawful inputs.now past.new.vectors) }
    ensures refused { IfErr result (IsLineFault inputs.now script.now) }
{
    let mut text = script;
    while !text.is_empty() {
        let number = past.vectors().len() as u64 + 1;
        let (line, ending) = cut(text, b'\n');
        let Some(rest) = behind(ending, b'\n') else {
            return Err(ScriptFault::Refused { line: number });
        };
        if let Err(fault) = add_line(alloc, inputs, line, past) {
            return Err(fault.at(number));
        }
        text = rest;
    }
    Ok(())
}

// Adds the vector of a line, where it is lawful behind those before it.
fn add_line(
    alloc: Global,
    inputs: &Inputs,
    line: &[u8],
    past: &mut History,
) -> Result<(), LineFault>
    requires same { past.old.design ≡ inputs.now }
    requires names { HasPlainNames inputs.now }
    ensures design { past.new.design ≡ inputs.now }
    ensures added { OnOk result (AddsLine inputs.now line.now past.old.vectors past.new.vectors) }
    ensures refused { result ≡ Err LineFault.Refused → (v : Vector)
        → IsLine inputs.now line.now v → IsLawful inputs.now (past.old.vectors ++ v ∷ []) → ⊥ }
{
    let vector = read_line(alloc, inputs, line)?;
    past.add(vector)?;
    Ok(())
}

/// A script has one list of vectors.
pub fn one_reading()
    ensures { (d : Netlist) → HasPlainNames d → (bytes : List ℕ) (vs ws : List Vector)
        → IsScript d bytes vs → IsScript d bytes ws → vs ≡ ws }
{}

/// A script that is refused is refused at one line, and isn't read.
pub fn one_refusal()
    ensures line { (d : Netlist) → HasPlainNames d → (bytes : List ℕ) (line other : ℕ) → IsRefused d bytes line → IsRefused d bytes other → line ≡ other }
    ensures unread { (d : Netlist) → HasPlainNames d → (bytes : List ℕ) (line : ℕ) (vs : List Vector) → IsRefused d bytes line → IsScript d bytes vs → ⊥ }
{}
