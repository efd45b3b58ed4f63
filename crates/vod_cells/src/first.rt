//! What is stored before any step.
ghost use Rattle.std.specs.Prelude.{◌≡◌, ◌≤◌, ◌<◌, ◌^◌, length, map, replicate, All, IfOk, if◌then◌else◌, true, false, ◌∷◌, []};
ghost use Rattle.std.specs.List.{enumerate_from};
ghost use Rattle.vod_bits.specs.Bit.{BX, BZ};
ghost use Rattle.vod_bits.specs.declared.TheConstants.{WIDTH};
ghost use Rattle.vod_slot.specs.State.{first_value, first_words, input_signals};
ghost use Rattle.vod_cells.specs.Listening.{raised_at};
ghost use Rattle.vod_cells.specs.Stored.{stored_first};

use crate::flags::Flags;
use crate::tables::Tables;
use sqlite_items::Items;
use std::alloc::{AllocError, Global};
use vod_design::{Design, Input, Ram, Signal};
use vod_four::Four;

/// Inputs are z and all else is x, every driver awaits evaluation, and no edge came (4.2).
pub fn tables_of(alloc: Global, design: &Design) -> Result<Tables, AllocError>
    ensures { IfOk result (λ tables. tables ≡ stored_first design.now.netlist) }
{
    // Sizes are within limits: a law, which does nothing when it runs.
    design.keeps_rules();
    Ok(Tables {
        signals: first_values(alloc, design.signals(), design.inputs())?,
        memories: first_memories(alloc, design.memories())?,
        wake: Flags::new(alloc, design.drivers().len(), true)?,
        started: Flags::new(alloc, design.blocks().len(), false)?,
    })
}

// The value of each signal.
fn first_values(
    alloc: Global,
    signals: &[Signal],
    inputs: &[Input],
) -> Result<Vec<Four>, AllocError>
    requires sizes { All (λ s. (1 ≤ s.width) × (s.width ≤ WIDTH)) signals.now }
    requires inputs { All (λ i. i.signal < length signals.now) inputs.now }
    requires few { length signals.now < 2 ^ 32 }
    ensures { IfOk result (λ v. v.items ≡ map (λ e. first_value inputs.now e.0 e.1) (enumerate_from 0 signals.now)) }
{
    let driven = input_flags(alloc, signals.len(), inputs)?;
    let mut values = Vec::with_capacity(alloc, signals.len())?;
    for (n, signal) in signals.iter().enumerate() {
        values.push(all_of(signal.width, driven.is_set(n as u32)))?;
    }
    Ok(values)
}

// Which signals are inputs.
fn input_flags(alloc: Global, signals: usize, inputs: &[Input]) -> Result<Flags, AllocError>
    requires { All (λ i. i.signal < signals) inputs.now }
    ensures { IfOk result (λ flags. flags ≡ raised_at (λ n. true) (replicate signals false) (input_signals inputs.now)) }
{
    let mut flags = Flags::new(alloc, signals, false)?;
    for input in inputs {
        flags.raise(input.signal, true);
    }
    Ok(flags)
}

// A value of one kind of bit: z, or else x.
#[tactic(auto, using(vod_eval::proofs::Cuts::stretch))]
fn all_of(width: u8, impedance: bool) -> Four
    requires some { 1 ≤ width }
    requires within { width ≤ WIDTH }
    ensures { result ≡ replicate width (if impedance then BZ else BX) }
{
    one_of(impedance).resize(width, true)
}

fn one_of(impedance: bool) -> Four
    ensures { result ≡ (if impedance then BZ else BX) ∷ [] }
{
    if impedance {
        Four {
            width: 1,
            ones: 1,
            unks: 1,
        }
    } else {
        Four::unknown()
    }
}

// The words of each memory.
fn first_memories(alloc: Global, memories: &[Ram]) -> Result<Vec<Items<Four>>, AllocError>
    requires { All (λ m. (1 ≤ m.width) × (m.width ≤ WIDTH)) memories.now }
    ensures { IfOk result (λ v. v.items ≡ map first_words memories.now) }
{
    let mut lists = Vec::with_capacity(alloc, memories.len())?;
    for memory in memories {
        let words = first_words(alloc, memory)?;
        lists.push(words)?;
    }
    Ok(lists)
}

fn first_words(alloc: Global, memory: &Ram) -> Result<Items<Four>, AllocError>
    requires some { 1 ≤ memory.now.width }
    requires within { memory.now.width ≤ WIDTH }
    ensures { IfOk result (λ words. words ≡ first_words memory.now) }
{
    let words = vec![in alloc; all_of(memory.width, false); memory.words as usize]?;
    Ok(Items::from_vec(words))
}
