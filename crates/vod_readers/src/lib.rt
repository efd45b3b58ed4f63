//! Which drivers can read each signal and each memory, and which blocks wait for each net: one table for each.
#![tactic(auto)]

mod collected;

ghost use Rattle.std.specs.Prelude.{◌≡◌, ◌<◌, ◌^◌, ◌++◌, [], ◌∷◌, length, flat_map, IfOk, OnOk};
ghost use Rattle.vod_fanout.specs.FanOut.{each_from};
ghost use Rattle.vod_readers.specs.Readers.{read_signal, read_memory, signals_of, memories_of, nets_of, readers_from};

use collected::Collected;
use std::alloc::{AllocError, Global};
use vod_design::{Block, Driver, Read};
use vod_eval::add_reads;
use vod_fanout::FanOut;

/// The drivers that can read each of so many signals, by rising number, each once. It takes time in proportion to what drivers read.
pub fn signal_readers(alloc: Global, signals: u32, drivers: &[Driver]) -> Result<FanOut, AllocError>
    requires { length drivers.now < 2 ^ 25 }
    ensures made { IfOk result (λ t. t ≡ each_from (readers_from signals_of 0 drivers.now) 0 signals) }
    ensures size { IfOk result (λ t. length t ≡ signals) }
{
    let mut collected = Collected::new(alloc, signals)?;
    for (k, driver) in drivers.iter().enumerate() {
        let sources = signals_read(alloc, driver)?;
        collected.add_all(k as u32, sources.as_slice())?;
    }
    let table = collected.table(alloc, signals)?;
    Ok(table)
}

/// The drivers that can read each of so many memories, likewise.
pub fn memory_readers(
    alloc: Global,
    memories: u32,
    drivers: &[Driver],
) -> Result<FanOut, AllocError>
    requires { length drivers.now < 2 ^ 25 }
    ensures made { IfOk result (λ t. t ≡ each_from (readers_from memories_of 0 drivers.now) 0 memories) }
    ensures size { IfOk result (λ t. length t ≡ memories) }
{
    let mut collected = Collected::new(alloc, memories)?;
    for (k, driver) in drivers.iter().enumerate() {
        let sources = memories_read(alloc, driver)?;
        collected.add_all(k as u32, sources.as_slice())?;
    }
    let table = collected.table(alloc, memories)?;
    Ok(table)
}

/// The blocks that wait for an edge of each of so many signals, by rising number, each once.
pub fn waiting_blocks(alloc: Global, signals: u32, blocks: &[Block]) -> Result<FanOut, AllocError>
    requires { length blocks.now < 2 ^ 25 }
    ensures made { IfOk result (λ t. t ≡ each_from (readers_from nets_of 0 blocks.now) 0 signals) }
    ensures size { IfOk result (λ t. length t ≡ signals) }
{
    let mut collected = Collected::new(alloc, signals)?;
    for (k, block) in blocks.iter().enumerate() {
        let sources = nets(alloc, block)?;
        collected.add_all(k as u32, sources.as_slice())?;
    }
    let table = collected.table(alloc, signals)?;
    Ok(table)
}

// The signals that a driver can read.
fn signals_read(alloc: Global, driver: &Driver) -> Result<Vec<u32>, AllocError>
    ensures { IfOk result (λ v. v.items ≡ signals_of driver.now) }
{
    let mut reads = Vec::new(alloc);
    add_reads(&driver.value, &mut reads)?;
    let mut signals = Vec::with_capacity(alloc, reads.len())?;
    for read in reads.as_slice() {
        add_signal(*read, &mut signals)?;
    }
    Ok(signals)
}

// The memories that a driver can read.
fn memories_read(alloc: Global, driver: &Driver) -> Result<Vec<u32>, AllocError>
    ensures { IfOk result (λ v. v.items ≡ memories_of driver.now) }
{
    let mut reads = Vec::new(alloc);
    add_reads(&driver.value, &mut reads)?;
    let mut memories = Vec::with_capacity(alloc, reads.len())?;
    for read in reads.as_slice() {
        add_memory(*read, &mut memories)?;
    }
    Ok(memories)
}

// Adds the signal of what is read.
fn add_signal(read: Read, list: &mut Vec<u32>) -> Result<(), AllocError>
    ensures { OnOk result (list.new.items ≡ list.old.items ++ read_signal read) }
{
    match read {
        Read::Whole(signal) | Read::Bits(signal, _, _) => add(signal, list),
        Read::Word(_, _) | Read::Ram(_) => Ok(()),
    }
}

// Adds the memory of what is read.
fn add_memory(read: Read, list: &mut Vec<u32>) -> Result<(), AllocError>
    ensures { OnOk result (list.new.items ≡ list.old.items ++ read_memory read) }
{
    match read {
        Read::Whole(_) | Read::Bits(_, _, _) => Ok(()),
        Read::Word(memory, _) | Read::Ram(memory) => add(memory, list),
    }
}

// The nets that a block waits for.
fn nets(alloc: Global, block: &Block) -> Result<Vec<u32>, AllocError>
    ensures { IfOk result (λ v. v.items ≡ nets_of block.now) }
{
    let mut nets = Vec::with_capacity(alloc, 2)?;
    nets.push(block.clock.signal)?;
    match block.reset {
        None => {}
        Some(reset) => nets.push(reset.signal)?,
    }
    Ok(nets)
}

fn add(number: u32, list: &mut Vec<u32>) -> Result<(), AllocError>
    ensures { OnOk result (list.new.items ≡ list.old.items ++ number ∷ []) }
{
    list.push(number)?;
    Ok(())
}
