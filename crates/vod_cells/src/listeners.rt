//! What a write reaches: the drivers that can read what is written, and the blocks that wait for its edges.
ghost use Rattle.std.specs.Prelude.{◌≡◌, ◌<◌, [], length, map, take, IfOk, OnOk};
ghost use Rattle.vod_design.specs.Reads.{reads};
ghost use Rattle.vod_cells.specs.Listening.{AreListeners};

use sqlite_items::Items;
use std::alloc::{AllocError, Global};
use vod_design::{Design, Driver, Read};
use vod_eval::add_reads;
use vod_fanout::FanOut;
use vod_readers::{memory_readers, signal_readers, waiting_blocks};

/// What each driver can read; and the drivers that can read each signal and each memory, and the blocks that wait for each signal.
#[derive(Drop)]
pub struct Listeners {
    pub reads: Vec<Items<Read>>,
    pub signals: FanOut,
    pub memories: FanOut,
    pub blocks: FanOut,
}

impl Listeners {
    /// Those of a design.
    pub fn of(alloc: Global, design: &Design) -> Result<Listeners, AllocError>
        ensures { IfOk result (λ listeners. AreListeners design.now.netlist listeners) }
    {
        // A design has few parts: a law, which does nothing when it runs.
        design.keeps_rules();
        let signals = design.signals().len() as u32;
        let memories = design.memories().len() as u32;
        Ok(Listeners {
            reads: reads_of(alloc, design.drivers())?,
            signals: signal_readers(alloc, signals, design.drivers())?,
            memories: memory_readers(alloc, memories, design.drivers())?,
            blocks: waiting_blocks(alloc, signals, design.blocks())?,
        })
    }
}

// What each driver can read.
fn reads_of(alloc: Global, drivers: &[Driver]) -> Result<Vec<Items<Read>>, AllocError>
    ensures { IfOk result (λ v. v.items ≡ map (λ a. reads a.value) drivers.now) }
{
    let mut lists = Vec::with_capacity(alloc, drivers.len())?;
    for driver in drivers {
        let list = read_by(alloc, driver)?;
        lists.push(list)?;
    }
    Ok(lists)
}

// What a driver can read.
fn read_by(alloc: Global, driver: &Driver) -> Result<Items<Read>, AllocError>
    ensures { IfOk result (λ list. list ≡ reads driver.now.value) }
{
    let mut list = Vec::new(alloc);
    add_reads(&driver.value, &mut list)?;
    Ok(Items::from_vec(list))
}
