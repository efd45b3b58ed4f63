//! What a change of each signal reaches: the drivers that read it, and the blocks that wait for it.
ghost use Rattle.std.specs.Prelude.{◌≡◌, ℕ, ◌<◌, ◌==◌, ◌||◌, ◌&&◌, ◌++◌, ◌∷◌, [], length, replicate, slice_set, IfOk, OnOk};
ghost use Rattle.vod_thin_design.specs.Expr.{reads};
ghost use Rattle.vod_thin_design.specs.Netlist.{has};
ghost use Rattle.vod_thin_queue.specs.State.{list_at};
ghost use Rattle.vod_thin_queue.specs.Step.{reads_signal, waits_for};
ghost use Rattle.vod_thin_queue.specs.Index.{IsIndex, AreListeners};

use std::alloc::{AllocError, Global};
use std::marker::Model;
use vod_thin_design::{Design, Expr, expr_by_operands};

/// For each signal, the drivers that read it and the blocks that wait for its edges.
#[derive(Drop)]
pub struct Listeners {
    pub readers: Fanout,
    pub waiters: Fanout,
}

impl Listeners {
    /// Those of a design.
    pub fn of(alloc: Global, design: &Design) -> Result<Listeners, AllocError>
        ensures { IfOk result (λ listeners. AreListeners design.now listeners) }
    {
        let readers = readers_of(alloc, design)?;
        let waiters = waiters_of(alloc, design)?;
        Ok(Listeners { readers, waiters })
    }
}

/// For each signal a list of places.
#[derive(Drop)]
pub struct Fanout {
    lists: Vec<Vec<u32>>,
}

impl Model for Fanout {
    ghost use Rattle.std.specs.Prelude.{ℕ, List, map};

    ghost Value = { List (List ℕ) };

    ghost view = { λ a. map (λ list. list.items) a.lists.items };
}

impl Fanout {
    /// The places that a signal reaches.
    pub fn get(&self, signal: u32) -> &[u32]
        requires { signal < length self.now }
        ensures { result.now ≡ list_at self.now signal }
    {
        self.lists[signal as usize].as_slice()
    }

    fn none(alloc: Global, signals: usize) -> Result<Fanout, AllocError>
        ensures { IfOk result (λ fanout. fanout ≡ replicate signals []) }
    {
        let mut lists = Vec::with_capacity(alloc, signals)?;
        for _ in 0..signals {
            lists.push(Vec::new(alloc))?;
        }
        Ok(Fanout { lists })
    }

    /// Adds a place to the list of a signal, where there is one.
    fn push(&mut self, signal: u32, place: u32) -> Result<(), AllocError>
        ensures same { length self.new ≡ length self.old }
        ensures pushed { OnOk result (self.new ≡ slice_set self.old signal (list_at self.old signal ++ place ∷ [])) }
    {
        if (signal as usize) < self.lists.len() {
            self.lists[signal as usize].push(place)?;
        }
        Ok(())
    }
}

/// The drivers that read each signal.
fn readers_of(alloc: Global, design: &Design) -> Result<Fanout, AllocError>
    ensures { IfOk result (λ fanout. IsIndex reads_signal design.now.drivers (length design.now.signals) fanout) }
{
    let mut fanout = Fanout::none(alloc, design.signals().len())?;
    for (place, driver) in design.drivers().iter().enumerate() {
        add_reads(&mut fanout, place as u32, &driver.value)?;
    }
    Ok(fanout)
}

/// The blocks that wait for each signal.
fn waiters_of(alloc: Global, design: &Design) -> Result<Fanout, AllocError>
    ensures { IfOk result (λ fanout. IsIndex waits_for design.now.blocks (length design.now.signals) fanout) }
{
    let mut fanout = Fanout::none(alloc, design.signals().len())?;
    for (place, block) in design.blocks().iter().enumerate() {
        fanout.push(block.clock, place as u32)?;
    }
    Ok(fanout)
}

/// Adds a place to the list of each signal that an expression reads.
fn add_reads(fanout: &mut Fanout, place: u32, value: &Expr) -> Result<(), AllocError>
    ensures same { length fanout.new ≡ length fanout.old }
    ensures added { OnOk result ((s k : ℕ) → s < length fanout.old → has (list_at fanout.new s) k ≡ (has (list_at fanout.old s) k || (has (reads value.now) s && (place == k)))) }
{
    // What an operator reads, by its operands: a law, which does nothing when it runs.
    expr_by_operands();
    match value {
        Expr::Signal(signal) => fanout.push(*signal, place),
        Expr::Not(a) => add_reads(fanout, place, a.get()),
        Expr::And(a, b) | Expr::Xor(a, b) | Expr::Or(a, b) => {
            add_reads(fanout, place, a.get())?;
            add_reads(fanout, place, b.get())
        }
    }
}
