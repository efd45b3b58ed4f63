//! The event queue over a thin design (IEEE 1364-2005, 11.3 and 11.4).
#![tactic(auto)]

ghost use Rattle.std.specs.Prelude.{◌≡◌, ◌<◌, ◌≢◌, ◌↔◌, All, AllPairs, length, IfOk};
ghost use Rattle.vod_thin_design.specs.Bits.{value_at};
ghost use Rattle.vod_thin_design.specs.Netlist.{IsAccepted};
ghost use Rattle.vod_thin_design.specs.Vectors.{assigned};
ghost use Rattle.vod_thin_queue.specs.State.{start_of, opened, IsShaped, IsResting};
ghost use Rattle.vod_thin_queue.specs.Step.{choices_of};
ghost use Rattle.vod_thin_queue.specs.Choice.{Takes};
ghost use Rattle.vod_thin_queue.specs.Weight.{weight_of};

mod agenda;
mod event;
mod fanout;
mod flags;
mod orders;
mod updates;
mod waiting;

use crate::agenda::Agenda;
pub use crate::event::Event;
use crate::fanout::Listeners;
pub use crate::orders::{inputs_take_moves, orders_agree, orders_end};
use std::alloc::{AllocError, Global};
use std::fmt;
use std::marker::Model;
use vod_thin_design::{Bit, Design, Move};

/// Memory ran out.
#[derive(Clone, Copy, PartialEq, Eq)]
pub struct Memory;

impl fmt::Display for Memory {
    fn fmt<W: fmt::Write>(&self, f: &mut fmt::Formatter<W>) -> fmt::Result {
        f.write_str("there was no memory")
    }
}

impl From<AllocError> for Memory {
    fn from(_e: AllocError) -> Memory {
        Memory
    }
}

/// The event queue of a design: the value of each signal, and the events that are left
/// (IEEE 1364-2005, 11.3).
#[derive(Drop)]
pub struct Queue<'d> {
    design: &'d Design,
    listeners: Listeners,
    agenda: Agenda,
}

impl<'d> Model for Queue<'d> {
    ghost use Rattle.vod_thin_queue.specs.Core.{Core, IsQueueOf};
    ghost use Rattle.vod_thin_design.specs.contracts.thin.Expr as e;
    ghost use Rattle.std.specs.Coded.{codes};

    ghost Value = { Core };

    ghost coded = { Prim.hlevel (codes, e.the_row.coded) };

    ghost view = { λ a. record { design = a.design.now; state = a.agenda } };

    ghost invariant = { λ a. IsQueueOf a.design.now a.agenda a.listeners };
}

impl<'d> Queue<'d> {
    /// The queue at time 0, before any step: inputs are z, all else is x, each initial value is
    /// left, every driver awaits evaluation and each block an edge. It takes all the memory that
    /// later calls need.
    pub fn start(alloc: Global, design: &'d Design) -> Result<Queue<'d>, Memory>
        ensures core { IfOk result (λ queue. (queue.design ≡ design.now) × (queue.state ≡ start_of design.now)) }
        ensures accepted { IfOk result (λ queue. IsAccepted design.now) }
    {
        let listeners = Listeners::of(alloc, design)?;
        let agenda = Agenda::start(alloc, design)?;
        Ok(Queue {
            design,
            listeners,
            agenda,
        })
    }

    /// Opens a slot, whose assignments become moves. It needs that nothing is left of the one
    /// before, and that each input of the design is assigned at most once.
    pub fn open_slot(&mut self, moves: &[Move])
        requires rests { IsResting self.old.state }
        requires once { AllPairs (λ i k. i ≢ k) (assigned moves.now) }
        requires within { All (λ i. i < length self.old.design.inputs) (assigned moves.now) }
        ensures design { self.new.design ≡ self.old.design }
        ensures state { self.new.state ≡ opened self.old.design moves.now self.old.state }
    {
        self.agenda.open_slot(self.design, moves);
    }

    /// How many events may happen now: 0 exactly where nothing is left. They are numbered by kind:
    /// moves, evaluations, updates, statements, initial values, the activation, and nonblocking
    /// updates that are active; and then by input, driver, block or initial number.
    pub fn choices(&self) -> u32
        ensures count { result ≡ length (choices_of self.now.state) }
        ensures none { (result ≡ 0) ↔ IsResting self.now.state }
    {
        self.agenda.choices()
    }

    /// Takes the event with this number (IEEE 1364-2005, 11.4). What is left weighs less then,
    /// so a loop that takes events ends.
    pub fn step(&mut self, choice: u32)
        requires { choice < length (choices_of self.old.state) }
        ensures design { self.new.design ≡ self.old.design }
        ensures stepped { Takes self.old.design self.old.state choice self.new.state }
        ensures falls { weight_of self.new.state < weight_of self.old.state }
    {
        let event = self.agenda.event(choice);
        self.agenda.take(self.design, &self.listeners, event);
    }

    /// The value of a signal.
    pub fn value(&self, signal: u32) -> Bit
        requires { signal < length self.now.design.signals }
        ensures { result ≡ value_at self.now.state.val signal }
    {
        self.agenda.values()[signal as usize]
    }

    /// The value of each signal, by number.
    pub fn values(&self) -> &[Bit]
        ensures values { result.now ≡ self.now.state.val }
        ensures shaped { IsShaped self.now.design self.now.state }
        ensures accepted { IsAccepted self.now.design }
    {
        self.agenda.values()
    }
}
