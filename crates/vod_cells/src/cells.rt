//! The values of a design's signals and memory words, with the drivers that await evaluation and the blocks that edges started.
ghost use Rattle.std.specs.Prelude.{◌≡◌, ◌+◌, ◌<◌, ◌≤◌, ◌^◌, false, length, slice_set, All, IfOk, option_map, []};
ghost use Rattle.vod_bits.specs.Bit.{BX};
ghost use Rattle.vod_bits.specs.Value.{resize_bits};
ghost use Rattle.vod_design.specs.declared.statement.Place.{Place};
ghost use Rattle.vod_design.specs.Flat.{InitialFits};
ghost use Rattle.vod_design.specs.Netlist.{word_count};
ghost use Rattle.vod_design.specs.Run.{eval};
ghost use Rattle.vod_design.specs.Values.{value_at};
ghost use Rattle.vod_eval.specs.Room.{room_of};
ghost use Rattle.vod_slot.specs.State.{flag_at};
ghost use Rattle.vod_slot.specs.Step.{initial_written, pending, target_written};
ghost use Rattle.vod_slot.specs.Store.{brought, bits_at, values_in, ToWord, bits_written, places_written, word_at};
ghost use Rattle.vod_cells.specs.Stored.{put_in, put_all_in, stored_first, TargetIsThere};

use crate::brought::{expression_value, pending_value};
use crate::first::tables_of;
use crate::listeners::Listeners;
use crate::tables::Tables;
use std::alloc::{AllocError, Global};
use std::marker::Model;
use vod_bits::{Bits, Word};
use vod_design::{Design, Driver, InitialTarget, Place, SizedExpr, Target, Variable};
use vod_four::Four;

/// What a simulation stores of a design, which contracts see as the design and its values and flags.
#[derive(Drop)]
pub struct Cells<'d> {
    design: &'d Design,
    listeners: Listeners,
    tables: Tables,
}

impl<'d> Model for Cells<'d> {
    ghost use Rattle.vod_cells.specs.Stored.{Cells, IsStoredOf};
    ghost use Rattle.vod_cells.specs.Listening.{AreListeners};
    ghost use Rattle.vod_design.specs.contracts.sized.SizedKind as kinds;
    ghost use Rattle.vod_design.specs.contracts.statement.Statement as statements;
    ghost use Rattle.std.specs.Coded.{codes};

    ghost coded = { Prim.hlevel (codes, kinds.the_row.coded, statements.the_row.coded) };

    ghost Value = { Cells };

    ghost view = { λ c. record { design = c.design.now.netlist; stored = c.tables } };

    ghost invariant = { λ c. IsStoredOf c.design.now.netlist c.tables × AreListeners c.design.now.netlist c.listeners };
}

impl<'d> Cells<'d> {
    /// Before any step: inputs are z and all else is x, every driver awaits evaluation, and no edge came. It takes all the memory
    /// that later calls need.
    pub fn start(alloc: Global, design: &'d Design) -> Result<Cells<'d>, AllocError>
        ensures design { IfOk result (λ cells. cells.design ≡ design.now.netlist) }
        ensures stored { IfOk result (λ cells. cells.stored ≡ stored_first design.now.netlist) }
    {
        let listeners = Listeners::of(alloc, design)?;
        let tables = tables_of(alloc, design)?;
        Ok(Cells {
            design,
            listeners,
            tables,
        })
    }

    /// The design.
    pub fn design(&self) -> &Design
        ensures { result.now.netlist ≡ self.now.design }
    {
        self.design
    }

    /// The value of a signal (4.2).
    pub fn value(&self, signal: u32) -> Four
        requires { signal < length self.now.design.signals }
        ensures { result ≡ value_at BX self.now.stored.store.signals signal }
    {
        self.tables.signals[signal as usize]
    }

    /// A word of a memory, by its place from the least index up (4.9).
    pub fn word(&self, memory: u32, place: u32) -> Four
        requires { place < word_count self.now.design memory }
        ensures { result ≡ word_at self.now.stored.store memory place }
    {
        self.tables.word(memory, place)
    }

    /// The value of an expression that stands in no function, such as an index or a right side in a block.
    pub fn value_of(&self, e: &SizedExpr, room: &mut [Four]) -> Four
        requires { room_of self.now.design.functions e.now ≤ length room.old }
        ensures { result ≡ eval BX self.now.design.functions (values_in self.now.stored.store) [] e.now }
    {
        expression_value(
            self.design.functions(),
            self.tables.signals.as_slice(),
            self.tables.memories.as_slice(),
            e,
            room,
        )
    }

    /// Evaluates a driver: what it brings its target, where a value counts as extended by zeros or as its lower bits, and none where the
    /// target has that already (6.1.2).
    #[tactic(auto, unfolding(vod_slot::specs::Store::brought))]
    pub fn evaluate(&self, driver: &Driver, room: &mut [Four]) -> Option<Four>
        requires target { All (λ (p : Place). p.signal < length self.now.design.signals) driver.now.target }
        requires room { room_of self.now.design.functions driver.now.value ≤ length room.old }
        ensures { option_map (resize_bits (length driver.now.target) false) result ≡ pending (brought self.now.design self.now.stored.store driver.now) (bits_at self.now.stored.store driver.now.target) }
    {
        let value = self.value_of(&driver.value, room);
        pending_value(
            self.tables.signals.as_slice(),
            driver.target.as_slice(),
            value,
        )
    }

    /// Whether a driver awaits evaluation.
    pub fn is_awake(&self, driver: u32) -> bool
        requires { driver < length self.now.design.drivers }
        ensures { result ≡ flag_at self.now.stored.wake driver }
    {
        self.tables.wake.is_set(driver)
    }

    /// Whether an edge came for a block since it last waited.
    pub fn is_started(&self, block: u32) -> bool
        requires { block < length self.now.design.blocks }
        ensures { result ≡ flag_at self.now.stored.started block }
    {
        self.tables.started.is_set(block)
    }

    /// A driver awaits evaluation no longer.
    pub fn settle_driver(&mut self, driver: u32)
        requires { driver < length self.old.design.drivers }
        ensures { self.new ≡ record self.old { stored = record self.old.stored { wake = slice_set self.old.stored.wake driver false } } }
    {
        self.tables.wake.clear(driver);
    }

    /// A block waits for its next edge.
    pub fn wait(&mut self, block: u32)
        requires { block < length self.old.design.blocks }
        ensures { self.new ≡ record self.old { stored = record self.old.stored { started = slice_set self.old.stored.started block false } } }
    {
        self.tables.started.clear(block);
    }

    /// Bits of a signal from a place up take a value, one after the other from the upper one. Each that changes wakes the drivers
    /// that can read it, and a change of the lowest bit is an edge for the blocks that wait for it (11.3, 9.7.2).
    pub fn put_bits(&mut self, signal: u32, low: Word, value: Four)
        requires signal { signal < length self.old.design.signals }
        requires places { low + length value ≤ 2 ^ 64 }
        ensures { self.new ≡ record self.old { stored = put_all_in self.old.design (bits_written signal low value) self.old.stored } }
    {
        self.tables
            .put_bits(self.design, &self.listeners, signal, low, value);
    }

    /// The bits of a driver's target take a value, extended by zeros or its lower bits (6.1.2); they change as in `put_bits`.
    pub fn put_places(&mut self, places: &[Place], value: Four)
        requires { All (λ (p : Place). p.signal < length self.old.design.signals) places.now }
        ensures { self.new ≡ record self.old { stored = put_all_in self.old.design (places_written places.now (resize_bits (length places.now) false value)) self.old.stored } }
    {
        self.tables
            .put_places(self.design, &self.listeners, places, value);
    }

    /// A word of a memory, by its place from the least index up, takes a value: where that isn't what it had, the drivers that can read
    /// it await evaluation.
    pub fn put_word(&mut self, memory: u32, place: Word, word: Four)
        requires { memory < length self.old.design.memories }
        ensures { self.new ≡ record self.old { stored = put_in self.old.design (ToWord memory place word) self.old.stored } }
    {
        self.tables
            .put_word(self.design, &self.listeners, memory, place, word);
    }

    /// An assignment of an initial item is made (6.2.1, 9.9.1).
    pub fn assign(&mut self, target: InitialTarget, value: Bits)
        requires { InitialFits self.old.design (length value) target }
        ensures { self.new ≡ record self.old { stored = put_all_in self.old.design (initial_written target value) self.old.stored } }
    {
        match target {
            InitialTarget::Register(n) => self.put_bits(n, 0, Four::of(value)),
            InitialTarget::Word(memory, place) => {
                self.put_word(memory, Word::from(place), Four::of(value));
            }
        }
    }

    /// A part of an activated update is written; a part at an index with x or z is none, and writes nothing (9.2.2).
    pub fn put_target(&mut self, target: Option<Target>, value: Four)
        requires { TargetIsThere self.old.design target (length value) }
        ensures { self.new ≡ record self.old { stored = put_all_in self.old.design (target_written target value) self.old.stored } }
    {
        match target {
            None | Some(Target::Bits(Variable::Local(_), _)) => {}
            Some(Target::Bits(Variable::Signal(n), low)) => self.put_bits(n, low, value),
            Some(Target::Word(memory, place)) => self.put_word(memory, place, value),
        }
    }
}
