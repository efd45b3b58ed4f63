ghost use Rattle.std.specs.Prelude.{◌≡◌, ◌<◌, ◌≤◌, [], length, All, vec_len, vec_capacity, IfOk, OnOk, OnErr, IsOk, replicate, ◌∷◌};
ghost use Rattle.vod_bits.specs.Bit.{BX};
ghost use Rattle.vod_io.specs.Told.{Written};
ghost use Rattle.vod_io.specs.Faults.{HasCause};
ghost use Rattle.vod_vcd.specs.Header.{header_text};
ghost use Rattle.vod_vcd.specs.Text.{opening_text};
ghost use Rattle.vod_vcd.specs.Dump.{differing, closing_text};
ghost use Rattle.vod_vcd.specs.Page.{Covers};
ghost use Rattle.vod_vcd.specs.Stream.{slot_text, printed_after};

use crate::Memory;
use crate::header::header_of;
use crate::lines::{most_bytes_of, put_changes, put_opening, put_time_line};
use crate::written::put_written;
use std::alloc::Global;
use std::marker::Model;
use vod_design::Design;
use vod_four::Four;
use vod_io::{Failed, Sink, put_all};

// An x, which stands for each value before the first is written.
const UNKNOWN: Four = Four {
    width: 1,
    ones: 0,
    unks: 1,
};

// What was written last: the values shown, and the time printed.
#[derive(Drop)]
struct Last {
    values: Vec<Four>,
    time: u64,
}

impl Last {
    fn set(&mut self, time: u64, values: &[Four])
        requires { vec_len self.old.values ≡ length values.now }
        ensures values { self.new.values.items ≡ values.now }
        ensures len { vec_len self.new.values ≡ vec_len self.old.values }
        ensures time { self.new.time ≡ time }
    {
        self.values.copy_from_slice(values);
        self.time = time;
    }
}

impl Last {
    // Takes over the values of some signals, among which are all that differ.
    fn take_over(&mut self, time: u64, values: &[Four], numbers: &[u32])
        requires same { vec_len self.old.values ≡ length values.now }
        requires covers { Covers numbers.now self.old.values.items values.now }
        ensures values { self.new.values.items ≡ values.now }
        ensures len { vec_len self.new.values ≡ vec_len self.old.values }
        ensures time { self.new.time ≡ time }
    {
        for number in numbers {
            self.values[*number as usize] = values[*number as usize];
        }
        self.time = time;
    }
}

/// Writes a dump (IEEE 1364-2005, 18.2) in four calls: the header, the opening, each slot, the close.
/// Only `new` takes memory. After `Failed` the sink took a prefix of what the call writes.
#[derive(Drop)]
pub struct Writer {
    header: Vec<u8>,
    last: Last,
    // The text of a call, built here before it is put.
    text: Vec<u8>,
    // The numbers of signals that were written, sorted here.
    numbers: Vec<u32>,
}

impl Model for Writer {
    ghost use Rattle.std.specs.Prelude.{vec_len, vec_capacity};
    ghost use Rattle.vod_vcd.specs.Page.{Page, HasRoom};

    ghost Value = { Page };

    ghost view = { λ w. record { header = w.header.items; signals = vec_len w.last.values; shown = w.last.values.items; printed = w.last.time } };

    ghost invariant = { λ w. HasRoom (vec_len w.last.values) (vec_capacity w.text) (vec_capacity w.numbers) };
}

impl Writer {
    /// The writer for a design and the bytes of its source; it takes all room that its calls need.
    /// As yet each value shown is one x, and the time printed is 0.
    pub fn new(alloc: Global, design: &Design, source: &[u8]) -> Result<Writer, Memory>
        ensures { IfOk result (λ writer. writer ≡ record {
          header = header_text source.now design.now.netlist;
          signals = length design.now.netlist.signals;
          shown = replicate (length design.now.netlist.signals) (BX ∷ []);
          printed = 0;
        }) }
    {
        design.keeps_rules();
        let signals = design.signals().len();
        Ok(Writer {
            header: header_of(alloc, design, source)?,
            last: Last {
                values: vec![in alloc; UNKNOWN; signals]?,
                time: 0,
            },
            text: Vec::with_capacity(alloc, most_bytes_of(signals))?,
            numbers: Vec::with_capacity(alloc, signals)?,
        })
    }

    /// Writes the lines before the first time.
    pub fn header<K: Sink>(&mut self, out: &mut K) -> Result<(), Failed>
        ensures written { Written result (K.taken out.old) (K.taken out.new) self.old.header }
        ensures kept { self.new ≡ self.old }
        ensures caused { HasCause (K.faults out.old) (K.faults out.new) result }
    {
        put_all(out, &self.header)?;
        Ok(())
    }

    /// Writes the time, in units of the time scale, and the value of each signal.
    pub fn opening<K: Sink>(
        &mut self,
        time: u64,
        values: &[Four],
        out: &mut K,
    ) -> Result<(), Failed>
        requires { length values.now ≡ self.old.signals }
        ensures written { Written result (K.taken out.old) (K.taken out.new) (opening_text time values.now) }
        ensures shown { OnOk result (self.new ≡ record self.old { shown = values.now; printed = time }) }
        ensures kept { OnErr result (self.new ≡ self.old) }
        ensures caused { HasCause (K.faults out.old) (K.faults out.new) result }
    {
        self.text.clear();
        put_opening(&mut self.text, time, values);
        put_all(out, &self.text)?;
        self.last.set(time, values);
        Ok(())
    }

    /// Writes the time, in units of the time scale, and the values that differ from those last shown:
    /// nothing where none does.
    pub fn slot<K: Sink>(&mut self, time: u64, values: &[Four], out: &mut K) -> Result<(), Failed>
        requires { length values.now ≡ self.old.signals }
        ensures written { Written result (K.taken out.old) (K.taken out.new) (slot_text self.old.shown time values.now) }
        ensures shown { OnOk result (self.new ≡ record self.old {
          shown = values.now;
          printed = printed_after self.old.shown self.old.printed time values.now;
        }) }
        ensures kept { OnErr result (self.new ≡ self.old) }
        ensures caused { HasCause (K.faults out.old) (K.faults out.new) result }

        // Without a change there is no call of the sink.
        ensures quiet { differing self.old.shown values.now ≡ [] → IsOk result × (out.new ≡ out.old) }
    {
        self.text.clear();
        put_time_line(&mut self.text, time);
        let unchanged = self.text.len();
        put_changes(&mut self.text, &self.last.values, values);
        if self.text.len() == unchanged {
            return Ok(());
        }
        put_all(out, &self.text)?;
        self.last.set(time, values);
        Ok(())
    }

    /// Writes what `slot` writes, of a slot in which no other signals than those of these numbers differ from the values last shown.
    /// It takes time in proportion to them, and to sort them.
    pub fn slot_of<K: Sink>(
        &mut self,
        time: u64,
        values: &[Four],
        written: &[u32],
        out: &mut K,
    ) -> Result<(), Failed>
        requires same { length values.now ≡ self.old.signals }
        requires covers { Covers written.now self.old.shown values.now }
        ensures written { Written result (K.taken out.old) (K.taken out.new) (slot_text self.old.shown time values.now) }
        ensures shown { OnOk result (self.new ≡ record self.old {
          shown = values.now;
          printed = printed_after self.old.shown self.old.printed time values.now;
        }) }
        ensures kept { OnErr result (self.new ≡ self.old) }
        ensures caused { HasCause (K.faults out.old) (K.faults out.new) result }

        // Without a change there is no call of the sink.
        ensures quiet { differing self.old.shown values.now ≡ [] → IsOk result × (out.new ≡ out.old) }
    {
        self.text.clear();
        put_time_line(&mut self.text, time);
        let unchanged = self.text.len();
        put_written(
            &mut self.text,
            &mut self.numbers,
            &self.last.values,
            values,
            written,
        );
        if self.text.len() == unchanged {
            return Ok(());
        }
        put_all(out, &self.text)?;
        self.last.take_over(time, values, &self.numbers);
        Ok(())
    }

    /// Writes the last time, in units of the time scale, unless that time was printed last.
    pub fn close<K: Sink>(&mut self, time: u64, out: &mut K) -> Result<(), Failed>
        ensures written { Written result (K.taken out.old) (K.taken out.new) (closing_text self.old.printed time) }
        ensures kept { self.new ≡ self.old }
        ensures caused { HasCause (K.faults out.old) (K.faults out.new) result }

        // Where that time was printed last there is no call of the sink.
        ensures quiet { self.old.printed ≡ time → IsOk result × (out.new ≡ out.old) }
    {
        if self.last.time == time {
            return Ok(());
        }
        self.text.clear();
        put_time_line(&mut self.text, time);
        put_all(out, &self.text)?;
        Ok(())
    }
}
