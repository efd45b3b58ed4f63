//! A window, written as the run goes on.
ghost use Rattle.std.specs.Prelude.{◌≡◌, ◌≤◌, ◌+◌, ◌∷◌, ◌++◌, List, All, length, MatchOption, IfOk, OnOk, OnErr, Err};
ghost use Rattle.vod_io.specs.Told.{Written};
ghost use Rattle.vod_io.specs.Faults.{HasCause, Rose};
ghost use Rattle.vod_thin_design.specs.Netlist.{IsAccepted};
ghost use Rattle.vod_thin_design.specs.Vectors.{IsLawful, last_time};
ghost use Rattle.vod_thin_queue.specs.State.{State};
ghost use Rattle.vod_thin_queue.specs.Run.{AreSlots};
ghost use Rattle.vod_thin_vcd.specs.Dump.{closing_text};
ghost use Rattle.vod_thin_vcd.specs.Stream.{window_text, rest_text};
ghost use Rattle.vod_thin_window.specs.Moments.{moments};
ghost use Rattle.vod_thin_window.specs.Request.{Request, dump_of, window_of, IsWritten, IsBegun};
ghost use Rattle.vod_thin_window.specs.Progress.{Awaits, IsOver, Skips};

use crate::run::{run_slot, started};
use std::alloc::Global;
use std::fmt;
use vod_io::{Failed, Sink};
use vod_thin_design::{Design, Vector};
use vod_thin_queue::{Queue, inputs_take_moves, orders_agree, orders_end};
use vod_thin_vcd::{Writer, window_is_cut};

/// A window of time, from one time to another, both in it.
#[derive(Clone, Copy)]
pub struct Window {
    pub from: u64,
    pub to: u64,
}

/// Why a window isn't written whole.
#[derive(Clone, Copy, Debug, PartialEq, Eq)]
pub enum WindowFault {
    /// The sink failed.
    Write,
    /// There was no memory.
    Memory,
}

impl fmt::Display for WindowFault {
    fn fmt<W: fmt::Write>(&self, f: &mut fmt::Formatter<W>) -> fmt::Result {
        match self {
            WindowFault::Write => write!(f, "the window could not be written"),
            WindowFault::Memory => write!(f, "out of memory"),
        }
    }
}

impl From<Failed> for WindowFault {
    ghost use Rattle.std.specs.Prelude.{◌≡◌};
    ghost use Rattle.vod_thin_window.specs.declared.window.WindowFault.TheVariants.{Write};

    ghost from_gives = { λ _ fault. fault ≡ Write };

    fn from(_failed: Failed) -> WindowFault {
        WindowFault::Write
    }
}

impl From<vod_thin_queue::Memory> for WindowFault {
    ghost use Rattle.std.specs.Prelude.{◌≡◌};
    ghost use Rattle.vod_thin_window.specs.declared.window.WindowFault.TheVariants.{Memory};

    ghost from_gives = { λ _ fault. fault ≡ Memory };

    fn from(_memory: vod_thin_queue::Memory) -> WindowFault {
        WindowFault::Memory
    }
}

impl From<vod_thin_vcd::Memory> for WindowFault {
    ghost use Rattle.std.specs.Prelude.{◌≡◌};
    ghost use Rattle.vod_thin_window.specs.declared.window.WindowFault.TheVariants.{Memory};

    ghost from_gives = { λ _ fault. fault ≡ Memory };

    fn from(_memory: vod_thin_vcd::Memory) -> WindowFault {
        WindowFault::Memory
    }
}

/// The first vector and the others, where it isn't past a time.
fn due(vectors: &[Vector], to: u64) -> Option<(&Vector, &[Vector])>
    ensures { MatchOption result (IsOver vectors.now to) (λ p. (p.0.now.time ≤ to) × (vectors.now ≡ p.0.now ∷ p.1.now) × (length p.1.now + 1 ≡ length vectors.now)) }
{
    let (vector, behind) = vectors.split_first()?;
    if vector.time > to {
        return None;
    }
    Some((vector, behind))
}

/// Runs the slots of the vectors not past a time, and answers the other vectors.
fn skip<'v>(queue: &mut Queue<'_>, vectors: &'v [Vector], from: u64) -> &'v [Vector]
    requires { Awaits queue.old.design queue.old.state vectors.now }
    ensures design { queue.new.design ≡ queue.old.design }
    ensures awaits { Awaits queue.old.design queue.new.state result.now }
    ensures skips { Skips queue.old.design queue.old.state vectors.now from queue.new.state result.now }
{
    let mut rest = vectors;
    while let Some((vector, behind)) = due(rest, from) {
        run_slot(queue, vector);
        rest = behind;
    }
    rest
}

/// Writes the close at a time, and flushes the sink.
fn finish<K: Sink>(writer: &mut Writer, time: u64, out: &mut K) -> Result<(), Failed>
    ensures written { Written result (K.taken out.old) (K.taken out.new) (closing_text writer.old.printed time) }
    ensures caused { HasCause (K.faults out.old) (K.faults out.new) result }
{
    writer.close(time, out)?;
    out.flush()
}

/// Writes the slots of the vectors not past a time, and the close at that time, and flushes the sink.
fn write_rest<K: Sink>(
    queue: &mut Queue<'_>,
    writer: &mut Writer,
    vectors: &[Vector],
    to: u64,
    out: &mut K,
) -> Result<(), Failed>
    requires awaits { Awaits queue.old.design queue.old.state vectors.now }
    requires shown { writer.old.shown ≡ queue.old.state.val }
    requires signals { writer.old.signals ≡ length queue.old.design.signals }
    ensures written { (ends : List State) → AreSlots queue.old.design queue.old.state vectors.now ends →
        Written result (K.taken out.old) (K.taken out.new) (rest_text queue.old.state.val writer.old.printed (moments vectors.now ends) to) }
    ensures caused { HasCause (K.faults out.old) (K.faults out.new) result }
{
    let mut rest = vectors;
    while let Some((vector, behind)) = due(rest, to) {
        run_slot(queue, vector);
        writer.slot(vector.time, queue.values(), out)?;
        rest = behind;
    }
    finish(writer, to, out)
}

/// Writes the header, the opening at a time, the slots from there on and not past another, and the close.
fn write_run<K: Sink>(
    queue: &mut Queue<'_>,
    writer: &mut Writer,
    vectors: &[Vector],
    window: Window,
    out: &mut K,
) -> Result<(), Failed>
    requires awaits { Awaits queue.old.design queue.old.state vectors.now }
    requires signals { writer.old.signals ≡ length queue.old.design.signals }
    ensures written { (ends : List State) → AreSlots queue.old.design queue.old.state vectors.now ends →
        Written result (K.taken out.old) (K.taken out.new)
        (writer.old.header ++ window_text queue.old.state.val (moments vectors.now ends) window.from window.to) }
    ensures caused { HasCause (K.faults out.old) (K.faults out.new) result }
{
    writer.header(out)?;
    let rest = skip(queue, vectors, window.from);
    writer.opening(window.from, queue.values(), out)?;
    write_rest(queue, writer, rest, window.to, out)
}

/// Writes the window of the run of a design over lawful vectors. After a fault the sink took a prefix of it.
pub fn write_window<K: Sink>(
    alloc: Global,
    source: &[u8],
    design: &Design,
    vectors: &[Vector],
    window: Window,
    out: &mut K,
) -> Result<(), WindowFault>
    requires { IsLawful design.now vectors.now }
    ensures written { let r : Request = record { source = source.now; design = design.now; vectors = vectors.now } in
        OnOk result (IsWritten r (window_of r window.from window.to) (K.taken out.old) (K.taken out.new)) }
    ensures begun { let r : Request = record { source = source.now; design = design.now; vectors = vectors.now } in
        OnErr result (IsBegun r (window_of r window.from window.to) (K.taken out.old) (K.taken out.new)) }
    ensures accepted { OnOk result (IsAccepted design.now) }
    ensures counted { K.faults out.old ≤ K.faults out.new }
    ensures caused { result ≡ Err WindowFault.Write → Rose (K.faults out.old) (K.faults out.new) }
{
    let mut queue = started(alloc, design)?;
    let mut writer = Writer::new(alloc, design, source)?;
    // Laws, which do nothing when they run: all orders of events have one end, each order ends, the
    // inputs have what the vectors so far gave them, and the four calls write the full dump's cut.
    orders_agree();
    orders_end();
    inputs_take_moves();
    window_is_cut();
    write_run(&mut queue, &mut writer, vectors, window, out)?;
    Ok(())
}

/// The time of the last vector, or 0.
fn last_time(vectors: &[Vector]) -> u64
    ensures { result ≡ last_time vectors.now }
{
    match vectors.split_last() {
        Some((last, _)) => last.time,
        None => 0,
    }
}

/// Writes the full dump of the run of a design over lawful vectors, which is its window from 0 to the
/// last time. After a fault the sink took a prefix of it.
pub fn write_dump<K: Sink>(
    alloc: Global,
    source: &[u8],
    design: &Design,
    vectors: &[Vector],
    out: &mut K,
) -> Result<(), WindowFault>
    requires { IsLawful design.now vectors.now }
    ensures written { let r : Request = record { source = source.now; design = design.now; vectors = vectors.now } in
        OnOk result (IsWritten r (dump_of r) (K.taken out.old) (K.taken out.new)) }
    ensures begun { let r : Request = record { source = source.now; design = design.now; vectors = vectors.now } in
        OnErr result (IsBegun r (dump_of r) (K.taken out.old) (K.taken out.new)) }
    ensures counted { K.faults out.old ≤ K.faults out.new }
    ensures caused { result ≡ Err WindowFault.Write → Rose (K.faults out.old) (K.faults out.new) }
{
    let whole = Window {
        from: 0,
        to: last_time(vectors),
    };
    // A law, which does nothing when it runs: the cut from 0 to the last time is the full dump.
    window_is_cut();
    let written = write_window(alloc, source, design, vectors, whole, out);
    written
}
