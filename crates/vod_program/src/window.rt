//! The command `window LOG A B`.
ghost use Rattle.std.specs.Prelude.{◌≡◌, ◌≤◌, ℕ, Ok, Err, IfOk, IfErr};
ghost use Rattle.vod_io.specs.Faults.{Rose};
ghost use Rattle.vod_deck.specs.Outcomes.{View};
ghost use Rattle.vod_log.specs.Tail.{IsUnchanged};
ghost use Rattle.vod_thin_replay.specs.Replay.{IsOpened};
ghost use Rattle.vod_program.specs.Answer.{Output, Device, output_of, device_of, IsInside, WindowAnswers};
ghost use Rattle.vod_program.specs.Quiet.{Writes};

use crate::faults::{log_fault, replay_fault, window_fault};
use crate::phase::held_design;
use crate::status::{Fault, Part};
use std::alloc::Global;
use vod_deck::Deck;
use vod_io::Sink;
use vod_log::{Bytes, Log};
use vod_thin::one_design;
use vod_thin_code::one_head;
use vod_thin_replay::{first_image, range, read_source, read_vectors};
use vod_thin_window::{Window, window_of_front, write_window};

/// The log on a deck, which holds no image and has the window in what it holds.
fn open_window<L: Deck>(alloc: Global, deck: &mut L, window: Window) -> Result<Log, Fault>
    ensures opened { IfOk result (λ log. IsOpened L.tells (L.view deck.old).bytes log) }
    ensures inside { IfOk result (λ log. L.tells → IsInside (L.view deck.old).bytes window) }
    ensures refused { let device : Device = device_of L.tells (L.view deck.old) (L.view deck.new) in
        IfErr result (λ fault. (output : Output) → output.after ≡ output.before → WindowAnswers output device window (Err fault)) }
    ensures quiet { IfErr result (λ fault. fault ≡ Fault.Write → ⊥) }
    ensures unchanged { L.tells → IsUnchanged (L.view deck.old) (L.view deck.new) }
    ensures later { (L.view deck.old).faults ≤ (L.view deck.new).faults }
{
    let log = match Log::open(alloc, deck) {
        Ok(log) => log,
        Err(fault) => return Err(log_fault(fault)),
    };
    if let Some(at) = first_image(&log) {
        return Err(Fault::NotYet(Part::Log, at));
    }
    match range(&log, window.from, window.to) {
        Ok(()) => Ok(log),
        Err(fault) => Err(Fault::Range(fault)),
    }
}

/// Writes the window of the run that a log holds.
pub fn window<L: Deck, K: Sink>(
    alloc: Global,
    deck: &mut L,
    window: Window,
    out: &mut K,
) -> Result<(), Fault>
    ensures answers { let output : Output = output_of (K.taken out.old) (K.taken out.new) (K.faults out.old) (K.faults out.new) in let device : Device = device_of L.tells (L.view deck.old) (L.view deck.new) in WindowAnswers output device window result }
    ensures unchanged { L.tells → IsUnchanged (L.view deck.old) (L.view deck.new) }
    ensures quiet { (Writes result → ⊥) → out.new ≡ out.old }
    ensures deck_counted { (L.view deck.old).faults ≤ (L.view deck.new).faults }
    ensures out_counted { K.faults out.old ≤ K.faults out.new }
{
    let log = open_window(alloc, deck, window)?;
    let mut bytes = Bytes::new(alloc);
    let source = match read_source(deck, &log, &mut bytes) {
        Ok(source) => source,
        Err(fault) => return Err(replay_fault(fault)),
    };
    let design = held_design(alloc, source)?;
    let past = match read_vectors(alloc, deck, &log, &design, window.to) {
        Ok(past) => past,
        Err(fault) => return Err(replay_fault(fault)),
    };
    // Laws, which do nothing when they run. The payload of a head has one source.
    one_head();
    // A source has one design.
    one_design();
    // Vectors past the end of a window change nothing of it.
    window_of_front();
    match write_window(alloc, source, &design, past.vectors(), window, out) {
        Ok(()) => Ok(()),
        Err(fault) => Err(window_fault(fault)),
    }
}
