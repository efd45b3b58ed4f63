//! Runs of the event queue in an order of events: of those that may happen, the one with the number of the pick, counted round.
ghost use Rattle.std.specs.Prelude.{◌≡◌, All};
ghost use Rattle.vod_thin_design.specs.Names.{HasPlainNames};
ghost use Rattle.vod_thin_design.specs.Vectors.{IsVector};
ghost use Rattle.vod_thin_queue.specs.State.{IsResting};

use crate::netlist::digit_of;
use rows_text::Page;
use std::alloc::Global;
use vod_thin_design::{Design, Vector};
use vod_thin_queue::Queue;
use vod_thin_script::{History, read_script};

/// The run over a script: for each slot its time, how many events may happen before each one and behind the last, and the values
/// at its end.
pub fn show_run(alloc: Global, page: &mut Page, design: &Design, pick: u32, script: &[u8])
    requires { HasPlainNames design.now }
{
    match &read_script(alloc, design, script) {
        Ok(past) => show_slots(alloc, page, design, pick, past),
        Err(fault) => page.shown(fault),
    }
}

fn show_slots(alloc: Global, page: &mut Page, design: &Design, pick: u32, past: &History<'_>)
    requires { past.now.design ≡ design.now }
{
    let Ok(mut queue) = Queue::start(alloc, design) else {
        return page.word("Memory");
    };
    page.put(" start");
    show_values(page, &queue);
    page.put(" 0");
    finish(page, &mut queue, pick);
    show_vectors(page, &mut queue, past.vectors(), pick);
}

fn show_vectors(page: &mut Page, queue: &mut Queue<'_>, vectors: &[Vector], pick: u32)
    requires rests { IsResting queue.old.state }
    requires forms { All (IsVector queue.old.design) vectors.now }
{
    for vector in vectors {
        page.shown(&vector.time);
        show_slot(page, queue, vector, pick);
    }
}

fn show_slot(page: &mut Page, queue: &mut Queue<'_>, vector: &Vector, pick: u32)
    requires rests { IsResting queue.old.state }
    requires form { IsVector queue.old.design vector.now }
    ensures design { queue.new.design ≡ queue.old.design }
    ensures rests { IsResting queue.new.state }
{
    queue.open_slot(vector.moves.as_slice());
    finish(page, queue, pick);
}

/// Takes events until none is left.
fn finish(page: &mut Page, queue: &mut Queue<'_>, pick: u32)
    ensures design { queue.new.design ≡ queue.old.design }
    ensures rests { IsResting queue.new.state }
{
    let mut choices = queue.choices();
    while choices > 0 {
        page.put(",");
        page.put_shown(&choices);
        queue.step(pick % choices);
        choices = queue.choices();
    }
    show_values(page, queue);
}

fn show_values(page: &mut Page, queue: &Queue<'_>) {
    page.put(":");
    for value in queue.values() {
        page.put(digit_of(*value));
    }
}
