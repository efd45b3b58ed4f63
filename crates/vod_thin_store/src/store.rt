//! A log, begun with a head and the batches of some vectors.
ghost use Rattle.std.specs.Prelude.{◌≡◌, ℕ, ◌+◌, ◌*◌, ◌≤◌, ◌<◌, ◌^◌, [], List, length, take, drop, All, None, false, OnOk, IsErrOf};
ghost use Rattle.std.specs.List.Sorted.{IsStrictlyIncreasing};
ghost use Rattle.vod_io.specs.Faults.{Rose};
ghost use Rattle.vod_deck.specs.Outcomes.{Outcome, From, Only, Leaves};
ghost use Rattle.vod_thin_design.specs.Vectors.{IsLawful, assigned, known_since, last_time};
ghost use Rattle.vod_log.specs.Tail.{IsSettled};
ghost use Rattle.vod_thin_code.specs.Held.{said, IsHeld, IsSound};
ghost use Rattle.vod_thin_store.specs.declared.StoreFault.TheVariants.{Deck as DeckFault, NotEmpty};
ghost use Rattle.vod_thin_store.specs.Stored.{HasSaid, HoldsBatches, Records, Adds, EndsWith, known_by};

use crate::StoreFault;
use crate::append::{append_head, commit};
use std::alloc::Global;
use vod_deck::Deck;
use vod_log::{Counts, Tail};
use vod_thin_code::{Frame, batches_are_short, frames_are_records};
use vod_thin_design::{Design, Vector};

// A log has an image of the registers at each multiple of so many vectors.
const INTERVAL: u32 = 4096;

/// Appends to an empty log the head with this source and the batches of these vectors, each of 64 and a rest, and says
/// `ack N TIME` behind each once it is safe.
pub fn record<L: Deck>(
    alloc: Global,
    deck: &mut L,
    tail: Tail,
    design: &Design,
    source: &[u8],
    vectors: &[Vector],
    known: Option<u64>,
) -> Result<(), StoreFault>
    requires fresh { tail.broken ≡ false }
    requires settled { L.tells → IsSettled (L.view deck.old) tail.gate tail.last }
    requires short { length source.now ≤ 2 ^ 20 }
    requires inputs { length design.now.inputs ≤ 256 }
    requires lawful { IsLawful design.now vectors.now }
    requires rising { All (λ v. IsStrictlyIncreasing (assigned v.moves)) vectors.now }
    requires few { length vectors.now < 4096 }
    requires known { known ≡ known_since design.now vectors.now }
    ensures held { OnOk result (L.tells → IsSound design.now source.now 4096 vectors.now (L.view deck.new).bytes) }
    ensures batches { OnOk result (L.tells → HoldsBatches vectors.now (L.view deck.new).bytes) }
    ensures lasts { OnOk result (L.tells → Only (L.view deck.new).bytes (L.view deck.new).may_leave) }
    ensures said { OnOk result (L.tells → (c : Outcome) → (L.view deck.new).may_leave c → From (L.view deck.old).may_leave (HasSaid (said vectors.now)) c) }
    ensures crashes { L.tells → Leaves (L.view deck.old) (L.view deck.new) (From (L.view deck.old).may_leave (Records design.now source.now vectors.now)) }
    ensures begins { OnOk result (tail.last ≡ None) }
    ensures not_empty { IsErrOf result NotEmpty → tail.last ≡ None → ⊥ }
    ensures untouched { IsErrOf result NotEmpty → deck.new ≡ deck.old }
    ensures kept { (tail.last ≡ None → ⊥) → deck.new ≡ deck.old }
    ensures later { (L.view deck.old).faults ≤ (L.view deck.new).faults }
    ensures caused { IsErrOf result DeckFault → Rose (L.view deck.old).faults (L.view deck.new).faults }
{
    // A law, which does nothing when it runs: the bytes of a head are a frame with its header.
    frames_are_records();
    let mut tail = tail;
    let mut frame = Frame::with_room(alloc, frame_len(design, source))?;
    frame.head(INTERVAL, source)?;
    append_head(deck, &mut tail, frame.as_slice())?;
    append_batches(deck, tail, frame, design, source, vectors, known)
}

/// How many bytes the longest frame has, at most: a gate and a header are 49, a vector 12 and 12 for each input.
fn frame_len(design: &Design, source: &[u8]) -> usize
    requires short { length source.now ≤ 2 ^ 20 }
    requires inputs { length design.now.inputs ≤ 256 }
    ensures head { 49 + 8 + length source.now ≤ result }
    ensures batch { 49 + 64 * (12 + 12 * length design.now.inputs) ≤ result }
{
    let head = 8 + source.len();
    let batch = 64 * (12 + 12 * design.inputs().len());
    49 + head.max(batch)
}

/// The next vectors, 64 or what is left, where the first `held` are held.
fn next_batch(vectors: &[Vector], held: usize) -> &[Vector]
    requires { held ≤ length vectors.now }
    ensures { result.now ≡ take 64 (drop held vectors.now) }
{
    let (_, rest) = vectors.split_at(held);
    let (batch, _) = rest.split_at(rest.len().min(64));
    batch
}

/// The time of the last vector, or 0.
fn last_time(vectors: &[Vector]) -> u64
    ensures { result ≡ last_time vectors.now }
{
    match vectors.last() {
        Some(vector) => vector.time,
        None => 0,
    }
}

/// The time since when every input is known, where it isn't past this last time.
fn known_by(known: Option<u64>, last: u64) -> Option<u64>
    ensures { result ≡ known_by known last }
{
    match known {
        Some(time) => {
            if time <= last {
                return known;
            }
            None
        }
        None => None,
    }
}

/// Appends the batches of these vectors behind a head, and acknowledges each.
fn append_batches<L: Deck>(
    deck: &mut L,
    tail: Tail,
    frame: Frame,
    design: &Design,
    source: &[u8],
    vectors: &[Vector],
    known: Option<u64>,
) -> Result<(), StoreFault>
    requires fresh { tail.broken ≡ false }
    requires ends { EndsWith design.now [] tail.last }
    requires settled { L.tells → IsSettled (L.view deck.old) tail.gate tail.last }
    requires begun { L.tells → IsHeld design.now source.now 4096 [] (L.view deck.old).bytes }
    requires inputs { length design.now.inputs ≤ 256 }
    requires lawful { IsLawful design.now vectors.now }
    requires rising { All (λ v. IsStrictlyIncreasing (assigned v.moves)) vectors.now }
    requires few { length vectors.now < 4096 }
    requires known { known ≡ known_since design.now vectors.now }
    ensures held { OnOk result (L.tells → IsHeld design.now source.now 4096 vectors.now (L.view deck.new).bytes) }
    ensures batches { OnOk result (L.tells → HoldsBatches vectors.now (L.view deck.new).bytes) }
    ensures lasts { OnOk result (L.tells → Only (L.view deck.new).bytes (L.view deck.new).may_leave) }
    ensures said { OnOk result (L.tells → (c : Outcome) → (L.view deck.new).may_leave c → From (L.view deck.old).may_leave (HasSaid (said vectors.now)) c) }
    ensures crashes { L.tells → Leaves (L.view deck.old) (L.view deck.new) (From (L.view deck.old).may_leave (Adds design.now source.now vectors.now)) }
    ensures not_empty { IsErrOf result NotEmpty → ⊥ }
    ensures later { (L.view deck.old).faults ≤ (L.view deck.new).faults }
    ensures caused { IsErrOf result DeckFault → Rose (L.view deck.old).faults (L.view deck.new).faults }
{
    // Laws, which do nothing when they run: the bytes of a batch are a frame with its header, and
    // those of 64 vectors are no more than a header may say.
    frames_are_records();
    batches_are_short();
    let mut tail = tail;
    let mut frame = frame;
    let mut held = 0;
    while held < vectors.len() {
        let batch = next_batch(vectors, held);
        let last = last_time(batch);
        let after = Counts {
            vectors: (held + batch.len()) as u64,
            last,
            known: known_by(known, last),
        };
        frame.batch(held as u64, batch, after)?;
        commit(deck, &mut tail, frame.as_slice(), after)?;
        held += batch.len();
    }
    Ok(())
}
