//! One record, appended to a log and acknowledged.
ghost use Rattle.std.specs.Prelude.{◌≡◌, ◌+◌, ◌≤◌, length, Some, None, true, false, OnOk, OnErr, IsErrOf};
ghost use Rattle.vod_io.specs.Faults.{Rose, HasCause};
ghost use Rattle.vod_deck.specs.Outcomes.{Outcome, From, Leaves};
ghost use Rattle.vod_log.specs.Format.{committed};
ghost use Rattle.vod_log.specs.Tail.{Continues, IsSettled, HoldsEither, appended, frame_header};
ghost use Rattle.vod_thin_code.specs.Held.{ack};
ghost use Rattle.vod_thin_store.specs.declared.StoreFault.TheVariants.{Deck as DeckFault, NotEmpty, Memory};
ghost use Rattle.vod_thin_store.specs.Stored.{HasSaid, Commits};

use crate::StoreFault;
use crate::ack::say_ack;
use vod_deck::Deck;
use vod_io::Failed;
use vod_log::{Counts, Tail};

/// Appends a frame, which goes on behind a tail that isn't broken.
fn append<L: Deck>(deck: &mut L, tail: &mut Tail, frame: &[u8]) -> Result<(), Failed>
    requires whole { tail.old.broken ≡ false }
    requires goes_on { Continues tail.old.last frame.now }
    requires settled { L.tells → IsSettled (L.view deck.old) tail.old.gate tail.old.last }
    ensures tail { OnOk result (tail.new ≡ record { gate = tail.old.gate + length frame.now; last = Some (frame_header frame.now); broken = false }) }
    ensures held { OnOk result (L.tells → committed (L.view deck.new).bytes ≡ appended (committed (L.view deck.old).bytes) tail.old.gate frame.now) }
    ensures settled { OnOk result (L.tells → IsSettled (L.view deck.new) tail.new.gate tail.new.last) }
    ensures crashes { L.tells → Leaves (L.view deck.old) (L.view deck.new)
        (From (L.view deck.old).may_leave (HoldsEither (committed (L.view deck.old).bytes) (appended (committed (L.view deck.old).bytes) tail.old.gate frame.now))) }
    ensures caused { HasCause (L.view deck.old).faults (L.view deck.new).faults result }
{
    match tail.append(deck, frame) {
        Ok(()) => Ok(()),
        Err(_) => Err(Failed),
    }
}

/// Appends the head of a log, where the log is empty.
pub fn append_head<L: Deck>(deck: &mut L, tail: &mut Tail, frame: &[u8]) -> Result<(), StoreFault>
    requires whole { tail.old.broken ≡ false }
    requires settled { L.tells → IsSettled (L.view deck.old) tail.old.gate tail.old.last }
    ensures goes_on { OnOk result (Continues tail.old.last frame.now) }
    ensures tail { OnOk result (tail.new ≡ record { gate = tail.old.gate + length frame.now; last = Some (frame_header frame.now); broken = false }) }
    ensures held { OnOk result (L.tells → committed (L.view deck.new).bytes ≡ appended (committed (L.view deck.old).bytes) tail.old.gate frame.now) }
    ensures settled { OnOk result (L.tells → IsSettled (L.view deck.new) tail.new.gate tail.new.last) }
    ensures crashes { L.tells → Continues tail.old.last frame.now → Leaves (L.view deck.old) (L.view deck.new)
        (From (L.view deck.old).may_leave (HoldsEither (committed (L.view deck.old).bytes) (appended (committed (L.view deck.old).bytes) tail.old.gate frame.now))) }
    ensures not_empty { IsErrOf result NotEmpty → Continues tail.old.last frame.now → ⊥ }
    ensures untouched { (Continues tail.old.last frame.now → ⊥) → deck.new ≡ deck.old }
    ensures room { IsErrOf result Memory → ⊥ }
    ensures later { (L.view deck.old).faults ≤ (L.view deck.new).faults }
    ensures caused { IsErrOf result DeckFault → Rose (L.view deck.old).faults (L.view deck.new).faults }
{
    if !tail.is_continued_by(frame) {
        return Err(StoreFault::NotEmpty);
    }
    Ok(append(deck, tail, frame)?)
}

/// Appends the frame of a batch, and then acknowledges it.
pub fn commit<L: Deck>(
    deck: &mut L,
    tail: &mut Tail,
    frame: &[u8],
    after: Counts,
) -> Result<(), Failed>
    requires whole { tail.old.broken ≡ false }
    requires goes_on { Continues tail.old.last frame.now }
    requires settled { L.tells → IsSettled (L.view deck.old) tail.old.gate tail.old.last }
    ensures tail { OnOk result (tail.new ≡ record { gate = tail.old.gate + length frame.now; last = Some (frame_header frame.now); broken = false }) }
    ensures held { OnOk result (L.tells → committed (L.view deck.new).bytes ≡ appended (committed (L.view deck.old).bytes) tail.old.gate frame.now) }
    ensures settled { OnOk result (L.tells → IsSettled (L.view deck.new) tail.new.gate tail.new.last) }
    ensures said { OnOk result (L.tells → (c : Outcome) → (L.view deck.new).may_leave c → From (L.view deck.old).may_leave (HasSaid (ack after.vectors after.last)) c) }
    ensures crashes { L.tells → Leaves (L.view deck.old) (L.view deck.new)
        (From (L.view deck.old).may_leave (Commits (committed (L.view deck.old).bytes) (appended (committed (L.view deck.old).bytes) tail.old.gate frame.now) (ack after.vectors after.last))) }
    ensures caused { HasCause (L.view deck.old).faults (L.view deck.new).faults result }
{
    append(deck, tail, frame)?;
    say_ack(deck, after.vectors, after.last)
}
