//! The source that a log's head holds.
ghost use Rattle.std.specs.Prelude.{◌≡◌, ◌^◌, ◌≤◌, ◌<◌, IfOk, IfErr, OnOk, IsErrOf};
ghost use Rattle.vod_io.specs.Faults.{Rose};
ghost use Rattle.vod_log.specs.Opened.{IsPlaced, payload_at};
ghost use Rattle.vod_log.specs.Tail.{IsUnchanged};
ghost use Rattle.vod_thin_replay.specs.Replay.{IsOpened, OnDamaged, HoldsSource, IsHeadDamagedAt};
ghost use Rattle.vod_thin_replay.specs.declared.ReplayFault.TheVariants.{Deck as DeckFault};

use crate::ReplayFault;
use vod_deck::Deck;
use vod_log::{Bytes, Log, LogFault, Record, payload};
use vod_thin_code::read_head;

/// The source that the head of a log holds, read into a buffer. The log was opened on this deck,
/// whose file has only been appended to since. Damaged comes where the first record is no head with
/// an interval and a source; where there is no record, with gate 0.
pub fn read_source<'b, L: Deck>(
    deck: &mut L,
    log: &Log,
    into: &'b mut Bytes,
) -> Result<&'b [u8], ReplayFault>
    requires { IsOpened L.tells (L.view deck.old).bytes log.now }
    ensures source { IfOk result (λ source. L.tells → HoldsSource (L.view deck.old).bytes source.now) }
    ensures damaged { IfErr result (λ fault. OnDamaged fault (λ at. L.tells → IsHeadDamagedAt (L.view deck.old).bytes at)) }
    ensures unchanged { L.tells → IsUnchanged (L.view deck.old) (L.view deck.new) }
    ensures opened { IsOpened L.tells (L.view deck.new).bytes log.now }
    ensures later { (L.view deck.old).faults ≤ (L.view deck.new).faults }
    ensures caused { IsErrOf result DeckFault → Rose (L.view deck.old).faults (L.view deck.new).faults }
{
    let records = log.records();
    if records.is_empty() {
        return Err(ReplayFault::Damaged(0));
    }
    let head = records[0];
    read_payload(deck, &head, into)?;
    match read_head(into.as_slice()) {
        Some((_interval, source)) => Ok(source),
        None => Err(ReplayFault::Damaged(head.at)),
    }
}

// Reads the payload of a record.
pub(crate) fn read_payload<L: Deck>(
    deck: &mut L,
    entry: &Record,
    into: &mut Bytes,
) -> Result<(), ReplayFault>
    requires inside { L.tells → IsPlaced (L.view deck.old).bytes entry.now }
    requires short { entry.now.at < 2 ^ 63 }
    ensures payload { OnOk result (L.tells → into.new ≡ payload_at (L.view deck.old).bytes entry.now) }
    ensures whole { IfErr result (λ fault. OnDamaged fault (λ _. ⊥)) }
    ensures unchanged { L.tells → IsUnchanged (L.view deck.old) (L.view deck.new) }
    ensures later { (L.view deck.old).faults ≤ (L.view deck.new).faults }
    ensures caused { IsErrOf result DeckFault → Rose (L.view deck.old).faults (L.view deck.new).faults }
{
    match payload(deck, entry, into) {
        Ok(()) => Ok(()),
        Err(LogFault::Deck) => Err(ReplayFault::Deck),
        Err(LogFault::Memory) => Err(ReplayFault::Memory),
        Err(LogFault::NotALog(_)) => unreachable!(),
    }
}
