//! The vectors of a log's batches, up to a time.
ghost use Rattle.std.specs.Prelude.{◌≡◌, [], ◌<◌, ◌≤◌, ◌^◌, drop, length, map, All, IfOk, IfErr, OnOk, IsErrOf};
ghost use Rattle.vod_io.specs.Faults.{Rose};
ghost use Rattle.vod_log.specs.Opened.{IsPlaced};
ghost use Rattle.vod_log.specs.Tail.{IsUnchanged};
ghost use Rattle.vod_thin_replay.specs.Replay.{IsOpened, OnDamaged, IsReadUpTo, IsHeldUpTo, IsDamagedAt, IsDamagedUpTo, entry_at, reaching, AreUpTo, IsDamagedAmong, AddsBatch, IsDamagedBehind};
ghost use Rattle.vod_thin_replay.specs.declared.ReplayFault.TheVariants.{Deck as DeckFault};

use crate::ReplayFault;
use crate::batch::add_batch;
use crate::source::read_payload;
use std::alloc::Global;
use vod_deck::Deck;
use vod_log::{Bytes, Log, Record};
use vod_thin_code::one_batch;
use vod_thin_design::Design;
use vod_thin_script::History;

/// The vectors of a log's batches, up to the batch that reaches a time: as far as the one whose
/// previous record's last time is below it. The log was opened on this deck, whose file has only
/// been appended to since. Damaged comes at the first of these records that is no batch of lawful
/// vectors.
pub fn read_vectors<'d, L: Deck>(
    alloc: Global,
    deck: &mut L,
    log: &Log,
    design: &'d Design,
    to: u64,
) -> Result<History<'d>, ReplayFault>
    requires { IsOpened L.tells (L.view deck.old).bytes log.now }
    ensures design { IfOk result (λ past. past.design ≡ design.now) }
    ensures read { IfOk result (λ past. L.tells → IsReadUpTo design.now (L.view deck.old).bytes to past.vectors) }
    ensures held { IfOk result (λ past. L.tells → IsHeldUpTo design.now (L.view deck.old).bytes to past.vectors) }
    ensures damaged { IfErr result (λ fault. OnDamaged fault (λ at. L.tells → IsDamagedAt design.now (L.view deck.old).bytes at)) }
    ensures needed { IfErr result (λ fault. OnDamaged fault (λ at. L.tells → IsDamagedUpTo design.now (L.view deck.old).bytes to at)) }
    ensures unchanged { L.tells → IsUnchanged (L.view deck.old) (L.view deck.new) }
    ensures opened { IsOpened L.tells (L.view deck.new).bytes log.now }
    ensures later { (L.view deck.old).faults ≤ (L.view deck.new).faults }
    ensures caused { IsErrOf result DeckFault → Rose (L.view deck.old).faults (L.view deck.new).faults }
{
    // A law, which does nothing when it runs: a payload is that of one batch at most, so that the
    // vectors of each log that is held there begin with these.
    one_batch();
    // The design is accepted, which its inputs tell; so their numbers have four bytes.
    let _ = design.inputs();
    let mut past = History::new(alloc, design)?;
    let batches = behind_first(log.records());
    read_batches(alloc, deck, design, batches, to, &mut past)?;
    Ok(past)
}

// The records behind the first.
fn behind_first(records: &[Record]) -> &[Record]
    ensures { result.now ≡ drop 1 records.now }
{
    if records.is_empty() {
        return records;
    }
    &records[1..]
}

// Reads records in order, up to the batch that reaches a time, and adds their vectors.
fn read_batches<L: Deck>(
    alloc: Global,
    deck: &mut L,
    design: &Design,
    batches: &[Record],
    to: u64,
    past: &mut History<'_>,
) -> Result<(), ReplayFault>
    requires none { past.old ≡ record { design = design.now; vectors = [] } }
    requires few { length design.now.inputs < 2 ^ 32 }
    requires inside { L.tells → All (IsPlaced (L.view deck.old).bytes) batches.now }
    requires short { All (λ r. r.at < 2 ^ 63) batches.now }
    ensures design { past.new.design ≡ design.now }
    ensures read { OnOk result (L.tells → AreUpTo design.now (map (entry_at (L.view deck.old).bytes) batches.now) to past.new.vectors) }
    ensures damaged { IfErr result (λ fault. OnDamaged fault (λ at. L.tells → IsDamagedAmong design.now (reaching to 0 (map (entry_at (L.view deck.old).bytes) batches.now)) at)) }
    ensures unchanged { L.tells → IsUnchanged (L.view deck.old) (L.view deck.new) }
    ensures later { (L.view deck.old).faults ≤ (L.view deck.new).faults }
    ensures caused { IsErrOf result DeckFault → Rose (L.view deck.old).faults (L.view deck.new).faults }
{
    let mut payload = Bytes::new(alloc);
    for entry in batches {
        if to <= past.last_time() {
            return Ok(());
        }
        read_batch(alloc, deck, design, entry, &mut payload, past)?;
    }
    Ok(())
}

// Reads a record and adds its vectors to those before it.
fn read_batch<L: Deck>(
    alloc: Global,
    deck: &mut L,
    design: &Design,
    entry: &Record,
    payload: &mut Bytes,
    past: &mut History<'_>,
) -> Result<(), ReplayFault>
    requires design { past.old.design ≡ design.now }
    requires few { length design.now.inputs < 2 ^ 32 }
    requires inside { L.tells → IsPlaced (L.view deck.old).bytes entry.now }
    requires short { entry.now.at < 2 ^ 63 }
    ensures design { past.new.design ≡ design.now }
    ensures added { OnOk result (L.tells → AddsBatch design.now past.old.vectors (entry_at (L.view deck.old).bytes entry.now) past.new.vectors) }
    ensures damaged { IfErr result (λ fault. OnDamaged fault (λ at. L.tells → IsDamagedBehind design.now past.old.vectors (entry_at (L.view deck.old).bytes entry.now) at)) }
    ensures unchanged { L.tells → IsUnchanged (L.view deck.old) (L.view deck.new) }
    ensures later { (L.view deck.old).faults ≤ (L.view deck.new).faults }
    ensures caused { IsErrOf result DeckFault → Rose (L.view deck.old).faults (L.view deck.new).faults }
{
    read_payload(deck, entry, payload)?;
    add_batch(alloc, design, entry, payload.as_slice(), past)?;
    Ok(())
}
