//! The vectors of one batch.
ghost use Rattle.std.specs.Prelude.{◌≡◌, ◌<◌, ◌^◌, length, IfOk, IfErr, OnOk, IsErrOf, IsTrue, ◌↔◌, MatchBool};
ghost use Rattle.vod_thin_design.specs.Vectors.{IsLawful};
ghost use Rattle.vod_thin_replay.specs.Replay.{OnDamaged, IsDamagedBehind, AddsPayload, AddsBatch, IsUnlawful, IsHeaded};
ghost use Rattle.vod_thin_replay.specs.declared.ReplayFault.TheVariants.{Deck as DeckFault};

use crate::ReplayFault;
use std::alloc::{AllocError, Global};
use vod_log::{Header, Kind, Record};
use vod_thin_code::{one_batch, read_vector};
use vod_thin_design::Design;
use vod_thin_script::{AddFault, History};

// Adds the vectors of a record with this payload to those before it. It is damaged where it is no
// batch of vectors that are lawful behind them; some may have been added then.
pub(crate) fn add_batch(
    alloc: Global,
    design: &Design,
    entry: &Record,
    payload: &[u8],
    past: &mut History<'_>,
) -> Result<(), ReplayFault>
    requires design { past.old.design ≡ design.now }
    requires few { length design.now.inputs < 2 ^ 32 }
    ensures design { past.new.design ≡ design.now }
    ensures added { OnOk result (AddsBatch design.now past.old.vectors (record { entry = entry.now; payload = payload.now }) past.new.vectors) }
    ensures damaged { IfErr result (λ fault. OnDamaged fault (IsDamagedBehind design.now past.old.vectors (record { entry = entry.now; payload = payload.now }))) }
    ensures decked { IsErrOf result DeckFault → ⊥ }
{
    // A law, which does nothing when it runs: a payload is that of one batch at most, so that what
    // isn't lawful here is lawful in no other reading.
    one_batch();
    let before = past.vectors().len();
    if !add_payload(alloc, design, payload, past)? {
        return Err(ReplayFault::Damaged(entry.at));
    }
    if !is_headed(entry, before, payload.len(), past) {
        return Err(ReplayFault::Damaged(entry.at));
    }
    Ok(())
}

// Adds the vectors that a payload is, one by one. It answers false where it isn't vectors in form
// that are lawful behind those before them.
fn add_payload(
    alloc: Global,
    design: &Design,
    payload: &[u8],
    past: &mut History<'_>,
) -> Result<bool, AllocError>
    requires design { past.old.design ≡ design.now }
    requires few { length design.now.inputs < 2 ^ 32 }
    ensures design { past.new.design ≡ design.now }
    ensures added { IfOk result (λ whole. MatchBool whole (AddsPayload design.now payload.now past.old.vectors past.new.vectors) (IsUnlawful design.now payload.now past.old.vectors)) }
{
    let mut rest = payload;
    while !rest.is_empty() {
        let Some((vector, behind)) = read_vector(alloc, design, rest)? else {
            return Ok(false);
        };
        match past.add(vector) {
            Ok(()) => {}
            Err(AddFault::Refused) => return Ok(false),
            Err(AddFault::Memory) => return Err(AllocError),
        }
        rest = behind;
    }
    Ok(true)
}

// Whether a record has the header of a batch of 1 to 64 vectors with so many bytes, which are the
// vectors so far from this place on.
fn is_headed(entry: &Record, before: usize, length: usize, past: &History<'_>) -> bool
    ensures headed { IsTrue result ↔ IsHeaded before length past.now entry.now.header }
    ensures lawful { IsLawful past.now.design past.now.vectors }
{
    let after = past.vectors().len();
    let header = Header {
        kind: Kind::Batch,
        length: length as u64,
        before: before as u64,
        after: after as u64,
        last: past.last_time(),
        known: past.known_since(),
    };
    entry.header == header && before < after && after - before <= 64
}
