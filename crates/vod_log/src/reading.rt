ghost use Rattle.std.specs.Prelude.{◌≡◌, ℕ, ◌+◌, ◌*◌, ◌^◌, ◌≤◌, ◌<◌, ◌==◌, length, nat_le, IfOk, All, IfErr, IfSome, IsErrOf, true};
ghost use Rattle.vod_io.specs.Faults.{Rose};
ghost use Rattle.vod_log.specs.declared.log.LogFault.TheVariants.{Deck as DeckFault};
ghost use Rattle.vod_log.specs.Format.{follows, committed};
ghost use Rattle.vod_log.specs.Tail.{IsUnchanged};
ghost use Rattle.vod_log.specs.Opened.{IsLogOf, ArePlaced, IsWrongAt, OnNotALog, IsNextAt, IsWrongNext};

use crate::header::accept;
use crate::{Header, Log, LogFault, Record};
use std::alloc::Global;
use vod_deck::Deck;

// Whether a gate is closed.
fn is_closed(gate: u8) -> bool
    ensures { result ≡ (gate == 0) }
{
    gate == 0
}

// The header of the record behind a gate, or None where the gate is closed.
fn next_header<L: Deck>(
    deck: &mut L,
    len: u64,
    gate: u64,
    last: &Option<Header>,
) -> Result<Option<Header>, LogFault>
    requires inside { gate < len }
    requires total { L.tells → len ≡ length (L.view deck.old).bytes }
    ensures fits { IfOk result (λ found. IfSome found (λ h. (follows last.now h ≡ true) × (gate + (49 + h.length) < len))) }
    ensures next { IfOk result (λ found. L.tells → IsNextAt (L.view deck.old).bytes gate last.now found) }
    ensures wrong { IfErr result (λ fault. OnNotALog fault (λ at. (at ≡ gate) × (L.tells → IsWrongNext (L.view deck.old).bytes gate last.now))) }
    ensures unchanged { L.tells → IsUnchanged (L.view deck.old) (L.view deck.new) }
    ensures later { (L.view deck.old).faults ≤ (L.view deck.new).faults }
    ensures caused { IsErrOf result DeckFault → Rose (L.view deck.old).faults (L.view deck.new).faults }
    ensures most { (L.view deck.new).bytes_read ≤ (L.view deck.old).bytes_read + 49 }
{
    let mut byte = [0; 1];
    deck.read_at(gate, &mut byte)?;
    if is_closed(byte[0]) {
        return Ok(None);
    }
    let size = len - gate - 1;
    if size <= 48 {
        return Err(LogFault::NotALog(gate));
    }
    let mut bytes = [0; 48];
    deck.read_at(gate + 1, &mut bytes)?;
    match accept(last, &bytes, size) {
        Some(header) => Ok(Some(header)),
        None => Err(LogFault::NotALog(gate)),
    }
}

// Whether a file of this length is an empty log, whatever its bytes.
pub(crate) fn is_empty(len: u64) -> bool
    ensures { result ≡ nat_le len 1 }
{
    len <= 1
}

// Reads gates and headers from the first gate on.
pub(crate) fn read_log<L: Deck>(alloc: Global, deck: &mut L, len: u64) -> Result<Log, LogFault>
    requires { L.tells → len ≡ length (L.view deck.old).bytes }
    ensures committed { IfOk result (λ log. L.tells → IsLogOf (committed (L.view deck.old).bytes) log) }
    ensures placed { IfOk result (λ log. L.tells → ArePlaced (L.view deck.old).bytes log.records) }
    ensures near { IfOk result (λ log. All (λ r. r.at < 2 ^ 63) log.records) }
    ensures wrong { IfErr result (λ fault. OnNotALog fault (λ at. L.tells → IsWrongAt (committed (L.view deck.old).bytes) at)) }
    ensures unchanged { L.tells → IsUnchanged (L.view deck.old) (L.view deck.new) }
    ensures later { (L.view deck.old).faults ≤ (L.view deck.new).faults }
    ensures caused { IsErrOf result DeckFault → Rose (L.view deck.old).faults (L.view deck.new).faults }
    ensures most { IfOk result (λ log. (L.view deck.new).bytes_read ≤ (L.view deck.old).bytes_read + 49 * (length log.records + 1)) }
{
    let mut records = Vec::new(alloc);
    let mut gate = 0;
    let mut last = None;
    if is_empty(len) {
        return Ok(Log::with(records, gate, last));
    }
    loop {
        match next_header(deck, len, gate, &last)? {
            Some(header) => {
                records.push(Record { at: gate, header })?;
                gate += 49 + header.length;
                last = Some(header);
            }
            None => return Ok(Log::with(records, gate, last)),
        }
    }
}
