ghost use Rattle.std.specs.Prelude.{◌≡◌, ℕ, ◌+◌, ◌^◌, ◌≤◌, ◌<◌, max, [], ◌∷◌, ◌++◌, length, take, drop, IfOk, OnOk, OnErr, vec_len, vec_capacity, if◌then◌else◌};
ghost use Rattle.vod_deck.specs.InMemory.{laid, padded, has_bit, kept, picked, run, fresh, events_of, total_wrote};
ghost use Rattle.vod_deck.specs.Replay.{Again};

use super::Call;
use std::alloc::{AllocError, Global};

// Lays bytes over a file. A gap before them is filled with zeros, and no bytes change nothing.
pub(super) fn lay(file: &mut Vec<u8>, at: usize, piece: &[u8]) -> Result<(), AllocError>
    ensures laid { OnOk result (file.new.items ≡ laid at piece.now file.old.items) }
    ensures len { OnOk result (vec_len file.new ≤ max (vec_len file.old) (at + length piece.now)) }
    ensures capacity { vec_capacity file.old ≤ vec_capacity file.new }
    ensures full { OnErr result (vec_capacity file.old < max (vec_len file.old) (at + length piece.now)) }
{
    if piece.is_empty() {
        return Ok(());
    }
    let Some(end) = at.checked_add(piece.len()) else {
        return Err(AllocError);
    };
    fill_up(file, end)?;
    put(file, at, piece);
    Ok(())
}

// Writes bytes over a part of a file.
fn put(file: &mut [u8], at: usize, piece: &[u8])
    requires { at + length piece.now ≤ length file.old }
    ensures { file.new ≡ take at file.old ++ piece.now ++ drop (at + length piece.now) file.old }
{
    file[at..at + piece.len()].copy_from_slice(piece);
}

// Fills a file up with zeros to a length.
fn fill_up(file: &mut Vec<u8>, end: usize) -> Result<(), AllocError>
    ensures padded { OnOk result (file.new.items ≡ padded end file.old.items) }
    ensures len { OnOk result (vec_len file.new ≡ max end (vec_len file.old)) }
    ensures capacity { vec_capacity file.old ≤ vec_capacity file.new }
    ensures full { OnErr result (vec_capacity file.old < max (vec_len file.old) end) }
{
    if end <= file.len() {
        return Ok(());
    }
    file.resize(end, 0)
}

// Whether a bit of a number is 1.
fn has_bit(number: u64, bit: u32) -> bool
    requires { bit < 64 }
    ensures { result ≡ has_bit number bit }
{
    (number >> bit) % 2 == 1
}

// What a pick keeps of the bytes of a write.
fn kept(pick: u64, number: usize, piece: &[u8]) -> &[u8]
    ensures { result.now ≡ kept pick number piece.now }
{
    let bit = (number % 32) as u32;
    if !has_bit(pick, bit) {
        return piece;
    }
    if has_bit(pick, 32 + bit) {
        return &piece[..piece.len() / 2];
    }
    &piece[..0]
}

// The file that a pick leaves, the file as a read gives it, and how many writes were made since the
// last sync.
#[derive(Drop)]
struct Replay {
    file: Vec<u8>,
    reads: Vec<u8>,
    writes: usize,
}

// Lays bytes over a file where the write was held.
fn lay_held(file: &mut Vec<u8>, at: usize, piece: &[u8], held: bool) -> Result<(), AllocError>
    ensures { OnOk result (file.new.items ≡ (if held then laid at piece.now file.old.items else file.old.items)) }
{
    if !held {
        return Ok(());
    }
    lay(file, at, piece)
}

// Makes a write again.
fn replay_write(
    replay: &mut Replay,
    pick: u64,
    at: usize,
    piece: &[u8],
    held: bool,
) -> Result<(), AllocError>
    requires { replay.old.writes < 2 ^ 63 }
    ensures file { OnOk result (replay.new.file.items ≡ laid at (kept pick replay.old.writes piece.now) replay.old.file.items) }
    ensures reads { OnOk result (replay.new.reads.items ≡ (if held then laid at piece.now replay.old.reads.items else replay.old.reads.items)) }
    ensures writes { OnOk result (replay.new.writes ≡ replay.old.writes + 1) }
{
    lay_held(&mut replay.reads, at, piece, held)?;
    lay(&mut replay.file, at, kept(pick, replay.writes, piece))?;
    replay.writes += 1;
    Ok(())
}

// Makes a sync again.
fn replay_sync(alloc: Global, replay: &mut Replay) -> Result<(), AllocError>
    ensures file { OnOk result (replay.new.file.items ≡ replay.old.reads.items) }
    ensures reads { OnOk result (replay.new.reads.items ≡ replay.old.reads.items) }
    ensures writes { OnOk result (replay.new.writes ≡ 0) }
{
    replay.file = replay.reads.to_vec(alloc)?;
    replay.writes = 0;
    Ok(())
}

// Makes a call again and answers the bytes of the writes behind it.
fn replay_call<'a>(
    alloc: Global,
    replay: &mut Replay,
    pick: u64,
    call: Call,
    rest: &'a [u8],
) -> Result<&'a [u8], AllocError>
    requires few { replay.old.writes < 2 ^ 63 }
    requires whole { total_wrote (call ∷ []) ≤ length rest.now }
    ensures rest { IfOk result (λ more. more.now ≡ drop (total_wrote (call ∷ [])) rest.now) }
    ensures writes { OnOk result (replay.new.writes ≤ replay.old.writes + 1) }
    ensures again { OnOk result (Again pick replay.old replay.new (events_of rest.now [] (call ∷ []))) }
{
    match call {
        Call::Wrote { at, count, held } => {
            let (piece, more) = rest.split_at(count);
            replay_write(replay, pick, at as usize, piece, held)?;
            Ok(more)
        }
        Call::Synced { held } => {
            if held {
                replay_sync(alloc, replay)?;
            }
            Ok(rest)
        }
        Call::Said { .. } => Ok(rest),
    }
}

// The file that a pick leaves of a deck that held `first`, made these calls and wrote these bytes.
pub(super) fn picked_file(
    alloc: Global,
    first: &[u8],
    wrote: &[u8],
    calls: &[Call],
    pick: u64,
) -> Result<Vec<u8>, AllocError>
    requires { total_wrote calls.now ≡ length wrote.now }
    ensures { let d = run (fresh first.now) (events_of wrote.now [] calls.now) in IfOk result (λ file. file.items ≡ picked pick d.writes d.file) }
{
    let mut replay = Replay {
        file: first.to_vec(alloc)?,
        reads: first.to_vec(alloc)?,
        writes: 0,
    };
    let mut rest = wrote;
    for call in calls {
        rest = replay_call(alloc, &mut replay, pick, *call, rest)?;
    }
    Ok(replay.file)
}
