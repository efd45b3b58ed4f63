//! Payloads, read back.
ghost use Rattle.std.specs.Prelude.{◌≡◌, ℕ, ◌*◌, ◌++◌, List, IfOk, MatchOption, ◌≤◌, length, take};
ghost use Rattle.std.specs.Int.{w32, w64, from_le_bytes};
ghost use Rattle.std.specs.Option.{option_map};
ghost use Rattle.vod_thin_design.specs.declared.thin.Vector.{Vector};
ghost use Rattle.vod_thin_code.specs.Bytes.{IsHead, IsInForm, vector_bytes};
ghost use Rattle.vod_thin_code.specs.Moves.{bit_of, move_of, move_at, moves_at};

use std::alloc::{AllocError, Global};
use vod_thin_design::{Bit, Design, Move, Moves, Vector};

// The number of the first four bytes.
fn four(bytes: &[u8]) -> u32
    requires { 4 ≤ length bytes.now }
    ensures { result ≡ from_le_bytes w32 (take 4 bytes.now) }
{
    let mut first = [0; 4];
    first.copy_from_slice(&bytes[..4]);
    u32::from_le_bytes(first)
}

// The number of the first eight bytes.
fn eight(bytes: &[u8]) -> u64
    requires { 8 ≤ length bytes.now }
    ensures { result ≡ from_le_bytes w64 (take 8 bytes.now) }
{
    let mut first = [0; 8];
    first.copy_from_slice(&bytes[..8]);
    u64::from_le_bytes(first)
}

// The value of a number that isn't above 1.
fn bit_of(value: u64) -> Bit
    ensures { result ≡ bit_of value }
{
    if value == 0 { Bit::Zero } else { Bit::One }
}

// An assignment of these numbers, where its input is one from `least` on, and the value 0 or 1.
fn move_of(least: usize, inputs: usize, input: u32, value: u64) -> Option<Move>
    ensures { result ≡ move_of least inputs input value }
{
    if least <= input as usize && (input as usize) < inputs && value <= 1 {
        Some(Move {
            input,
            value: bit_of(value),
        })
    } else {
        None
    }
}

// The assignment that some bytes begin with.
fn read_move(least: usize, inputs: usize, bytes: &[u8]) -> Option<Move>
    requires { 12 ≤ length bytes.now }
    ensures { result ≡ move_at least inputs bytes.now }
{
    move_of(least, inputs, four(bytes), eight(&bytes[4..]))
}

// So many assignments that some bytes begin with, by rising input number.
fn read_moves(
    alloc: Global,
    count: usize,
    inputs: usize,
    bytes: &[u8],
) -> Result<Option<Vec<Move>>, AllocError>
    requires { 12 * count ≤ length bytes.now }
    ensures { IfOk result (λ read. option_map (λ moves. moves.items) read ≡ moves_at count 0 inputs bytes.now) }
{
    let mut moves = Vec::with_capacity(alloc, count)?;
    let mut least = 0;
    for i in 0..count {
        let Some(assigned) = read_move(least, inputs, &bytes[12 * i..]) else {
            return Ok(None);
        };
        least = assigned.input as usize + 1;
        moves.push(assigned)?;
    }
    Ok(Some(moves))
}

/// The vector that some bytes begin with, and the bytes behind it; none where they begin with no vector of the design in
/// form: a time, a count of assignments, at least 1, and per assignment the number of an input, rising, and its value, 0 or 1.
pub fn read_vector<'b>(
    alloc: Global,
    design: &Design,
    bytes: &'b [u8],
) -> Result<Option<(Vector, &'b [u8])>, AllocError>
    ensures { IfOk result (λ read. MatchOption read
        ((v : Vector) (rest : List ℕ) → IsInForm design.now v → bytes.now ≡ vector_bytes v ++ rest → ⊥)
        (λ p. IsInForm design.now p.0 × (bytes.now ≡ vector_bytes p.0 ++ p.1.now))) }
{
    let inputs = design.inputs().len();
    if bytes.len() < 12 {
        return Ok(None);
    }
    let count = four(&bytes[8..]) as usize;
    let rest = &bytes[12..];
    if count == 0 || rest.len() / 12 < count {
        return Ok(None);
    }
    match read_moves(alloc, count, inputs, rest)? {
        Some(moves) => {
            let vector = Vector {
                time: eight(bytes),
                moves: Moves::new(moves),
            };
            Ok(Some((vector, &rest[12 * count..])))
        }
        None => Ok(None),
    }
}

/// The interval and the source of a head's payload; none where it has no interval from 1 to 4,096.
pub fn read_head(payload: &[u8]) -> Option<(u32, &[u8])>
    ensures { MatchOption result ((interval : ℕ) (source : List ℕ) → IsHead payload.now interval source → ⊥) (λ p. IsHead payload.now p.0 p.1.now) }
{
    if payload.len() < 8 {
        return None;
    }
    let interval = eight(payload);
    if interval < 1 || 4096 < interval {
        return None;
    }
    Some((interval as u32, &payload[8..]))
}
