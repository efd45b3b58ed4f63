//! The bytes of a record: its header, its payload, and a closed gate.
ghost use Rattle.std.specs.Prelude.{◌≡◌, ◌+◌, ◌<◌, ◌≤◌, ◌^◌, [], ◌∷◌, ◌++◌, length, IfOk, OnOk};
ghost use Rattle.std.specs.List.{flat_map};
ghost use Rattle.vod_log.specs.Format.{kind_number};
ghost use Rattle.vod_thin_code.specs.Bytes.{known_number, number_of, move_bytes, vector_bytes, batch_bytes, head_bytes, header_bytes, record_bytes};
ghost use Rattle.vod_thin_code.specs.Held.{head_header, batch_header};

use crate::Memory;
use std::alloc::Global;
use std::marker::Model;
use vod_log::{Counts, Header, Kind};
use vod_thin_design::{Bit, Move, Vector};

// The number of a value.
fn number(value: Bit) -> u64
    ensures { result ≡ number_of value }
{
    match value {
        Bit::Zero => 0,
        Bit::One => 1,
        Bit::X => 2,
        Bit::Z => 3,
    }
}

// Appends an assignment.
fn push_move(bytes: &mut Vec<u8>, assigned: &Move) -> Result<(), Memory>
    ensures { OnOk result (bytes.new.items ≡ bytes.old.items ++ move_bytes assigned.now) }
{
    bytes.extend_from_slice(&assigned.input.to_le_bytes())?;
    bytes.extend_from_slice(&number(assigned.value).to_le_bytes())?;
    Ok(())
}

// Appends the assignments of a vector.
fn push_moves(bytes: &mut Vec<u8>, moves: &[Move]) -> Result<(), Memory>
    ensures { OnOk result (bytes.new.items ≡ bytes.old.items ++ flat_map move_bytes moves.now) }
{
    for assigned in moves {
        push_move(bytes, assigned)?;
    }
    Ok(())
}

// Appends a vector. The count of its assignments is the lower four of eight bytes.
fn push_vector(bytes: &mut Vec<u8>, vector: &Vector) -> Result<(), Memory>
    ensures { OnOk result (bytes.new.items ≡ bytes.old.items ++ vector_bytes vector.now) }
{
    let moves = vector.moves.as_slice();
    bytes.extend_from_slice(&vector.time.to_le_bytes())?;
    bytes.extend_from_slice(&(moves.len() as u64).to_le_bytes()[..4])?;
    push_moves(bytes, moves)?;
    Ok(())
}

// Appends vectors.
fn push_vectors(bytes: &mut Vec<u8>, vectors: &[Vector]) -> Result<(), Memory>
    ensures { OnOk result (bytes.new.items ≡ bytes.old.items ++ batch_bytes vectors.now) }
{
    for vector in vectors {
        push_vector(bytes, vector)?;
    }
    Ok(())
}

// How many bytes the payload of a batch has.
fn batch_len(vectors: &[Vector]) -> u64
    requires { length (batch_bytes vectors.now) < 2 ^ 63 }
    ensures { result ≡ length (batch_bytes vectors.now) }
{
    let mut total = 0;
    for vector in vectors {
        total += 12 + 12 * vector.moves.as_slice().len() as u64;
    }
    total
}

// The number of a known-since time, all ones where there is none.
fn known_number(known: Option<u64>) -> u64
    ensures { result ≡ known_number known }
{
    match known {
        Some(time) => time,
        None => u64::MAX,
    }
}

// The number of a kind.
fn kind_number(kind: Kind) -> u8
    ensures { result ≡ kind_number kind }
{
    kind as u8
}

// Makes some bytes a header, and takes the room for its payload and the closed gate.
fn begin(bytes: &mut Vec<u8>, h: &Header) -> Result<(), Memory>
    requires { h.now.length < 2 ^ 63 }
    ensures { OnOk result (bytes.new.items ≡ header_bytes h.now) }
{
    bytes.clear();
    bytes.reserve(49 + h.length as usize)?;
    bytes.extend_from_slice(b"VODR")?;
    bytes.extend_from_slice(&[kind_number(h.kind), 1, 0, 0])?;
    bytes.extend_from_slice(&h.length.to_le_bytes())?;
    bytes.extend_from_slice(&h.before.to_le_bytes())?;
    bytes.extend_from_slice(&h.after.to_le_bytes())?;
    bytes.extend_from_slice(&h.last.to_le_bytes())?;
    bytes.extend_from_slice(&known_number(h.known).to_le_bytes())?;
    Ok(())
}

// Makes some bytes a head.
fn write_head(bytes: &mut Vec<u8>, interval: u32, source: &[u8]) -> Result<(), Memory>
    requires { length source.now ≤ 2 ^ 20 }
    ensures { OnOk result (bytes.new.items ≡ record_bytes (head_header source.now) (head_bytes interval source.now)) }
{
    let header = Header {
        kind: Kind::Head,
        length: 8 + source.len() as u64,
        before: 0,
        after: 0,
        last: 0,
        known: None,
    };
    begin(bytes, &header)?;
    bytes.extend_from_slice(&u64::from(interval).to_le_bytes())?;
    bytes.extend_from_slice(source)?;
    bytes.push(0)?;
    Ok(())
}

// Makes some bytes a batch.
fn write_batch(
    bytes: &mut Vec<u8>,
    before: u64,
    vectors: &[Vector],
    after: Counts,
) -> Result<(), Memory>
    requires { length (batch_bytes vectors.now) < 2 ^ 63 }
    ensures { OnOk result (bytes.new.items ≡ record_bytes (batch_header before vectors.now after) (batch_bytes vectors.now)) }
{
    let header = Header {
        kind: Kind::Batch,
        length: batch_len(vectors),
        before,
        after: after.vectors,
        last: after.last,
        known: after.known,
    };
    begin(bytes, &header)?;
    push_vectors(bytes, vectors)?;
    bytes.push(0)?;
    Ok(())
}

/// A record as it is appended to a log, seen as its bytes.
#[derive(Drop)]
pub struct Frame {
    bytes: Vec<u8>,
}

impl Model for Frame {
    ghost use Rattle.std.specs.Prelude.{ℕ, List};

    ghost Value = { List ℕ };

    ghost view = { λ s. s.bytes.items };
}

impl Frame {
    /// No record.
    pub fn new(alloc: Global) -> Frame
        ensures { result ≡ [] }
    {
        Frame {
            bytes: Vec::new(alloc),
        }
    }

    /// No record, with room for so many bytes.
    pub fn with_room(alloc: Global, len: usize) -> Result<Frame, Memory>
        ensures { IfOk result (λ frame. frame ≡ []) }
    {
        Ok(Frame {
            bytes: Vec::with_capacity(alloc, len)?,
        })
    }

    /// The bytes.
    pub fn as_slice(&self) -> &[u8]
        ensures { result.now ≡ self.now }
    {
        self.bytes.as_slice()
    }

    /// Makes it the head of a log with this interval and source.
    pub fn head(&mut self, interval: u32, source: &[u8]) -> Result<(), Memory>
        requires { length source.now ≤ 2 ^ 20 }
        ensures { OnOk result (self.new ≡ record_bytes (head_header source.now) (head_bytes interval source.now)) }
    {
        write_head(&mut self.bytes, interval, source)
    }

    /// Makes it the batch of these vectors, where so many are held before, and these are the counts behind it.
    pub fn batch(&mut self, before: u64, vectors: &[Vector], after: Counts) -> Result<(), Memory>
        requires { length (batch_bytes vectors.now) < 2 ^ 63 }
        ensures { OnOk result (self.new ≡ record_bytes (batch_header before vectors.now after) (batch_bytes vectors.now)) }
    {
        write_batch(&mut self.bytes, before, vectors, after)
    }
}
