ghost use Rattle.std.specs.Prelude.{◌≡◌, ℕ, ◌+◌, ◌≤◌, ◌<◌, length, nat_le, nat_lt};
ghost use Rattle.vod_log.specs.Format.{number_at, kind_of, same_kind, known_of, same_known, begins_header, fields_of, header_of, follows, is_head, is_batch, is_image, is_fresh, keeps_known, accepted};

use vod_io::MAX_TIME;

/// What a record is. The numbers are those of its bytes.
#[derive(Clone, Copy, PartialEq, Eq)]
pub enum Kind {
    Head = 1,
    Batch = 2,
    Image = 3,
}

/// The header of a record. Counts are of vectors, and times are ticks.
#[derive(Clone, Copy, PartialEq, Eq)]
pub struct Header {
    pub kind: Kind,
    /// How many bytes the payload has.
    pub length: u64,
    /// How many vectors are held before the record.
    pub before: u64,
    /// How many vectors are held after the record.
    pub after: u64,
    /// The last time that is held, 0 where there is none.
    pub last: u64,
    /// The time since when every input is known.
    pub known: Option<u64>,
}

/// What a log holds: its vectors, the last time, and the time since when every input is known.
#[derive(Clone, Copy, PartialEq, Eq)]
pub struct Counts {
    pub vectors: u64,
    pub last: u64,
    pub known: Option<u64>,
}

// The number of the eight bytes at an offset, the lowest byte first.
fn number_at(bytes: &[u8; 48], at: usize) -> u64
    requires { at ≤ 40 }
    ensures { result ≡ number_at at bytes.now }
{
    let mut eight = [0; 8];
    eight.copy_from_slice(&bytes[at..at + 8]);
    u64::from_le_bytes(eight)
}

// The kind with this number, which is from 1 to 3.
fn kind_of(number: u8) -> Kind
    ensures { result ≡ kind_of number }
{
    if number == 1 {
        return Kind::Head;
    }
    if number == 2 {
        return Kind::Batch;
    }
    Kind::Image
}

// Whether two kinds are the same.
fn same_kind(kind: Kind, other: Kind) -> bool
    ensures { result ≡ same_kind kind other }
{
    kind as u8 == other as u8
}

// The known-since time that a number is; all ones are none.
fn known_of(number: u64) -> Option<u64>
    ensures { result ≡ known_of number }
{
    if number == u64::MAX {
        return None;
    }
    Some(number)
}

// Whether these bytes begin as a header does.
fn begins_header(b: &[u8; 48]) -> bool
    ensures { result ≡ begins_header b.now }
{
    b[0] == b'V'
        && b[1] == b'O'
        && b[2] == b'D'
        && b[3] == b'R'
        && 1 <= b[4]
        && b[4] <= 3
        && b[5] == 1
        && b[6] == 0
        && b[7] == 0
}

/// The header that these bytes are, or None where they don't begin with `VODR`, a kind from 1 to 3,
/// version 1 and two zeros.
pub fn read_header(bytes: &[u8; 48]) -> Option<Header>
    ensures { result ≡ header_of bytes.now }
{
    if !begins_header(bytes) {
        return None;
    }
    Some(fields(bytes))
}

// The fields of a header.
pub(crate) fn fields(bytes: &[u8; 48]) -> Header
    ensures { result ≡ fields_of bytes.now }
{
    Header {
        kind: kind_of(bytes[4]),
        length: number_at(bytes, 8),
        before: number_at(bytes, 16),
        after: number_at(bytes, 24),
        last: number_at(bytes, 32),
        known: known_of(number_at(bytes, 40)),
    }
}

fn is_head(h: &Header) -> bool
    ensures { result ≡ is_head h.now }
{
    same_kind(h.kind, Kind::Head)
        && h.before == 0
        && h.after == 0
        && h.last == 0
        && h.known.is_none()
        && 8 <= h.length
        && h.length <= 1_048_584
}

// Whether two known-since times are the same.
fn same_known(known: Option<u64>, other: Option<u64>) -> bool
    ensures { result ≡ same_known known other }
{
    known == other
}

// Whether a known-since time is past one last time and not past the next, where there is one.
fn is_fresh(known: Option<u64>, past: u64, last: u64) -> bool
    ensures { result ≡ is_fresh known past last }
{
    match known {
        Some(time) => past < time && time <= last,
        None => true,
    }
}

fn keeps_known(p: &Header, h: &Header) -> bool
    ensures { result ≡ keeps_known p.now h.now }
{
    if p.known.is_none() {
        is_fresh(h.known, p.last, h.last)
    } else {
        same_known(h.known, p.known)
    }
}

// Whether a count is at most 64 more than another.
fn is_near(before: u64, after: u64) -> bool
    ensures { result ≡ nat_le after (before + 64) }
{
    after.saturating_sub(before) <= 64
}

fn is_batch(p: &Header, h: &Header) -> bool
    ensures { result ≡ is_batch p.now h.now }
{
    same_kind(h.kind, Kind::Batch)
        && h.before == p.after
        && p.after < h.after
        && is_near(p.after, h.after)
        && h.after <= 4_294_967_295
        && p.last < h.last
        && h.last <= MAX_TIME
        && keeps_known(p, h)
        && h.length <= 787_200
}

fn is_image(p: &Header, h: &Header) -> bool
    ensures { result ≡ is_image p.now h.now }
{
    same_kind(h.kind, Kind::Image)
        && same_kind(p.kind, Kind::Batch)
        && h.before == p.after
        && h.after == p.after
        && 1 <= p.after
        && h.last == p.last
        && same_known(h.known, p.known)
        && h.length <= 1_048_576
}

// Whether a header may stand behind the previous one, or as the first.
pub(crate) fn follows(prev: &Option<Header>, h: &Header) -> bool
    ensures { result ≡ follows prev.now h.now }
{
    match prev {
        Some(p) => is_batch(p, h) || is_image(p, h),
        None => is_head(h),
    }
}

// Whether the payload of a header and a gate behind it are inside what is left.
fn is_inside(length: u64, size: u64) -> bool
    ensures { result ≡ nat_lt (48 + length) size }
{
    48 < size && length < size - 48
}

// The header that these bytes are, where it may stand behind the previous one and `size` bytes are
// left for it, its payload and the next gate.
pub(crate) fn accept(prev: &Option<Header>, bytes: &[u8; 48], size: u64) -> Option<Header>
    ensures { result ≡ accepted prev.now size (header_of bytes.now) }
{
    match read_header(bytes) {
        Some(h) => {
            if follows(prev, &h) && is_inside(h.length, size) {
                Some(h)
            } else {
                None
            }
        }
        None => None,
    }
}
