//! The bytes of a row, read from words and printed.
ghost use Rattle.std.specs.Prelude.{IfOk, ◌<◌};

use crate::words::{Stop, count, halves, number};
use std::alloc::Global;

// Bytes that a word stands for.
#[derive(Drop)]
struct Name {
    word: String,
    bytes: Vec<u8>,
}

/// The words that stand for bytes.
#[derive(Drop)]
pub struct Names {
    items: Vec<Name>,
}

impl Names {
    /// No words.
    pub fn new(alloc: Global) -> Names {
        Names {
            items: Vec::new(alloc),
        }
    }

    // The bytes that a word stands for.
    fn find(&self, word: &str) -> Result<&[u8], Stop> {
        for item in &self.items {
            if item.word.as_str() == word {
                return Ok(item.bytes.as_slice());
            }
        }
        Err(Stop::Unknown)
    }

    /// Lets a word stand for the bytes of the words behind it. The answer is how many.
    pub fn add(&mut self, alloc: Global, words: &[&str], answer: &mut String) -> Result<(), Stop> {
        let [word, rest @ ..] = words else {
            return Err(Stop::Unknown);
        };
        let bytes = bytes_of(alloc, self, rest)?;
        write!(answer, " {} bytes", bytes.len())?;
        let word = String::from_str(alloc, word)?;
        self.items.push(Name { word, bytes })?;
        Ok(())
    }
}

// A change of the bytes so far.
#[derive(Clone, Copy)]
enum Edit {
    /// The first so many are left.
    Cut,
    /// The first so many are taken away.
    From,
    /// `AT/BYTE`: this byte is at a place.
    Set,
    /// The upper bit of the byte at a place is changed.
    Flip,
    /// They stand so often.
    Repeat,
}

fn edit_of(key: &str) -> Option<Edit> {
    match key {
        "cut" => Some(Edit::Cut),
        "from" => Some(Edit::From),
        "set" => Some(Edit::Set),
        "flip" => Some(Edit::Flip),
        "repeat" => Some(Edit::Repeat),
        _ => None,
    }
}

/// The bytes of some words together.
pub fn bytes_of(alloc: Global, names: &Names, words: &[&str]) -> Result<Vec<u8>, Stop> {
    let mut bytes = Vec::new(alloc);
    for word in words {
        add_word(alloc, names, word, &mut bytes)?;
    }
    Ok(bytes)
}

/// The bytes of the words of a text.
pub fn bytes_in(alloc: Global, names: &Names, text: &str) -> Result<Vec<u8>, Stop> {
    let words: Vec<&str> = text.split_whitespace().collect(alloc)?;
    bytes_of(alloc, names, words.as_slice())
}

/// Adds the bytes of a word, or changes those so far.
pub fn add_word(alloc: Global, names: &Names, word: &str, bytes: &mut Vec<u8>) -> Result<(), Stop> {
    let (key, value) = halves(word, '=');
    match edit_of(key) {
        Some(edit) => change(alloc, edit, value, bytes),
        None => add_piece(names, word, bytes),
    }
}

fn change(alloc: Global, edit: Edit, value: &str, bytes: &mut Vec<u8>) -> Result<(), Stop> {
    match edit {
        Edit::Cut => bytes.truncate(count(value)?),
        Edit::From => take_front(alloc, bytes, count(value)?)?,
        Edit::Set => set_byte(bytes, value)?,
        Edit::Flip => flip(bytes, count(value)?)?,
        Edit::Repeat => repeat(alloc, bytes, count(value)?)?,
    }
    Ok(())
}

fn take_front(alloc: Global, bytes: &mut Vec<u8>, front: usize) -> Result<(), Stop> {
    if front > bytes.len() {
        return Err(Stop::Unknown);
    }
    *bytes = bytes[front..].to_vec(alloc)?;
    Ok(())
}

fn set_byte(bytes: &mut Vec<u8>, value: &str) -> Result<(), Stop> {
    let (at, byte) = halves(value, '/');
    let (at, byte) = (count(at)?, count(byte)?);
    if at >= bytes.len() || byte > 255 {
        return Err(Stop::Unknown);
    }
    bytes[at] = byte as u8;
    Ok(())
}

fn flip(bytes: &mut Vec<u8>, at: usize) -> Result<(), Stop> {
    if at >= bytes.len() {
        return Err(Stop::Unknown);
    }
    bytes[at] ^= 0x80;
    Ok(())
}

fn repeat(alloc: Global, bytes: &mut Vec<u8>, times: usize) -> Result<(), Stop> {
    let once = bytes.to_vec(alloc)?;
    bytes.clear();
    for _ in 0..times {
        bytes.extend_from_slice(once.as_slice())?;
    }
    Ok(())
}

fn add_piece(names: &Names, piece: &str, bytes: &mut Vec<u8>) -> Result<(), Stop> {
    if piece == "-" {
        return Ok(());
    }
    if piece.starts_with('$') {
        bytes.extend_from_slice(names.find(piece)?)?;
        return Ok(());
    }
    if piece.starts_with('#') {
        bytes.extend_from_slice(&eight(piece)?.to_le_bytes())?;
        return Ok(());
    }
    add_text(piece, bytes)
}

// The number of eight bytes that `#NUMBER` or `#never` is.
fn eight(piece: &str) -> Result<u64, Stop> {
    let (_, word) = halves(piece, '#');
    if word == "never" {
        return Ok(u64::MAX);
    }
    number(word)
}

// Adds a text, in which `\x` and two digits are a byte.
fn add_text(text: &str, bytes: &mut Vec<u8>) -> Result<(), Stop> {
    let mut plain = true;
    for part in text.split('\\') {
        if plain {
            bytes.extend_from_slice(part.as_bytes())?;
        } else {
            add_escape(part.as_bytes(), bytes)?;
        }
        plain = false;
    }
    Ok(())
}

// Adds the byte of `x` and two digits, and what is behind them.
fn add_escape(part: &[u8], bytes: &mut Vec<u8>) -> Result<(), Stop> {
    let [b'x', high, low, rest @ ..] = part else {
        return Err(Stop::Unknown);
    };
    bytes.push(digit(*high)? * 16 + digit(*low)?)?;
    bytes.extend_from_slice(rest)?;
    Ok(())
}

fn digit(byte: u8) -> Result<u8, Stop>
    ensures { IfOk result (λ digit. digit < 16) }
{
    match byte {
        b'0'..=b'9' => Ok(byte - b'0'),
        b'a'..=b'f' => Ok(byte - b'a' + 10),
        _ => Err(Stop::Unknown),
    }
}

// How many bytes are printed one by one where they are all the same.
const LONG: usize = 200;

/// Prints bytes as a row has them.
pub fn push_bytes(answer: &mut String, bytes: &[u8]) -> Result<(), Stop> {
    answer.push_str(" ")?;
    if bytes.is_empty() {
        answer.push_str("-")?;
        return Ok(());
    }
    if bytes.len() > LONG && bytes.iter().all(|byte| *byte == bytes[0]) {
        push_byte(answer, bytes[0])?;
        write!(answer, " repeat={}", bytes.len())?;
        return Ok(());
    }
    for byte in bytes {
        push_byte(answer, *byte)?;
    }
    Ok(())
}

fn push_byte(answer: &mut String, byte: u8) -> Result<(), Stop> {
    match byte {
        b'\\' => answer.push_str("\\x5c")?,
        0x21..=0x7e => answer.push(byte as char)?,
        _ => write!(answer, "\\x{byte:02x}")?,
    }
    Ok(())
}
