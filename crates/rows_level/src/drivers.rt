//! Drivers that the words of a row write.
use sqlite_items::{Boxed, Items};
use std::alloc::{AllocError, Global};
use vod_bits::Bits;
use vod_design::{Driver, Named, NamedMemory, Place, Places, SizedExpr, SizedKind, Variable};

/// Lets go of a part of a tree.
fn let_go<T: Drop>(_value: T) {}

/// An expression of one bit.
fn sized(kind: SizedKind) -> SizedExpr {
    SizedExpr {
        place: 0,
        width: 1,
        signed: false,
        kind,
    }
}

fn signal(number: u32) -> Named {
    Named::Variable(Variable::Signal(number))
}

/// Bits of a signal.
pub fn bits(number: u32, low: u8, width: u8) -> SizedExpr {
    sized(SizedKind::Select(signal(number), low, width))
}

/// An index that reads nothing.
fn index(alloc: Global) -> Result<Boxed<SizedExpr>, AllocError> {
    let zero = Bits { width: 1, word: 0 };
    Boxed::new(alloc, sized(SizedKind::Number(zero)))
}

/// What a text reads.
fn read(alloc: Global, text: &str) -> Result<Option<SizedExpr>, AllocError> {
    if let Some(number) = text.strip_prefix('m') {
        let Ok(number) = number.parse() else {
            return Ok(None);
        };
        let at = index(alloc)?;
        let memory = NamedMemory { number, width: 1 };
        return Ok(Some(sized(SizedKind::WordIndex(memory, 0, at))));
    }
    if let Some(number) = text.strip_suffix('?') {
        let Ok(number) = number.parse() else {
            return Ok(None);
        };
        let at = index(alloc)?;
        return Ok(Some(sized(SizedKind::Index(signal(number), 0, at))));
    }
    Ok(part(text))
}

/// A signal, a bit of it, or bits.
fn part(text: &str) -> Option<SizedExpr> {
    let Some((number, place)) = text.split_once('.') else {
        let number = text.parse().ok()?;
        return Some(sized(SizedKind::Name(signal(number))));
    };
    let number = number.parse().ok()?;
    let (low, width) = place.split_once('.').unwrap_or((place, "1"));
    let low = low.parse().ok()?;
    let width = width.parse().ok()?;
    Some(bits(number, low, width))
}

/// All that a text reads, joined.
fn reads(alloc: Global, text: &str) -> Result<Option<SizedExpr>, AllocError> {
    let mut parts = Items::new(alloc);
    for word in text.split(',') {
        if word.is_empty() {
            continue;
        }
        match read(alloc, word) {
            Ok(Some(part)) => match parts.push(part) {
                Ok(()) => {}
                Err(error) => {
                    let_go(parts);
                    return Err(error);
                }
            },
            Ok(None) => {
                let_go(parts);
                return Ok(None);
            }
            Err(error) => {
                let_go(parts);
                return Err(error);
            }
        }
    }
    Ok(Some(sized(SizedKind::Concat(parts))))
}

/// A bit of a signal.
fn place(text: &str) -> Option<Place> {
    let (signal, bit) = text.split_once('.')?;
    let signal = signal.parse().ok()?;
    let bit = bit.parse().ok()?;
    Some(Place { signal, bit })
}

/// The bits that a text writes.
fn target(alloc: Global, text: &str) -> Result<Option<Places>, AllocError> {
    let mut places = Vec::new(alloc);
    for word in text.split(',') {
        match place(word) {
            Some(place) => places.push(place)?,
            None => return Ok(None),
        }
    }
    Ok(Some(Places::new(places)))
}

/// The driver of a word.
pub fn driver(alloc: Global, word: &str) -> Result<Option<Driver>, AllocError> {
    let Some((left, right)) = word.split_once('=') else {
        return Ok(None);
    };
    let Some(target) = target(alloc, left)? else {
        return Ok(None);
    };
    match reads(alloc, right) {
        Ok(Some(value)) => Ok(Some(Driver {
            target,
            value,
            place: 0,
        })),
        Ok(None) => Ok(None),
        Err(error) => Err(error),
    }
}
