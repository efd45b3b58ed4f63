//! The parts of a design, as a row writes them.

use std::alloc::{AllocError, Global};
use vod_design::{Name, Precision, Scope, Signal, Unit};

/// The text before a sign, and that behind it.
pub fn cut(text: &str, sign: char) -> (&str, &str) {
    text.split_once(sign).unwrap_or((text, ""))
}

/// A unit of times with its count.
pub fn precision(text: &str) -> Option<Precision> {
    let (count, unit) = cut(text, ' ');
    let unit = match unit {
        "s" => Unit::S,
        "ms" => Unit::Ms,
        "us" => Unit::Us,
        "ns" => Unit::Ns,
        "ps" => Unit::Ps,
        "fs" => Unit::Fs,
        _ => return None,
    };
    Some(Precision {
        count: count.parse().ok()?,
        unit,
    })
}

fn name(alloc: Global, text: &str) -> Result<Name, AllocError> {
    Ok(Name::new(Vec::from_slice(alloc, text.as_bytes())?))
}

fn scope(alloc: Global, word: &str) -> Result<Scope, AllocError> {
    let (text, parent) = cut(word, '.');
    Ok(Scope {
        name: name(alloc, text)?,
        parent: parent.parse().ok(),
    })
}

/// The instances.
pub fn scopes(alloc: Global, words: &str) -> Result<Vec<Scope>, AllocError> {
    let mut scopes = Vec::new(alloc);
    for word in words.split(' ') {
        if !word.is_empty() {
            scopes.push(scope(alloc, word)?)?;
        }
    }
    Ok(scopes)
}

/// What a signal is, but for its name.
#[derive(Clone, Copy)]
struct Kind {
    scope: u32,
    width: u8,
    lsb: Option<u16>,
    register: bool,
}

fn kind_of(text: &str) -> Option<Kind> {
    let (scope, text) = cut(text, ':');
    let (kind, text) = cut(text, ':');
    let (width, lsb) = cut(text, ':');
    Some(Kind {
        scope: scope.parse().ok()?,
        width: width.parse().ok()?,
        lsb: lsb.parse().ok(),
        register: kind == "r",
    })
}

fn signal(name: Name, kind: Kind) -> Signal {
    Signal {
        name,
        scope: kind.scope,
        width: kind.width,
        lsb: kind.lsb.unwrap_or(0),
        ranged: kind.lsb.is_some(),
        register: kind.register,
    }
}

/// The signals.
pub fn signals(alloc: Global, words: &str) -> Result<Vec<Signal>, AllocError> {
    let mut signals = Vec::new(alloc);
    for word in words.split(' ') {
        let (text, rest) = cut(word, ':');
        if let Some(kind) = kind_of(rest) {
            signals.push(signal(name(alloc, text)?, kind))?;
        }
    }
    Ok(signals)
}
