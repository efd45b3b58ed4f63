//! Rows about files of the system.

use crate::answer::{push_done, push_number, separate};
use crate::bytes::{Names, bytes_in, push_bytes};
use crate::streams::fill_from;
use crate::words::{Stop, count, halves};
use std::fs;
use vod_deck::{Deck, FileDeck};
use vod_io::{Failed, FileSource};

/// A file as a source: `fill LIMIT`.
pub fn file(
    rt: &HostRuntime,
    words: &[&str],
    calls: &str,
    answer: &mut String,
) -> Result<(), Stop> {
    let [path] = words else {
        return Err(Stop::Unknown);
    };
    let path = String::from_str(rt.alloc(), path)?;
    let mut source = FileSource::new(*rt, path);
    for call in calls.split(';') {
        separate(answer)?;
        let (verb, word) = halves(call.trim(), ' ');
        match verb {
            "fill" => fill_from(rt.alloc(), &mut source, count(word)?, answer)?,
            _ => return Err(Stop::Unknown),
        }
    }
    Ok(())
}

// A call on a file as a deck.
#[derive(Clone, Copy)]
enum Verb {
    Len,
    Read,
    Write,
    Sync,
    Say,
    Remove,
}

fn verb_of(word: &str) -> Result<Verb, Stop> {
    match word {
        "len" => Ok(Verb::Len),
        "read" => Ok(Verb::Read),
        "write" => Ok(Verb::Write),
        "sync" => Ok(Verb::Sync),
        "say" => Ok(Verb::Say),
        "remove" => Ok(Verb::Remove),
        _ => Err(Stop::Unknown),
    }
}

fn is_written(mode: &str) -> Result<bool, Stop> {
    match mode {
        "read" => Ok(false),
        "write" => Ok(true),
        _ => Err(Stop::Unknown),
    }
}

/// A file as a deck, to `read` or to `write`; `remove` takes the file away.
pub fn disk(
    rt: &HostRuntime,
    names: &Names,
    words: &[&str],
    calls: &str,
    answer: &mut String,
) -> Result<(), Stop> {
    let [path, mode] = words else {
        return Err(Stop::Unknown);
    };
    let owned = String::from_str(rt.alloc(), path)?;
    let mut deck = FileDeck::new(*rt, owned, is_written(mode)?);
    for call in calls.split(';') {
        separate(answer)?;
        let (word, rest) = halves(call.trim(), ' ');
        match verb_of(word)? {
            Verb::Remove => push_done(answer, fs::remove_file(rt, *path).map_err(|_| Failed))?,
            verb => disk_call(rt, names, &mut deck, verb, rest, answer)?,
        }
    }
    Ok(())
}

fn disk_call(
    rt: &HostRuntime,
    names: &Names,
    deck: &mut FileDeck<HostRuntime>,
    verb: Verb,
    rest: &str,
    answer: &mut String,
) -> Result<(), Stop> {
    match verb {
        Verb::Len => push_number(answer, deck.len()),
        Verb::Read => read(rt, deck, rest, answer),
        Verb::Write => write(rt, names, deck, rest, answer),
        Verb::Sync => push_done(answer, deck.sync()),
        Verb::Say => {
            let text = bytes_in(rt.alloc(), names, rest)?;
            push_done(answer, deck.say(text.as_slice()))
        }
        Verb::Remove => Ok(()),
    }
}

// The answer has the buffer, which was of periods.
fn read(
    rt: &HostRuntime,
    deck: &mut FileDeck<HostRuntime>,
    rest: &str,
    answer: &mut String,
) -> Result<(), Stop> {
    let (at, room) = halves(rest, ' ');
    let (at, room) = (count(at)?, count(room)?);
    let mut buf = vec![in rt.alloc(); b'.'; room]?;
    match deck.read_at(at as u64, &mut buf) {
        Ok(()) => push_bytes(answer, buf.as_slice()),
        Err(Failed) => push_done(answer, Err(Failed)),
    }
}

fn write(
    rt: &HostRuntime,
    names: &Names,
    deck: &mut FileDeck<HostRuntime>,
    rest: &str,
    answer: &mut String,
) -> Result<(), Stop> {
    let (at, text) = halves(rest, ' ');
    let at = count(at)?;
    let bytes = bytes_in(rt.alloc(), names, text)?;
    if bytes.len() > 1 << 40 {
        return Err(Stop::Unknown);
    }
    push_done(answer, deck.write_at(at as u64, bytes.as_slice()))
}
