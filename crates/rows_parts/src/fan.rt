//! Rows on the readers of sources.
ghost use Rattle.std.specs.Prelude.{◌≡◌, ◌<◌, ◌^◌, length, true, All};

use std::alloc::{AllocError, Global};
use std::io;
use vod_fanout::{FanOut, Feed};

/// The feed that a word writes as `SOURCE:READER`, of a source below this number.
fn feed(word: &str, sources: u32) -> Option<Feed> {
    let (source, reader) = word.split_once(':')?;
    let source: u32 = source.parse().ok()?;
    let reader = reader.parse().ok()?;
    if source < sources {
        Some(Feed { source, reader })
    } else {
        None
    }
}

/// The feeds of all words, none where one is no feed.
fn feeds(alloc: Global, words: &[&str], sources: u32) -> Result<Option<Vec<Feed>>, AllocError> {
    let mut feeds = Vec::with_capacity(alloc, words.len())?;
    for word in words {
        match feed(word, sources) {
            Some(feed) => feeds.push(feed)?,
            None => return Ok(None),
        }
    }
    Ok(Some(feeds))
}

/// Whether feeds are few, and all their sources below a number.
fn are_inside(feeds: &[Feed], sources: u32) -> bool
    ensures inside { result ≡ true → All (λ f. f.source < sources) feeds.now }
    ensures few { result ≡ true → length feeds.now < 2 ^ 32 }
{
    if feeds.len() > 1000 {
        return false;
    }
    feeds.iter().all(|feed| feed.source < sources)
}

/// Prints the readers of a source.
fn print_readers(rt: &impl Print, readers: &[u32]) -> io::Result<()> {
    rt.print(" [")?;
    for (i, reader) in readers.iter().enumerate() {
        let blank = if i == 0 { "" } else { " " };
        print!(rt; "{blank}{reader}")?;
    }
    rt.print("]")
}

/// Prints the readers of each of so many sources.
fn print_all(rt: &(impl Print + AllocGlobal), sources: u32, feeds: &[Feed]) -> io::Result<()>
    requires inside { All (λ f. f.source < sources) feeds.now }
    requires few { length feeds.now < 2 ^ 32 }
{
    let table = FanOut::new(rt.alloc(), sources, feeds)?;
    for source in 0..sources {
        print_readers(rt, table.of(source))?;
    }
    Ok(())
}

/// Prints the readers of sources, by a row's words.
pub fn answer(rt: &(impl Print + AllocGlobal), words: &[&str]) -> io::Result<()> {
    let [sources, feeds @ ..] = words else {
        return rt.print(" not a row");
    };
    let Ok(sources) = sources.parse() else {
        return rt.print(" not a row");
    };
    match self::feeds(rt.alloc(), feeds, sources)? {
        Some(feeds) if are_inside(feeds.as_slice(), sources) => {
            print_all(rt, sources, feeds.as_slice())
        }
        _ => rt.print(" not a row"),
    }
}
