//! The call on the files that the words name and the standard streams.
use crate::status::{Fault, Status, report};
use crate::top::vod;
use std::alloc::{AllocError, Global};
use std::fs::Files;
use std::io::Print;
use vod_deck::FileDeck;
use vod_io::{FileSource, PrintErr, Source, StdSink};

/// A word, or none where there are fewer.
fn word_at(alloc: Global, words: &[String], index: usize) -> Result<String, AllocError> {
    match words.get(index) {
        Some(word) => word.clone(),
        None => Ok(String::new(alloc)),
    }
}

fn run_on_files<R: Files + Print + PrintErr + Copy, S: Source>(
    alloc: Global,
    rt: R,
    words: &[String],
    input: &mut S,
) -> Result<Status, AllocError> {
    let records = words.len() == 3;
    let mut design = FileSource::new(rt, word_at(alloc, words, 1)?);
    let log = word_at(alloc, words, if records { 2 } else { 1 })?;
    let mut deck = FileDeck::new(rt, log, records);
    let mut out = StdSink::new(rt, false);
    let mut err = StdSink::new(rt, true);
    Ok(vod(
        alloc,
        words,
        &mut design,
        input,
        &mut deck,
        &mut out,
        &mut err,
    ))
}

/// Runs the command that the words are on the files that they name, this input, standard output and standard error, all of them
/// of the runtime `rt`. The log is opened for writing by `record` alone.
pub fn run<R: Files + Print + PrintErr + Copy, S: Source>(
    alloc: Global,
    rt: R,
    words: &[String],
    input: &mut S,
) -> Status {
    match run_on_files(alloc, rt, words, input) {
        Ok(status) => status,
        Err(AllocError) => report(Fault::Memory, &mut StdSink::new(rt, true)),
    }
}
