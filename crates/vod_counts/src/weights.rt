//! What each module has of what is limited.
ghost use Rattle.std.specs.Prelude.{◌≡◌, ◌++◌, ◌∷◌, [], map, length, IfOk, OnOk};
ghost use Rattle.vod_names.specs.Entries.{shown};
ghost use Rattle.vod_names.specs.Lists.{declarations};
ghost use Rattle.vod_modules.specs.Names.{module_in};
ghost use Rattle.vod_counts.specs.Limits.{is_signal, is_input, first_one, firsts, signal_count, input_count, one_count, token_count, each_module};

use std::alloc::{AllocError, Global};
use vod_modules::names::module_in;
use vod_names::{Entry, Kind, Memory, Names, declarations};
use vod_tree::{Module, SourceItem};

/// One for each module.
pub(crate) fn ones(alloc: Global, parts: &[SourceItem]) -> Result<Vec<u32>, Memory>
    ensures { IfOk result (λ v. v.items ≡ each_module one_count parts.now) }
{
    let mut counts = Vec::new(alloc);
    for part in parts {
        if module_in(part).is_some() {
            push(&mut counts, 1)?;
        }
    }
    Ok(counts)
}

/// The tokens of each module.
pub(crate) fn tokens(alloc: Global, parts: &[SourceItem]) -> Result<Vec<u32>, Memory>
    ensures { IfOk result (λ v. v.items ≡ each_module token_count parts.now) }
{
    let mut counts = Vec::new(alloc);
    for part in parts {
        match module_in(part) {
            Some(module) => push(&mut counts, module.tokens)?,
            None => {}
        }
    }
    Ok(counts)
}

/// The signals of each module.
pub(crate) fn signals(alloc: Global, parts: &[SourceItem]) -> Result<Vec<u32>, Memory>
    ensures { IfOk result (λ v. v.items ≡ each_module signal_count parts.now) }
{
    let mut counts = Vec::new(alloc);
    for part in parts {
        add_signals(alloc, &mut counts, part)?;
    }
    Ok(counts)
}

fn add_signals(alloc: Global, counts: &mut Vec<u32>, part: &SourceItem) -> Result<(), Memory>
    ensures { OnOk result (counts.new.items ≡ counts.old.items ++ signal_count (module_in part.now)) }
{
    match module_in(part) {
        None => Ok(()),
        Some(module) => {
            let count = module_signals(alloc, module)?;
            push(counts, count)
        }
    }
}

fn module_signals(alloc: Global, module: &Module) -> Result<u32, Memory>
    ensures { IfOk result (λ n. n ≡ length (firsts is_signal [] (declarations «module».now))) }
{
    let names = declarations(alloc, module)?;
    count_signals(alloc, names.as_slice())
}

// How many names some declaration makes a signal.
fn count_signals<'s>(alloc: Global, entries: &[Entry<'s>]) -> Result<u32, Memory>
    ensures { IfOk result (λ n. n ≡ length (firsts is_signal [] (map shown entries.now))) }
{
    let mut found: Names<'s> = Names::new(alloc);
    for entry in entries {
        add_signal(&mut found, entry)?;
    }
    count_of(found.as_slice().len())
}

fn add_signal<'s>(found: &mut Names<'s>, entry: &Entry<'s>) -> Result<(), Memory>
    ensures { OnOk result (found.new ≡ found.old ++ first_one is_signal found.old (shown entry.now)) }
{
    let known = found.first_of(entry.name).is_some();
    if is_signal(entry.declaration.kind) && !known {
        found.add(entry.name, entry.declaration)?;
    }
    Ok(())
}

fn is_signal(kind: Kind) -> bool
    ensures { result ≡ is_signal kind }
{
    match kind {
        Kind::Input | Kind::Output | Kind::OutputReg | Kind::Wire | Kind::Reg => true,
        _ => false,
    }
}

/// The inputs of each module.
pub(crate) fn inputs(alloc: Global, parts: &[SourceItem]) -> Result<Vec<u32>, Memory>
    ensures { IfOk result (λ v. v.items ≡ each_module input_count parts.now) }
{
    let mut counts = Vec::new(alloc);
    for part in parts {
        add_inputs(alloc, &mut counts, part)?;
    }
    Ok(counts)
}

fn add_inputs(alloc: Global, counts: &mut Vec<u32>, part: &SourceItem) -> Result<(), Memory>
    ensures { OnOk result (counts.new.items ≡ counts.old.items ++ input_count (module_in part.now)) }
{
    match module_in(part) {
        None => Ok(()),
        Some(module) => {
            let count = module_inputs(alloc, module)?;
            push(counts, count)
        }
    }
}

fn module_inputs(alloc: Global, module: &Module) -> Result<u32, Memory>
    ensures { IfOk result (λ n. n ≡ length (firsts is_input [] (declarations «module».now))) }
{
    let names = declarations(alloc, module)?;
    count_inputs(alloc, names.as_slice())
}

// How many names some declaration makes an input.
fn count_inputs<'s>(alloc: Global, entries: &[Entry<'s>]) -> Result<u32, Memory>
    ensures { IfOk result (λ n. n ≡ length (firsts is_input [] (map shown entries.now))) }
{
    let mut found: Names<'s> = Names::new(alloc);
    for entry in entries {
        add_input(&mut found, entry)?;
    }
    count_of(found.as_slice().len())
}

fn add_input<'s>(found: &mut Names<'s>, entry: &Entry<'s>) -> Result<(), Memory>
    ensures { OnOk result (found.new ≡ found.old ++ first_one is_input found.old (shown entry.now)) }
{
    let known = found.first_of(entry.name).is_some();
    if is_input(entry.declaration.kind) && !known {
        found.add(entry.name, entry.declaration)?;
    }
    Ok(())
}

fn is_input(kind: Kind) -> bool
    ensures { result ≡ is_input kind }
{
    match kind {
        Kind::Input => true,
        _ => false,
    }
}

fn push(counts: &mut Vec<u32>, count: u32) -> Result<(), Memory>
    ensures { OnOk result (counts.new.items ≡ counts.old.items ++ count ∷ []) }
{
    match counts.push(count) {
        Ok(()) => Ok(()),
        Err(_) => Err(Memory),
    }
}

// How many there are, if memory can hold so many.
fn count_of(len: usize) -> Result<u32, Memory>
    ensures { IfOk result (λ count. count ≡ len) }
{
    match u32::try_from(len) {
        Ok(count) => Ok(count),
        Err(_) => Err(Memory),
    }
}
