//! The first limit that a source passes.
ghost use Rattle.std.specs.Prelude.{◌≡◌, length, IfOk};
ghost use Rattle.vod_modules.specs.Modules.{IsModules};
ghost use Rattle.vod_modules.specs.Names.{heads_in, number_in, number_of};
ghost use Rattle.vod_counts.specs.Limits.{count_at, limit_of};
ghost use Rattle.vod_counts.specs.Totals.{AreTotals, past_of};

use crate::counts::{counts_of, total};
use crate::edges::instance_edges;
use crate::limit::Limit;
use crate::weights::{inputs, ones, signals, tokens};
use std::alloc::Global;
use vod_modules::Modules;
use vod_modules::names::{Names, heads_of};
use vod_names::Memory;
use vod_tree::{SourceItem, Tree};

/// The most modules of a source.
const MOST_MODULES: usize = 256;

// What all instances have of what is limited, as far as it is told apart.
#[derive(Clone, Copy)]
pub struct Totals {
    pub instances: u64,
    pub signals: u64,
    pub inputs: u32,
    pub tokens: u64,
}

// The first limit that these pass.
fn past(totals: Totals) -> Option<Limit>
    ensures { result ≡ past_of totals }
{
    if totals.instances > 4_096 {
        return Some(Limit::Instances);
    }
    if totals.signals > 16_384 {
        return Some(Limit::Signals);
    }
    if totals.inputs > 1_024 {
        return Some(Limit::Inputs);
    }
    if totals.tokens > 16_777_216 {
        return Some(Limit::Tokens);
    }
    None
}

// The count of the top.
fn count_at(counts: &[u32], top: Option<u32>) -> u32
    ensures { result ≡ count_at counts.now top }
{
    match top {
        None => 0,
        Some(top) => match counts.get(top as usize) {
            Some(count) => *count,
            None => 0,
        },
    }
}

// What all instances of so many modules have.
fn totals_of(
    alloc: Global,
    count: u32,
    top: Option<u32>,
    parts: &[SourceItem],
    names: &Names<'_>,
) -> Result<Totals, Memory>
    requires names { number_in names.now.numbers.entries ≡ number_of parts.now }
    requires count { count ≡ length (heads_in parts.now) }
    ensures { IfOk result (AreTotals parts.now count top) }
{
    let edges = instance_edges(alloc, count, parts, names)?;
    let table = counts_of(alloc, count, top, edges.as_slice())?;
    let ones = ones(alloc, parts)?;
    let signals = signals(alloc, parts)?;
    let inputs = inputs(alloc, parts)?;
    let tokens = tokens(alloc, parts)?;
    Ok(Totals {
        instances: total(table.as_slice(), ones.as_slice()),
        signals: total(table.as_slice(), signals.as_slice()),
        inputs: count_at(inputs.as_slice(), top),
        tokens: total(table.as_slice(), tokens.as_slice()),
    })
}

/// The first limit that a source passes whose modules are these: on modules, then on what all instances have, each name that some
/// declaration of a module makes a signal, or an input of the top, counting once in each instance.
pub fn first_limit(
    alloc: Global,
    tree: &Tree,
    modules: &Modules<'_>,
) -> Result<Option<Limit>, Memory>
    requires { IsModules tree.now modules.now }
    ensures { IfOk result (λ l. l ≡ limit_of tree.now) }
{
    let parts = tree.items.as_slice();
    let heads = heads_of(alloc, parts, &modules.names)?;
    if heads.len() > MOST_MODULES {
        return Ok(Some(Limit::Modules));
    }
    let count = heads.len() as u32;
    let totals = totals_of(alloc, count, modules.top.number, parts, &modules.names)?;
    Ok(past(totals))
}
