//! The modules of a source by name.
ghost use Rattle.std.specs.Prelude.{◌≡◌, ℕ, List, ◌^◌, ◌<◌, length, bytes_eq, IfOk, OnOk, option_to_list};
ghost use Rattle.std.specs.Option.{option_copied};
ghost use Rattle.vod_modules.specs.Names.{head_in, heads_in, module_in, name_in, number_in, number_of, numbered};

use crate::lists::push_some;
use indexmap::IndexMap;
use std::alloc::{AllocError, Global};
use vod_tree::{Module, SourceItem};

/// The name of a module: its place, and the number of the first module of that name.
#[derive(Clone, Copy)]
pub struct Head {
    pub place: u32,
    pub number: Option<u32>,
}

/// The module that a part of a source is.
pub fn module_in(part: &SourceItem) -> Option<&Module>
    ensures { option_copied result ≡ module_in part.now }
{
    match part {
        SourceItem::Directive(_) => None,
        SourceItem::Module(module) => Some(module),
    }
}

/// The number of the first module of each name.
#[derive(Drop)]
pub struct Names<'t> {
    numbers: IndexMap<&'t [u8], u32>,
}

impl<'t> Names<'t> {
    /// The names of a source.
    pub fn new(alloc: Global, parts: &'t [SourceItem]) -> Result<Names<'t>, AllocError>
        requires { length parts.now < 2 ^ 32 }
        ensures { IfOk result (λ names. number_in names.numbers.entries ≡ number_of parts.now) }
    {
        let mut names = Names {
            numbers: IndexMap::new(alloc),
        };
        let mut count = 0;
        for part in parts {
            match module_in(part) {
                Some(module) => {
                    names.add(module.name.name.as_slice(), count)?;
                    count += 1;
                }
                None => {}
            }
        }
        Ok(names)
    }

    // Gives a name a number, unless it has one.
    fn add(&mut self, name: &'t [u8], number: u32) -> Result<(), AllocError>
        ensures { OnOk result ((x : List ℕ) → number_in self.new.numbers.entries x ≡ numbered (number_in self.old.numbers.entries x) (bytes_eq x name.now) number) }
    {
        match self.number(name) {
            Some(_) => Ok(()),
            None => {
                self.numbers.insert(name, number)?;
                Ok(())
            }
        }
    }

    /// The number of a name.
    pub fn number(&self, name: &[u8]) -> Option<u32>
        ensures { result ≡ number_in self.now.numbers.entries name.now }
    {
        self.numbers.get(name).copied()
    }
}

/// The names of all modules.
pub fn heads_of(
    alloc: Global,
    parts: &[SourceItem],
    names: &Names<'_>,
) -> Result<Vec<Head>, AllocError>
    requires { number_in names.now.numbers.entries ≡ number_of parts.now }
    ensures { IfOk result (λ v. v.items ≡ heads_in parts.now) }
{
    let mut heads = Vec::new(alloc);
    for part in parts {
        push_some(&mut heads, head_of(part, names))?;
    }
    Ok(heads)
}

// The name of the module that a part of a source is.
fn head_of(part: &SourceItem, names: &Names<'_>) -> Option<Head>
    ensures { option_to_list result ≡ head_in (number_in names.now.numbers.entries) (module_in part.now) }
{
    match module_in(part) {
        Some(module) => Some(Head {
            place: module.name.place,
            number: names.number(module.name.name.as_slice()),
        }),
        None => None,
    }
}
