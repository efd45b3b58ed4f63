//! The functions of a module.
ghost use Rattle.std.specs.Prelude.{◌≡◌, ◌++◌, ◌∷◌, [], map, flat_map, IfOk, OnOk};
ghost use Rattle.vod_names.specs.Entries.{shown};
ghost use Rattle.vod_uses.specs.Calls.{Called, number_at, inputs_of, is_input, input_count, kind_functions, item_functions};

use std::alloc::Global;
use std::marker::Model;
use vod_names::{Declaration, Entry, Kind, Memory, Names, function_declarations};
use vod_tree::{Item, ItemKind};

/// Functions by name, with how many inputs each has; contracts see a list of pairs, of which the first of a name counts.
#[derive(Drop)]
pub struct Functions<'s> {
    names: Names<'s>,
    inputs: Vec<usize>,
}

impl<'s> Model for Functions<'s> {
    ghost use Rattle.std.specs.Prelude.{◌≡◌, List, length};
    ghost use Rattle.vod_uses.specs.Calls.{Called, called};

    ghost Value = { List Called };

    ghost view = { λ f. called f.names f.inputs.items };

    ghost invariant = { λ f. length f.names ≡ length f.inputs.items };
}

impl<'s> Functions<'s> {
    /// No functions.
    pub fn new(alloc: Global) -> Functions<'s>
        ensures { result ≡ [] }
    {
        Functions {
            names: Names::new(alloc),
            inputs: Vec::new(alloc),
        }
    }

    /// How many inputs the first function of a name has.
    pub fn inputs_of(&self, name: &[u8]) -> Option<usize>
        ensures { result ≡ inputs_of name.now self.now }
    {
        number_at(self.inputs.as_slice(), self.names.number_of(name))
    }

    // Adds a function at the end.
    fn add(&mut self, name: &'s [u8], inputs: usize) -> Result<(), Memory>
        ensures { OnOk result (self.new ≡ self.old ++ (name.now, inputs) ∷ []) }
    {
        match self.inputs.push(inputs) {
            Ok(()) => {}
            Err(_) => return Err(Memory),
        }
        match self.names.add(name, Declaration::plain(Kind::Function)) {
            Ok(()) => Ok(()),
            Err(error) => {
                self.inputs.pop();
                Err(error)
            }
        }
    }
}

// The number at a place, if there is one.
fn number_at(numbers: &[usize], place: Option<usize>) -> Option<usize>
    ensures { result ≡ number_at numbers.now place }
{
    match place {
        Some(place) => match numbers.get(place) {
            Some(number) => Some(*number),
            None => None,
        },
        None => None,
    }
}

/// The functions that items declare.
pub(crate) fn functions_of<'s>(alloc: Global, items: &'s [Item]) -> Result<Functions<'s>, Memory>
    ensures { IfOk result (λ functions. functions ≡ flat_map item_functions items.now) }
{
    let mut functions: Functions<'s> = Functions::new(alloc);
    for item in items {
        add_function(alloc, &mut functions, &item.kind)?;
    }
    Ok(functions)
}

fn add_function<'s>(
    alloc: Global,
    functions: &mut Functions<'s>,
    kind: &'s ItemKind,
) -> Result<(), Memory>
    ensures { OnOk result (functions.new ≡ functions.old ++ kind_functions kind.now) }
{
    match kind {
        ItemKind::Function(function) => {
            let inputs = input_count(function_declarations(alloc, function.get())?.as_slice());
            functions.add(function.get().name.name.as_slice(), inputs)
        }
        _ => Ok(()),
    }
}

// How many inputs there are among these.
fn input_count(entries: &[Entry<'_>]) -> usize
    ensures { result ≡ input_count (map shown entries.now) }
{
    let mut count = 0;
    for entry in entries {
        if is_input(entry.declaration.kind) {
            count += 1;
        }
    }
    count
}

fn is_input(kind: Kind) -> bool
    ensures { result ≡ is_input kind }
{
    match kind {
        Kind::Input => true,
        _ => false,
    }
}
