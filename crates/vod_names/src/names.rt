//! Tables of names.
ghost use Rattle.std.specs.Prelude.{◌≡◌, ◌++◌, ◌∷◌, [], map, is_some, OnOk, OnErr};
ghost use Rattle.vod_names.specs.Entries.{shown, named, first_of, last_of, number_of};
ghost use Rattle.vod_names.specs.Tables.{known_in, known_after};

use crate::{Declaration, Entry, Memory};
use indexmap::IndexMap;
use std::alloc::Global;
use std::marker::Model;
use vod_tree::Ident;

// What is known of a name: the number of its first entry, and the first and the last of its declarations.
#[derive(Clone, Copy)]
pub struct Known {
    pub number: usize,
    pub first: Declaration,
    pub last: Declaration,
}

/// Names with what each is declared as, in order: contracts see a list of pairs. A name is found in the same time however long
/// the list is.
#[derive(Drop)]
pub struct Names<'s> {
    entries: Vec<Entry<'s>>,
    known: IndexMap<&'s [u8], Known>,
}

impl<'s> Model for Names<'s> {
    ghost use Rattle.std.specs.Prelude.{List, map};
    ghost use Rattle.vod_names.specs.Entries.{Named, shown};
    ghost use Rattle.vod_names.specs.Tables.{IsTable};

    ghost Value = { List Named };

    ghost view = { λ n. map shown n.entries.items };

    ghost invariant = { λ n. IsTable n.known.entries (map shown n.entries.items) };
}

// What is known of a name.
fn known_of(known: &IndexMap<&[u8], Known>, name: &[u8]) -> Option<Known>
    ensures { result ≡ known_in known.now.entries name.now }
{
    match known.get(name) {
        Some(known) => Some(*known),
        None => None,
    }
}

// What is known of a name after one more declaration of it, at a number.
fn known_after(known: Option<Known>, number: usize, declaration: Declaration) -> Known
    ensures { result ≡ known_after known number declaration }
{
    match known {
        None => Known {
            number,
            first: declaration,
            last: declaration,
        },
        Some(known) => Known {
            last: declaration,
            ..known
        },
    }
}

impl<'s> Names<'s> {
    /// No names.
    pub fn new(alloc: Global) -> Names<'s>
        ensures { result ≡ [] }
    {
        Names {
            entries: Vec::new(alloc),
            known: IndexMap::new(alloc),
        }
    }

    /// The entries.
    pub fn as_slice(&self) -> &[Entry<'s>]
        ensures { map shown result.now ≡ self.now }
    {
        self.entries.as_slice()
    }

    /// The first declaration of a name.
    pub fn first_of(&self, name: &[u8]) -> Option<Declaration>
        ensures { result ≡ first_of name.now self.now }
    {
        match known_of(&self.known, name) {
            Some(known) => Some(known.first),
            None => None,
        }
    }

    /// The last declaration of a name.
    pub fn last_of(&self, name: &[u8]) -> Option<Declaration>
        ensures { result ≡ last_of name.now self.now }
    {
        match known_of(&self.known, name) {
            Some(known) => Some(known.last),
            None => None,
        }
    }

    /// The number of the first entry of a name, from 0 on.
    pub fn number_of(&self, name: &[u8]) -> Option<usize>
        ensures { result ≡ number_of name.now self.now }
    {
        match known_of(&self.known, name) {
            Some(known) => Some(known.number),
            None => None,
        }
    }

    /// Adds an entry at the end.
    pub fn add(&mut self, name: &'s [u8], declaration: Declaration) -> Result<(), Memory>
        ensures ok { OnOk result (self.new ≡ self.old ++ (name.now, declaration) ∷ []) }
        ensures err { OnErr result (self.new ≡ self.old) }
    {
        let number = self.entries.len();
        let known = known_after(known_of(&self.known, name), number, declaration);
        match self.entries.push(Entry { name, declaration }) {
            Ok(()) => {}
            Err(_) => return Err(Memory),
        }
        match self.known.insert(name, known) {
            Ok(_) => Ok(()),
            Err(_) => {
                self.entries.pop();
                Err(Memory)
            }
        }
    }

    /// Adds an identifier at its place.
    pub fn declare(&mut self, ident: &'s Ident, declaration: Declaration) -> Result<(), Memory>
        ensures { OnOk result (self.new ≡ self.old ++ named declaration ident.now ∷ []) }
    {
        self.add(ident.name.as_slice(), declaration.at_place(ident.place))
    }
}
