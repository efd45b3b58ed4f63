//! What the names of an instance stand for.
ghost use Rattle.std.specs.Prelude.{◌≡◌, ◌-◌, [], ◌∷◌, drop, length, OnOk, OnErr};
ghost use Rattle.std.specs.Option.{option_copied};
ghost use Rattle.vod_width.specs.Names.{declared, declaration};
ghost use Rattle.vod_width.specs.Tables.{place_in, declared_at};

use indexmap::IndexMap;
use std::alloc::{AllocError, Global};
use std::marker::Model;
use vod_design::{Locals, Named};

/// A net, a variable or a constant: what it is, its size and sign, the index of its lowest bit, and whether it has a range. A
/// constant has one, from its own or from 0 on (4.10.1).
#[derive(Clone, Copy)]
pub struct Vector {
    pub name: Named,
    pub width: u8,
    pub signed: bool,
    pub lsb: u16,
    pub ranged: bool,
}

/// A memory: its number, the size of its words, and its least and its greatest index (4.9).
#[derive(Clone, Copy)]
pub struct WordArray {
    pub number: u32,
    pub width: u8,
    pub low: u16,
    pub high: u16,
}

/// A function: its number, the size and sign of its result, and those of its inputs (10.4).
#[derive(Drop)]
pub struct Callee {
    pub number: u32,
    pub width: u8,
    pub signed: bool,
    pub inputs: Locals,
}

/// What a name is whose size, range or value couldn't be formed.
#[derive(Clone, Copy)]
pub enum Sort {
    /// A net or a variable.
    Net,
    Constant,
    Ram,
    Function,
}

/// What a name stands for.
#[derive(Drop)]
pub enum Declared {
    Vector(Vector),
    Ram(WordArray),
    Function(Callee),
    /// A name whose size, range or value couldn't be formed. It was refused where that stands, so nothing that hangs on it is refused
    /// again.
    Open(Sort),
}

// A declaration: the name, what it stands for, and the place of the declaration that it hides, counted from the first one.
#[derive(Drop)]
pub struct Entry<'s> {
    pub name: &'s [u8],
    pub declared: Declared,
    pub hidden: Option<usize>,
}

/// What names stand for, which contracts see as a list of pairs by name, the one that was added last first. The first of a name counts:
/// so an inner list of declarations, as that of a function, stands before an outer one, and is taken off again.
#[derive(Drop)]
pub struct Decls<'s> {
    entries: Vec<Entry<'s>>,
    latest: IndexMap<&'s [u8], Option<usize>>,
}

/// The constants of an instance so far.
pub type Params<'s> = Decls<'s>;

impl<'s> Model for Decls<'s> {
    ghost use Rattle.std.specs.Prelude.{List, ℕ};
    ghost use Rattle.vod_width.specs.declared.decls.Declared.{Declared};

    ghost Value = { List (List ℕ × Declared) };

    ghost use Rattle.vod_width.specs.Tables.{declarations, IsTable};

    ghost view = { λ d. declarations d.entries.items };

    ghost invariant = { λ d. IsTable d.latest.entries d.entries.items };
}

// Where the last declaration of a name stands.
fn place_of(latest: &IndexMap<&[u8], Option<usize>>, name: &[u8]) -> Option<usize>
    ensures { result ≡ place_in latest.now.entries name.now }
{
    match latest.get(name) {
        Some(place) => *place,
        None => None,
    }
}

// What an entry declares.
fn declared_at<'d>(entries: &'d [Entry<'_>], place: Option<usize>) -> Option<&'d Declared>
    ensures { option_copied result ≡ declared_at entries.now place }
{
    match place {
        Some(place) => match entries.get(place) {
            Some(entry) => Some(&entry.declared),
            None => None,
        },
        None => None,
    }
}

impl<'s> Decls<'s> {
    /// No names.
    pub fn new(alloc: Global) -> Decls<'s>
        ensures { result ≡ [] }
    {
        Decls {
            entries: Vec::new(alloc),
            latest: IndexMap::new(alloc),
        }
    }

    /// How many declarations there are.
    pub fn len(&self) -> usize
        ensures { result ≡ length self.now }
    {
        self.entries.len()
    }

    /// What a name stands for.
    pub fn get(&self, name: &[u8]) -> Option<&Declared>
        ensures { option_copied result ≡ declared self.now name.now }
    {
        declared_at(&self.entries, place_of(&self.latest, name))
    }

    /// Adds a declaration, which hides those of its name.
    pub fn add(&mut self, name: &'s [u8], declared: Declared) -> Result<(), AllocError>
        ensures ok { OnOk result (self.new ≡ declaration name.now declared ∷ self.old) }
        ensures err { OnErr result (self.new ≡ self.old) }
    {
        let place = self.entries.len();
        let hidden = place_of(&self.latest, name);
        self.entries.push(Entry {
            name,
            declared,
            hidden,
        })?;
        match self.latest.insert(name, Some(place)) {
            Ok(_) => Ok(()),
            Err(_) => {
                self.entries.pop();
                Err(AllocError)
            }
        }
    }

    /// Takes the last declaration off, so that its name stands for what it stood for before.
    pub fn remove_last(&mut self)
        ensures { self.new ≡ drop 1 self.old }
    {
        match self.entries.pop() {
            Some(entry) => match self.latest.insert(entry.name, entry.hidden) {
                Ok(_) => {}
                Err(_) => {}
            },
            None => {}
        }
    }

    /// Takes an inner list of declarations off: all but so many of those that were added first. It costs what it takes off.
    pub fn truncate(&mut self, count: usize)
        ensures { self.new ≡ drop (length self.old - count) self.old }
    {
        while self.len() > count {
            self.remove_last();
        }
    }
}
