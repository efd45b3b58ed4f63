//! Names that are found by their bytes.
ghost use Rattle.std.specs.Prelude.{◌≡◌, ◌<◌, ◌≤◌, [], Some, slice_get, length, IfOk, OnOk};
ghost use Rattle.std.specs.List.{position_or_len};
ghost use Rattle.std.specs.Str.{bytes_eq};
ghost use Rattle.vod_thin.specs.Signals.{has_text};
ghost use Rattle.vod_thin.specs.View.{with_text, found, with_entry};

use indexmap::{IndexMap, IndexSet};
use std::alloc::{AllocError, Global};
use std::marker::Model;

/// What a signal was declared as.
#[derive(Clone, Copy, PartialEq, Eq)]
pub(crate) enum Kind {
    /// `input`
    Input,
    /// `output`
    Output,
    /// `wire`
    Wire,
    /// `reg`, with its initial value.
    Register(bool),
}

/// Names, each once.
#[derive(Drop)]
pub(crate) struct Names<'s> {
    set: IndexSet<&'s [u8]>,
}

impl<'s> Model for Names<'s> {
    ghost use Rattle.std.specs.Prelude.{List, ℕ, map};

    ghost Value = { List (List ℕ) };

    ghost view = { λ a. map (λ name. name.now) a.set.keys };
}

impl<'s> Names<'s> {
    /// No names, with room for so many.
    pub(crate) fn with_room(alloc: Global, count: usize) -> Result<Names<'s>, AllocError>
        ensures { IfOk result (λ names. names ≡ []) }
    {
        Ok(Names {
            set: IndexSet::with_capacity(alloc, count)?,
        })
    }

    /// Adds a name, where it isn't there.
    pub(crate) fn add(&mut self, name: &'s [u8]) -> Result<(), AllocError>
        ensures { OnOk result (self.new ≡ with_text self.old name.now) }
    {
        self.set.insert(name)?;
        Ok(())
    }

    /// Whether it has a name.
    pub(crate) fn has(&self, name: &[u8]) -> bool
        ensures { result ≡ has_text self.now name.now }
    {
        self.set.contains(name)
    }
}

/// Signals by their names: the kind of each, numbered in the order of their declarations. The first of a name counts.
#[derive(Drop)]
pub(crate) struct Signals<'s> {
    table: IndexMap<&'s [u8], Kind>,
}

impl<'s> Model for Signals<'s> {
    ghost use Rattle.std.specs.Prelude.{List, ℕ, map};
    ghost use Rattle.vod_thin.specs.declared.names.Kind.{Kind};

    ghost Value = { List (List ℕ × Kind) };

    ghost view = { λ a. map (λ e. (e.0.now, e.1)) a.table.entries };
}

impl<'s> Signals<'s> {
    /// No signals, with room for so many.
    pub(crate) fn with_room(alloc: Global, count: usize) -> Result<Signals<'s>, AllocError>
        ensures { IfOk result (λ signals. signals ≡ []) }
    {
        Ok(Signals {
            table: IndexMap::with_capacity(alloc, count)?,
        })
    }

    /// Declares a signal, where there is none with its name.
    pub(crate) fn add(&mut self, name: &'s [u8], kind: Kind) -> Result<(), AllocError>
        ensures { OnOk result (self.new ≡ with_entry self.old name.now kind) }
    {
        if !self.table.contains_key(name) {
            self.table.insert(name, kind)?;
        }
        Ok(())
    }

    /// What a name was declared as first.
    pub(crate) fn kind(&self, name: &[u8]) -> Option<Kind>
        ensures { result ≡ found self.now name.now }
    {
        self.table.get(name).copied()
    }

    /// How many signals there are.
    pub(crate) fn len(&self) -> usize
        ensures { result ≡ length self.now }
    {
        self.table.len()
    }

    /// The name and the kind of a signal, by its number.
    pub(crate) fn at(&self, number: usize) -> (&'s [u8], Kind)
        requires { number < length self.now }
        ensures { slice_get self.now number ≡ Some (result.0.now, result.1) }
    {
        match self.table.get_index(number) {
            Some((name, kind)) => (*name, *kind),
            None => unreachable!(),
        }
    }

    /// The number of the signal with a name, or how many there are.
    pub(crate) fn number(&self, name: &[u8]) -> usize
        ensures number { result ≡ position_or_len (λ e. bytes_eq name.now e.0) self.now }
        ensures within { result ≤ length self.now }
    {
        self.table.get_index_of(name).unwrap_or(self.table.len())
    }
}
