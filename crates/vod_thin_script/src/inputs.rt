//! The inputs of a design, by name.

ghost use Rattle.std.specs.Prelude.{◌≡◌, ◌<◌, [], length, slice_index_or, Contains, IfOk, IfNone, IfSome};
ghost use Rattle.vod_thin_design.specs.Names.{HasPlainNames, input_names};

use indexmap::IndexSet;
use std::alloc::{AllocError, Global};
use std::marker::Model;
use vod_thin_design::Design;

/// The inputs of a design, which are found by their names.
#[derive(Drop)]
pub struct Inputs<'a> {
    design: &'a Design,
    names: IndexSet<&'a [u8]>,
}

impl<'a> Model for Inputs<'a> {
    ghost use Rattle.std.specs.Prelude.{◌≡◌, ◌<◌, ◌^◌, map, length};
    ghost use Rattle.vod_thin_design.specs.Netlist.{Netlist};
    ghost use Rattle.vod_thin_design.specs.Names.{input_names};
    ghost use Rattle.vod_thin_design.specs.contracts.thin.Expr as e;
    ghost use Rattle.std.specs.Coded.{codes};

    ghost Value = { Netlist };

    ghost coded = { Prim.hlevel (codes, e.the_row.coded) };

    ghost view = { λ a. a.design.now };

    ghost invariant = { λ a. (map (λ name. name.now) a.names.keys ≡ input_names a.design.now) × (length a.design.now.inputs < 2 ^ 32) };
}

impl<'a> Inputs<'a> {
    /// The inputs of this design.
    pub fn of(alloc: Global, design: &'a Design) -> Result<Inputs<'a>, AllocError>
        requires { HasPlainNames design.now }
        ensures { IfOk result (λ inputs. inputs ≡ design.now) }
    {
        let signals = design.signals();
        let mut names = IndexSet::with_capacity(alloc, design.inputs().len())?;
        for input in design.inputs() {
            names.insert(signals[input.signal as usize].name.as_slice())?;
        }
        Ok(Inputs { design, names })
    }

    /// The number of the input with this name.
    pub fn find(&self, name: &[u8]) -> Option<u32>
        ensures none { IfNone result (¬ Contains (input_names self.now) name.now) }
        ensures found { IfSome result (λ i. (i < length self.now.inputs) × (slice_index_or (input_names self.now) i [] ≡ name.now)) }
    {
        let index = self.names.get_index_of(name)?;
        Some(index as u32)
    }
}
