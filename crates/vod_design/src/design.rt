//! Flat designs: a draft of one keeps the rules on declarations, and a design all rules.
ghost use Rattle.std.specs.Prelude.{◌≡◌, ◌<◌, ◌^◌, length, IfOk};
ghost use Rattle.vod_design.specs.Accepted.{AreRanks};
ghost use Rattle.vod_design.specs.Netlist.{EachOnce};
ghost use Rattle.vod_design.specs.Accepted.{IsAccepted};
ghost use Rattle.vod_design.specs.Flat.{IsFlat};

use crate::{Block, Driver, Function, Initial, Input, Precision, Ram, Scope, Signal};
use std::alloc::{AllocError, Global};
use std::marker::Model;

/// What the source of a driver is.
#[derive(Clone, Copy, PartialEq, Eq)]
pub enum DriverForm {
    /// `assign` (6.1.2).
    Assign,
    /// A net declared with a value (6.1.1).
    NetValue,
    /// An output of a gate (7.1.6).
    Gate,
    /// What is connected to an input port (12.3.9).
    InputPort,
    /// What an output port is connected to (12.3.9).
    OutputPort,
}

/// Where parts of a flat design stand in the source, as byte offsets, and what form drivers have there. The lists are by number.
#[derive(Drop)]
pub struct Origins {
    /// The declared names of signals, in the port list for ports.
    pub signals: Vec<u32>,
    /// The declared names of memories.
    pub memories: Vec<u32>,
    /// The declared names of functions.
    pub functions: Vec<u32>,
    /// The `always` of each block.
    pub blocks: Vec<u32>,
    pub drivers: Vec<DriverForm>,
}

/// A flat design that keeps the rules on declarations, but wasn't judged by the others, which settle what each input is for, and
/// which event of a block is its clock.
#[derive(Drop)]
pub struct Draft {
    pub signals: Vec<Signal>,
    pub inputs: Vec<Input>,
    pub drivers: Vec<Driver>,
    pub blocks: Vec<Block>,
    pub memories: Vec<Ram>,
    pub initials: Vec<Initial>,
    pub scopes: Vec<Scope>,
    pub functions: Vec<Function>,
    pub precision: Precision,
    pub origins: Origins,
}

impl Model for Draft {
    ghost use Rattle.vod_design.specs.Draft.{Placed, parts, placed};
    ghost use Rattle.vod_design.specs.Flat.{IsFlat};
    ghost use Rattle.vod_design.specs.contracts.sized.SizedKind as kinds;
    ghost use Rattle.vod_design.specs.contracts.statement.Statement as statements;
    ghost use Rattle.std.specs.Coded.{codes};

    ghost coded = { Prim.hlevel (codes, kinds.the_row.coded, statements.the_row.coded) };

    ghost Value = { Placed };

    ghost view = { λ d. placed (parts d.signals.items d.inputs.items d.drivers.items d.blocks.items d.memories.items d.initials.items d.scopes.items d.functions.items d.precision) d.origins };

    ghost invariant = { λ d. IsFlat (parts d.signals.items d.inputs.items d.drivers.items d.blocks.items d.memories.items d.initials.items d.scopes.items d.functions.items d.precision) };
}

/// Numbers of drivers, which contracts see as their list.
#[derive(Drop)]
pub struct Drivers {
    numbers: Vec<u32>,
}

impl Model for Drivers {
    ghost use Rattle.std.specs.Prelude.{List, ℕ};

    ghost Value = { List ℕ };

    ghost view = { λ d. d.numbers.items };
}

impl Drivers {
    /// These numbers, in this order; it takes no memory.
    pub fn new(numbers: Vec<u32>) -> Drivers
        ensures { result ≡ numbers.items }
    {
        Drivers { numbers }
    }

    /// The numbers.
    pub fn as_slice(&self) -> &[u32]
        ensures { result.now ≡ self.now }
    {
        self.numbers.as_slice()
    }
}

/// An accepted design: it keeps all rules, and its drivers have an order in which each stands behind those that feed it.
#[derive(Drop)]
pub struct Design {
    signals: Vec<Signal>,
    inputs: Vec<Input>,
    drivers: Vec<Driver>,
    blocks: Vec<Block>,
    memories: Vec<Ram>,
    initials: Vec<Initial>,
    scopes: Vec<Scope>,
    functions: Vec<Function>,
    precision: Precision,
    ranked: Drivers,
}

impl Model for Design {
    ghost use Rattle.vod_design.specs.Draft.{Ordered, parts, ordered};
    ghost use Rattle.vod_design.specs.Accepted.{IsAccepted};
    ghost use Rattle.vod_design.specs.contracts.sized.SizedKind as kinds;
    ghost use Rattle.vod_design.specs.contracts.statement.Statement as statements;
    ghost use Rattle.std.specs.Coded.{codes};

    ghost coded = { Prim.hlevel (codes, kinds.the_row.coded, statements.the_row.coded) };

    ghost Value = { Ordered };

    ghost view = { λ d. ordered (parts d.signals.items d.inputs.items d.drivers.items d.blocks.items d.memories.items d.initials.items d.scopes.items d.functions.items d.precision) d.ranked };

    ghost invariant = { λ d. IsAccepted (parts d.signals.items d.inputs.items d.drivers.items d.blocks.items d.memories.items d.initials.items d.scopes.items d.functions.items d.precision) d.ranked };
}

impl Design {
    /// The design of a draft that keeps the other rules too, and of an order of its drivers; it takes no memory.
    pub fn of(draft: Draft, ranked: Drivers) -> Design
        requires { IsAccepted draft.netlist ranked }
        ensures netlist { result.netlist ≡ draft.netlist }
        ensures ranked { result.ranked ≡ ranked }
    {
        Design {
            signals: draft.signals,
            inputs: draft.inputs,
            drivers: draft.drivers,
            blocks: draft.blocks,
            memories: draft.memories,
            initials: draft.initials,
            scopes: draft.scopes,
            functions: draft.functions,
            precision: draft.precision,
            ranked,
        }
    }

    /// The nets and registers, by number.
    pub fn signals(&self) -> &[Signal]
        ensures { result.now ≡ self.now.netlist.signals }
    {
        self.signals.as_slice()
    }

    /// The inputs of the top, in the order of its port list.
    pub fn inputs(&self) -> &[Input]
        ensures { result.now ≡ self.now.netlist.inputs }
    {
        self.inputs.as_slice()
    }

    /// The drivers, by number.
    pub fn drivers(&self) -> &[Driver]
        ensures { result.now ≡ self.now.netlist.drivers }
    {
        self.drivers.as_slice()
    }

    /// The `always` blocks, by number.
    pub fn blocks(&self) -> &[Block]
        ensures { result.now ≡ self.now.netlist.blocks }
    {
        self.blocks.as_slice()
    }

    /// The memories, by number.
    pub fn memories(&self) -> &[Ram]
        ensures { result.now ≡ self.now.netlist.memories }
    {
        self.memories.as_slice()
    }

    /// The initial items, by number.
    pub fn initials(&self) -> &[Initial]
        ensures { result.now ≡ self.now.netlist.initials }
    {
        self.initials.as_slice()
    }

    /// The instances in preorder, the top first.
    pub fn scopes(&self) -> &[Scope]
        ensures { result.now ≡ self.now.netlist.scopes }
    {
        self.scopes.as_slice()
    }

    /// The functions, by number.
    pub fn functions(&self) -> &[Function]
        ensures { result.now ≡ self.now.netlist.functions }
    {
        self.functions.as_slice()
    }

    /// The precision in which times count.
    pub fn precision(&self) -> Precision
        ensures { result ≡ self.now.netlist.precision }
    {
        self.precision
    }

    /// The numbers of all drivers, each once, behind all drivers that feed it.
    pub fn ranked(&self) -> &[u32]
        ensures { result.now ≡ self.now.ranked }
    {
        self.ranked.as_slice()
    }

    /// The place of each driver among `ranked`, by the driver's number.
    pub fn ranks(&self, alloc: Global) -> Result<Vec<u32>, AllocError>
        ensures { IfOk result (λ ranks. AreRanks self.now.ranked ranks.items) }
    {
        places_of(alloc, self.ranked.as_slice())
    }

    /// Each design keeps all rules.
    pub fn keeps_rules(&self)
        ensures { IsAccepted self.now.netlist self.now.ranked }
    {
        let _ = &self.signals;
    }
}

// The place of each of these numbers among them, by number.
fn places_of(alloc: Global, ranked: &[u32]) -> Result<Vec<u32>, AllocError>
    requires each { EachOnce (λ n. n < length ranked.now) ranked.now }
    requires few { length ranked.now < 2 ^ 25 }
    ensures { IfOk result (λ ranks. AreRanks ranked.now ranks.items) }
{
    let mut ranks = vec![in alloc; 0; ranked.len()]?;
    for (place, driver) in ranked.iter().enumerate() {
        ranks[*driver as usize] = place as u32;
    }
    Ok(ranks)
}
