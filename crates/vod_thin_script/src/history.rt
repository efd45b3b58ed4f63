//! The vectors of a run so far, and which may come next.
ghost use Rattle.std.specs.Prelude.{◌≡◌, ◌<◌, [], ◌∷◌, ◌++◌, length, replicate, All, IfOk, OnOk, OnErr, IsErrOf};
ghost use Rattle.vod_thin_design.specs.declared.thin.Bit.TheVariants.{Z};
ghost use Rattle.vod_thin_design.specs.Vectors.{IsVector, IsLawful, known_since, last_time};
ghost use Rattle.vod_thin_script.specs.declared.history.AddFault.TheVariants.{Refused};
ghost use Rattle.vod_thin_script.specs.Held as held;

use crate::held::{are_known, are_unmixed, may_begin, write};
use std::alloc::{AllocError, AllocFailed, Global};
use std::fmt;
use std::marker::Model;
use vod_io::MAX_TIME;
use vod_thin_design::{Bit, Design, Input, Vector};

/// Why a vector isn't added.
#[derive(Clone, Copy, PartialEq, Eq)]
pub enum AddFault {
    /// It isn't lawful behind those before it.
    Refused,
    /// There was no memory.
    Memory,
}

impl From<AllocError> for AddFault {
    ghost use Rattle.std.specs.Prelude.{◌≡◌};
    ghost use Rattle.vod_thin_script.specs.declared.history.AddFault.TheVariants.{Memory};

    ghost from_gives = { λ _ fault. fault ≡ Memory };

    fn from(_: AllocError) -> AddFault {
        AddFault::Memory
    }
}

impl<T: Drop> From<AllocFailed<T>> for AddFault {
    ghost use Rattle.std.specs.Prelude.{◌≡◌};
    ghost use Rattle.vod_thin_script.specs.declared.history.AddFault.TheVariants.{Memory};

    ghost from_gives = { λ _ fault. fault ≡ Memory };

    fn from(_: AllocFailed<T>) -> AddFault {
        AddFault::Memory
    }
}

impl fmt::Display for AddFault {
    fn fmt<W: fmt::Write>(&self, f: &mut fmt::Formatter<W>) -> fmt::Result {
        f.write_str(match self {
            AddFault::Refused => "the vector may not stand behind those before it",
            AddFault::Memory => "there was no memory",
        })
    }
}

/// The vectors of a design's run so far, which are lawful.
#[derive(Drop)]
pub struct History<'d> {
    design: &'d Design,
    vectors: Vec<Vector>,
    values: Vec<Bit>,
    known: Option<u64>,
    last: u64,
}

impl<'d> Model for History<'d> {
    ghost use Rattle.std.specs.Prelude.{◌≡◌};
    ghost use Rattle.vod_thin_script.specs.History.{Past, IsHistory};
    ghost use Rattle.vod_thin_design.specs.contracts.thin.Expr as e;
    ghost use Rattle.std.specs.Coded.{codes};

    ghost Value = { Past };

    ghost coded = { Prim.hlevel (codes, e.the_row.coded) };

    ghost view = { λ a. record { design = a.design.now; vectors = a.vectors.items } };

    ghost invariant = { λ a. IsHistory a.design.now a.vectors.items a.values.items a.known a.last };
}

impl<'d> History<'d> {
    /// No vector of this design.
    pub fn new(alloc: Global, design: &'d Design) -> Result<History<'d>, AllocError>
        ensures { IfOk result (λ past. past ≡ record { design = design.now; vectors = [] }) }
    {
        let values = vec![in alloc; Bit::Z; design.inputs().len()]?;
        Ok(History {
            design,
            vectors: Vec::new(alloc),
            values,
            known: None,
            last: 0,
        })
    }

    /// Adds a vector in form. It is refused exactly where it isn't lawful behind those before it.
    pub fn add(&mut self, vector: Vector) -> Result<(), AddFault>
        requires { IsVector self.old.design vector }
        ensures design { self.new.design ≡ self.old.design }
        ensures added { OnOk result (self.new.vectors ≡ self.old.vectors ++ vector ∷ []) }
        ensures lawful { OnOk result (IsLawful self.old.design (self.old.vectors ++ vector ∷ [])) }
        ensures kept { OnErr result (self.new.vectors ≡ self.old.vectors) }
        ensures refused { IsErrOf result Refused → IsLawful self.old.design (self.old.vectors ++ vector ∷ []) → ⊥ }
    {
        let design = self.design;
        let earlier = self.vectors.len();
        let time = vector.time;
        if !may_follow(
            design.inputs(),
            earlier,
            self.last,
            &mut self.values,
            &vector,
        ) {
            return Err(AddFault::Refused);
        }
        self.vectors.push(vector)?;
        write(&mut self.values, self.vectors[earlier].moves.as_slice());
        self.known = known_after(self.known, &self.values, time);
        self.last = time;
        Ok(())
    }

    /// The vectors, in order.
    pub fn vectors(&self) -> &[Vector]
        ensures items { result.now ≡ self.now.vectors }
        ensures lawful { IsLawful self.now.design self.now.vectors }
    {
        self.vectors.as_slice()
    }

    /// The time from which on each input has a value, if there is one.
    pub fn known_since(&self) -> Option<u64>
        ensures { result ≡ known_since self.now.design self.now.vectors }
    {
        self.known
    }

    /// The time of the last vector, or 0.
    pub fn last_time(&self) -> u64
        ensures { result ≡ last_time self.now.vectors }
    {
        self.last
    }
}

fn comes_after(last: u64, time: u64) -> bool
    ensures { result ≡ held.comes_after last time }
{
    last < time && time <= MAX_TIME
}

// Whether a vector in form may follow so many earlier ones.
fn may_follow(
    inputs: &[Input],
    earlier: usize,
    last: u64,
    values: &mut [Bit],
    vector: &Vector,
) -> bool
    requires within { All (λ move. move.input < length values.old) vector.now.moves }
    requires fresh { earlier ≡ 0 → values.old ≡ replicate (length values.old) Z }
    ensures kept { values.new ≡ values.old }
    ensures follows { result ≡ held.may_follow inputs.now earlier last values.old vector.now }
{
    let moves = vector.moves.as_slice();
    if !comes_after(last, vector.time) || !are_unmixed(inputs, values, moves) {
        return false;
    }
    earlier > 0 || may_begin(inputs, values, moves)
}

// Since when all inputs are known, behind a vector at this time.
fn known_after(known: Option<u64>, values: &[Bit], time: u64) -> Option<u64>
    ensures { result ≡ held.known_after known values.now time }
{
    match known {
        Some(since) => Some(since),
        None if are_known(values) => Some(time),
        None => None,
    }
}
