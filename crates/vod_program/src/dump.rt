//! The command `dump DESIGN`.
ghost use Rattle.std.specs.Prelude.{◌≡◌, ◌≤◌, ℕ, [], Ok, Err};
ghost use Rattle.vod_io.specs.Told.{Told};
ghost use Rattle.vod_program.specs.Answer.{Inputs, Output, inputs_of, output_of, DumpAnswers};
ghost use Rattle.vod_program.specs.Quiet.{Writes};
ghost use Rattle.vod_program.specs.declared.status.Part.TheVariants as part;

use crate::faults::window_fault;
use crate::phase::{reading_of, vectors_of};
use crate::status::{Fault, Part};
use std::alloc::Global;
use vod_io::{Sink, Source};
use vod_thin_window::write_dump;

/// Writes the full dump of the design over the vectors of the input.
pub fn dump<D: Source, S: Source, K: Sink>(
    alloc: Global,
    design: &mut D,
    input: &mut S,
    out: &mut K,
) -> Result<(), Fault>
    ensures answers { let inputs : Inputs = inputs_of (D.left design.old) (S.left input.old) (D.faults design.old) (D.faults design.new) (S.faults input.old) (S.faults input.new) in let output : Output = output_of (K.taken out.old) (K.taken out.new) (K.faults out.old) (K.faults out.new) in DumpAnswers inputs output result }
    ensures quiet { (Writes result → ⊥) → out.new ≡ out.old }
    ensures no_script { (place : ℕ) → result ≡ Err (Fault.NotYet part.Design place) → input.new ≡ input.old }
    ensures end { result ≡ Ok tt → Told (S.left input.new) [] }
    ensures design_counted { D.faults design.old ≤ D.faults design.new }
    ensures input_counted { S.faults input.old ≤ S.faults input.new }
    ensures out_counted { K.faults out.old ≤ K.faults out.new }
{
    let reading = reading_of(alloc, design)?;
    let past = vectors_of(alloc, &reading.design, input)?;
    let source = reading.source.as_slice();
    match write_dump(alloc, source, &reading.design, past.vectors(), out) {
        Ok(()) => Ok(()),
        Err(fault) => Err(window_fault(fault)),
    }
}
