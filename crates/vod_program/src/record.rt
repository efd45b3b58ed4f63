//! The command `record DESIGN LOG`.
ghost use Rattle.std.specs.Prelude.{◌≡◌, ◌<◌, ◌≤◌, ◌∷◌, ℕ, [], length, ◌⊎◌, Ok, Err, IfOk, IfErr, None, false};
ghost use Rattle.vod_io.specs.Told.{Told};
ghost use Rattle.vod_io.specs.Faults.{Rose};
ghost use Rattle.vod_deck.specs.Outcomes.{View, From, Leaves};
ghost use Rattle.vod_log.specs.Tail.{IsSettled, Opens};
ghost use Rattle.vod_program.specs.Answer.{Inputs, Device, inputs_of, device_of, RecordAnswers, IsLeft};
ghost use Rattle.vod_program.specs.declared.status.Part.TheVariants as part;

use crate::faults::{append_fault, store_fault};
use crate::phase::{reading_of, recordable_of};
use crate::status::{Fault, Part};
use std::alloc::Global;
use vod_deck::Deck;
use vod_io::{Failed, Source};
use vod_log::{Log, Tail};
use vod_thin::few_inputs;

/// The end of the log on a deck that reads as a file of at most one byte, which is created.
fn open_fresh<L: Deck>(alloc: Global, deck: &mut L) -> Result<Tail, Fault>
    ensures fresh { IfOk result (λ tail. L.tells → (length (L.view deck.old).bytes ≤ 1) × (tail.last ≡ None)) }
    ensures whole { IfOk result (λ tail. tail.broken ≡ false) }
    ensures created { IfOk result (λ tail. L.tells → (L.view deck.new).bytes ≡ 0 ∷ []) }
    ensures settled { IfOk result (λ tail. L.tells → IsSettled (L.view deck.new) tail.gate tail.last) }
    ensures not_empty { (at : ℕ) → result ≡ Err (Fault.NotYet part.Log at) → L.tells → (at ≡ length (L.view deck.old).bytes) × (1 < at) }
    ensures crashes { L.tells → Leaves (L.view deck.old) (L.view deck.new) (From (L.view deck.old).may_leave (Opens (L.view deck.old).bytes)) }
    ensures faults { IfErr result (λ fault. (fault ≡ Fault.Deck) ⊎ (fault ≡ Fault.Memory) ⊎ ((at : ℕ) × (fault ≡ Fault.NotYet part.Log at))) }
    ensures later { (L.view deck.old).faults ≤ (L.view deck.new).faults }
    ensures caused { result ≡ Err Fault.Deck → Rose (L.view deck.old).faults (L.view deck.new).faults }
{
    let length = match deck.len() {
        Ok(length) => length,
        Err(Failed) => return Err(Fault::Deck),
    };
    if length > 1 {
        return Err(Fault::NotYet(Part::Log, length));
    }
    match Log::open_to_append(alloc, deck) {
        Ok(log) => Ok(log.tail()),
        Err(fault) => Err(append_fault(fault)),
    }
}

/// Records the vectors of the input on an empty log, and says which are safe.
pub fn record<D: Source, S: Source, L: Deck>(
    alloc: Global,
    design: &mut D,
    input: &mut S,
    deck: &mut L,
) -> Result<(), Fault>
    ensures answers { let inputs : Inputs = inputs_of (D.left design.old) (S.left input.old) (D.faults design.old) (D.faults design.new) (S.faults input.old) (S.faults input.new) in let device : Device = device_of L.tells (L.view deck.old) (L.view deck.new) in RecordAnswers inputs device result }
    ensures crashes { let inputs : Inputs = inputs_of (D.left design.old) (S.left input.old) (D.faults design.old) (D.faults design.new) (S.faults input.old) (S.faults input.new) in let device : Device = device_of L.tells (L.view deck.old) (L.view deck.new) in
        L.tells → Leaves (L.view deck.old) (L.view deck.new) (From (L.view deck.old).may_leave (IsLeft inputs device)) }
    ensures no_script { (place : ℕ) → result ≡ Err (Fault.NotYet part.Design place) → (input.new ≡ input.old) × (deck.new ≡ deck.old) }
    ensures end { result ≡ Ok tt → Told (S.left input.new) [] }
    ensures design_counted { D.faults design.old ≤ D.faults design.new }
    ensures input_counted { S.faults input.old ≤ S.faults input.new }
    ensures deck_counted { (L.view deck.old).faults ≤ (L.view deck.new).faults }
{
    let reading = reading_of(alloc, design)?;
    let tail = open_fresh(alloc, deck)?;
    let past = recordable_of(alloc, &reading.design, input)?;
    let source = reading.source.as_slice();
    let (vectors, known) = (past.vectors(), past.known_since());
    // A law, which does nothing when it runs: a design has at most 256 inputs.
    few_inputs();
    match vod_thin_store::record(alloc, deck, tail, &reading.design, source, vectors, known) {
        Ok(()) => Ok(()),
        Err(fault) => Err(store_fault(fault)),
    }
}
