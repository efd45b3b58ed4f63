//! The call that the program makes.
ghost use Rattle.std.specs.Prelude.{ℕ, ◌≡◌, ◌≤◌, ◌⊎◌, [], Ok, Err, map, string_bytes};
ghost use Rattle.vod_io.specs.Told.{Told};
ghost use Rattle.vod_deck.specs.Outcomes.{View, From, Leaves};
ghost use Rattle.vod_log.specs.Tail.{IsUnchanged};
ghost use Rattle.vod_program.specs.Answer.{World, Count, inputs_of, output_of, device_of, world_of, Answers, IsLeft, Reads, KeepsAcknowledged};
ghost use Rattle.vod_program.specs.Caused.{IsAnswered, IsSaid, MayWrite};
ghost use Rattle.vod_program.specs.Command.{IsCommand};
ghost use Rattle.vod_program.specs.Quiet.{Writes, ReadsInputs, UsesDeck};
ghost use Rattle.vod_program.specs.declared.command.Command.{Command};
ghost use Rattle.vod_program.specs.declared.command.Command.TheVariants as command;
ghost use Rattle.vod_thin_window.specs.declared.window.Window as span;
ghost use Rattle.vod_program.specs.declared.status.Part.TheVariants as part;

use crate::command::{Command, command_of};
use crate::dump::dump;
use crate::record::record;
use crate::status::{Fault, Status, report};
use crate::window::window;
use std::alloc::Global;
use vod_deck::Deck;
use vod_io::{Sink, Source};
use vod_thin::{one_design, one_place, plain_names};
use vod_thin_code::one_head;
use vod_thin_replay::{one_damage, sound_is_undamaged};
use vod_thin_script::{one_reading, one_refusal};
use vod_thin_store::said_is_held;

/// The answer of the command that the words are.
fn answer<D: Source, S: Source, L: Deck, K: Sink>(
    alloc: Global,
    words: &[String],
    design: &mut D,
    input: &mut S,
    deck: &mut L,
    out: &mut K,
) -> Result<(), Fault>
    ensures answers { let world : World = world_of (map string_bytes words.now)
        (inputs_of (D.left design.old) (S.left input.old) (D.faults design.old) (D.faults design.new) (S.faults input.old) (S.faults input.new))
        (output_of (K.taken out.old) (K.taken out.new) (K.faults out.old) (K.faults out.new))
        (device_of L.tells (L.view deck.old) (L.view deck.new))
        in Answers world result }
    ensures quiet { (Writes result → ⊥) → out.new ≡ out.old }
    ensures no_inputs { ((command : Command) → IsCommand (map string_bytes words.now) command → ReadsInputs command → ⊥) → (design.new ≡ design.old) × (input.new ≡ input.old) }
    ensures no_deck { ((command : Command) → IsCommand (map string_bytes words.now) command → UsesDeck command → ⊥) → deck.new ≡ deck.old }
    ensures no_out { IsCommand (map string_bytes words.now) command.Record → out.new ≡ out.old }
    ensures unchanged { L.tells → (window : span.Window) → IsCommand (map string_bytes words.now) (command.Window window) → IsUnchanged (L.view deck.old) (L.view deck.new) }
    ensures no_script { (place : ℕ) → result ≡ Err (Fault.NotYet part.Design place) → (input.new ≡ input.old) × (deck.new ≡ deck.old) }
    ensures ended { result ≡ Ok tt → (command : Command) → IsCommand (map string_bytes words.now) command → ReadsInputs command → Told (S.left input.new) [] }
    ensures crashes { let world : World = world_of (map string_bytes words.now)
        (inputs_of (D.left design.old) (S.left input.old) (D.faults design.old) (D.faults design.new) (S.faults input.old) (S.faults input.new))
        (output_of (K.taken out.old) (K.taken out.new) (K.faults out.old) (K.faults out.new))
        (device_of L.tells (L.view deck.old) (L.view deck.new))
        in L.tells → Leaves world.device.before world.device.after (From world.device.before.may_leave (IsLeft world.inputs world.device)) }
    ensures design_counted { D.faults design.old ≤ D.faults design.new }
    ensures input_counted { S.faults input.old ≤ S.faults input.new }
    ensures deck_counted { (L.view deck.old).faults ≤ (L.view deck.new).faults }
    ensures out_counted { K.faults out.old ≤ K.faults out.new }
{
    match command_of(words) {
        Some(Command::Record) => record(alloc, design, input, deck),
        Some(Command::Window(span)) => window(alloc, deck, span, out),
        Some(Command::Dump) => dump(alloc, design, input, out),
        None => Err(Fault::Usage),
    }
}

/// Runs the command that the words are.
///
/// - `record DESIGN LOG` appends the vectors of `input` to the empty log on `deck`, and says which are safe.
/// - `window LOG A B` writes on `out` the window from A to B of the run that the log on `deck` holds.
/// - `dump DESIGN` writes on `out` the full dump of the design over the vectors of `input`.
///
/// What is written is what each legal run of the event queue gives. Each status but `Ok` and `WriteFault` writes its line on
/// `err`.
pub fn vod<D: Source, S: Source, L: Deck, K: Sink, E: Sink>(
    alloc: Global,
    words: &[String],
    design: &mut D,
    input: &mut S,
    deck: &mut L,
    out: &mut K,
    err: &mut E,
) -> Status
    ensures answered { let world : World = world_of (map string_bytes words.now)
        (inputs_of (D.left design.old) (S.left input.old) (D.faults design.old) (D.faults design.new) (S.faults input.old) (S.faults input.new))
        (output_of (K.taken out.old) (K.taken out.new) (K.faults out.old) (K.faults out.new))
        (device_of L.tells (L.view deck.old) (L.view deck.new))
        in IsAnswered world (record { before = E.faults err.old; after = E.faults err.new }) result }

    // What the streams took besides.
    ensures said { IsSaid result (E.taken err.old) (E.taken err.new) }
    ensures silent { result ≡ Status.Ok → err.new ≡ err.old }
    ensures quiet { (MayWrite result → ⊥) → out.new ≡ out.old }
    ensures ended { result ≡ Status.Ok → (command : Command) → IsCommand (map string_bytes words.now) command → ReadsInputs command → Told (S.left input.new) [] }

    // What a command doesn't use stays as it was.
    ensures no_inputs { ((command : Command) → IsCommand (map string_bytes words.now) command → ReadsInputs command → ⊥) → (design.new ≡ design.old) × (input.new ≡ input.old) }
    ensures no_deck { ((command : Command) → IsCommand (map string_bytes words.now) command → UsesDeck command → ⊥) → deck.new ≡ deck.old }
    ensures no_out { IsCommand (map string_bytes words.now) command.Record → out.new ≡ out.old }
    ensures unchanged { L.tells → (window : span.Window) → IsCommand (map string_bytes words.now) (command.Window window) → IsUnchanged (L.view deck.old) (L.view deck.new) }
    ensures no_script { (place : ℕ) → result ≡ Status.NotYet part.Design place → (input.new ≡ input.old) × (deck.new ≡ deck.old) }

    // A crash at any moment of the call leaves what one at entry left, or a sound log of the source and the first vectors.
    ensures crashes { let world : World = world_of (map string_bytes words.now)
        (inputs_of (D.left design.old) (S.left input.old) (D.faults design.old) (D.faults design.new) (S.faults input.old) (S.faults input.new))
        (output_of (K.taken out.old) (K.taken out.new) (K.faults out.old) (K.faults out.new))
        (device_of L.tells (L.view deck.old) (L.view deck.new))
        in L.tells → Leaves world.device.before world.device.after (From world.device.before.may_leave (IsLeft world.inputs world.device)) }

    // What the log's file reads as afterwards is what such a crash may have left.
    ensures reads { let world : World = world_of (map string_bytes words.now)
        (inputs_of (D.left design.old) (S.left input.old) (D.faults design.old) (D.faults design.new) (S.faults input.old) (S.faults input.new))
        (output_of (K.taken out.old) (K.taken out.new) (K.faults out.old) (K.faults out.new))
        (device_of L.tells (L.view deck.old) (L.view deck.new))
        in L.tells → Reads world.inputs world.device }

    // What is acknowledged is held, where it was so at entry.
    ensures acknowledged { L.tells → KeepsAcknowledged (device_of L.tells (L.view deck.old) (L.view deck.new)) }

    ensures design_counted { D.faults design.old ≤ D.faults design.new }
    ensures input_counted { S.faults input.old ≤ S.faults input.new }
    ensures deck_counted { (L.view deck.old).faults ≤ (L.view deck.new).faults }
    ensures out_counted { K.faults out.old ≤ K.faults out.new }
    ensures err_counted { E.faults err.old ≤ E.faults err.new }
{
    // Laws, which do nothing when they run. A source has one design.
    one_design();
    // A refused source has one place, and no design.
    one_place();
    // The inputs' names of a design can be told apart in a script.
    plain_names();
    // A script has one list of vectors.
    one_reading();
    // A refused script has one line, and no list of vectors.
    one_refusal();
    // The payload of a head has one interval and one source.
    one_head();
    // No record of a sound log is damaged.
    sound_is_undamaged();
    // Of a log up to a time, all is read or one record is the first damaged one.
    one_damage();
    // Where no more than the first k vectors are held, no more than k are acknowledged.
    said_is_held();
    let ended = answer(alloc, words, design, input, deck, out);
    // The file as it reads is one that a crash now may leave.
    deck.lives();
    match ended {
        Ok(()) => Status::Ok,
        Err(fault) => report(fault, err),
    }
}
