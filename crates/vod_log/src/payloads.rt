ghost use Rattle.std.specs.Prelude.{◌≡◌, ℕ, ◌+◌, ◌^◌, ◌≤◌, ◌<◌, [], length, OnOk, OnErr, IsErrOf};
ghost use Rattle.vod_io.specs.Faults.{Rose};
ghost use Rattle.vod_deck.specs.Outcomes.{View, capped};
ghost use Rattle.vod_log.specs.declared.log.LogFault.TheVariants.{Deck as DeckFault, Memory as NoMemory};
ghost use Rattle.vod_log.specs.Opened.{payload_at};
ghost use Rattle.vod_log.specs.Tail.{IsUnchanged};

use crate::{LogFault, Record};
use std::alloc::Global;
use std::marker::Model;
use vod_deck::Deck;

/// A buffer that is seen as its bytes.
#[derive(Drop)]
pub struct Bytes {
    bytes: Vec<u8>,
}

impl Model for Bytes {
    ghost use Rattle.std.specs.Prelude.{ℕ, List};

    ghost Value = { List ℕ };

    ghost view = { λ s. s.bytes.items };
}

impl Bytes {
    /// No bytes.
    pub fn new(alloc: Global) -> Bytes
        ensures { result ≡ [] }
    {
        Bytes {
            bytes: Vec::new(alloc),
        }
    }

    /// The bytes.
    pub fn as_slice(&self) -> &[u8]
        ensures { result.now ≡ self.now }
    {
        self.bytes.as_slice()
    }
}

// Makes room for bytes, all of them 0.
fn make_room(bytes: &mut Vec<u8>, count: usize) -> Result<(), LogFault>
    ensures len { OnOk result (length bytes.new.items ≡ count) }
    ensures memory { IsErrOf result DeckFault → ⊥ }
    ensures other { (at : ℕ) → IsErrOf result (LogFault.NotALog at) → ⊥ }
{
    bytes.clear();
    bytes.resize(count, 0)?;
    Ok(())
}

/// Reads the payload of a record of a log that was opened on this deck, whose file has only been
/// appended to since. The content of the buffer may be lost where it fails.
pub fn payload<L: Deck>(deck: &mut L, entry: &Record, into: &mut Bytes) -> Result<(), LogFault>
    requires inside { L.tells → entry.now.at + 49 + entry.now.header.length ≤ length (L.view deck.old).bytes }
    requires short { entry.now.at < 2 ^ 63 }
    ensures payload { OnOk result (L.tells → into.new ≡ payload_at (L.view deck.old).bytes entry.now) }
    ensures framed { (at : ℕ) → IsErrOf result (LogFault.NotALog at) → ⊥ }
    ensures unchanged { L.tells → IsUnchanged (L.view deck.old) (L.view deck.new) }
    ensures later { (L.view deck.old).faults ≤ (L.view deck.new).faults }
    ensures caused { IsErrOf result DeckFault → Rose (L.view deck.old).faults (L.view deck.new).faults }
    ensures least { capped (L.view deck.old).bytes_read ≤ (L.view deck.new).bytes_read }
    ensures most { (L.view deck.new).bytes_read ≤ (L.view deck.old).bytes_read + entry.now.header.length }
{
    make_room(&mut into.bytes, entry.header.length as usize)?;
    deck.read_at(entry.at + 49, &mut into.bytes)?;
    Ok(())
}
