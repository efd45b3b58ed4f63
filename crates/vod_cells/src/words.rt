//! Words of a memory, by place.
ghost use Rattle.std.specs.Prelude.{◌≡◌, not, slice_set};
ghost use Rattle.vod_slot.specs.Store.{list_at, same_bits};

use crate::bits::differ;
use sqlite_items::Items;
use vod_bits::Word;
use vod_four::Four;
use vod_value::Value;

/// Whether a word is another than the one at a place. Where no word is, it is, since each has a bit.
#[tactic(auto, using(crate::proofs::Placed::inside, crate::proofs::Placed::outside))]
pub fn changes_word(words: &Items<Four>, place: Word, word: Four) -> bool
    ensures { result ≡ not (same_bits (list_at words.now place) word) }
{
    if place as usize >= words.len() {
        return word.width() > 0;
    }
    differ(words.as_slice()[place as usize], word)
}

/// Puts a word at a place. Where none is, nothing changes.
#[tactic(auto, using(std::proofs::lemmas::List::set_past))]
pub fn set_word(words: &mut Items<Four>, place: Word, word: Four)
    ensures { words.new ≡ slice_set words.old place word }
{
    if place as usize >= words.len() {
        return;
    }
    words.set(place as usize, word);
}
