//! The values of signals and memory words that expressions are evaluated over.
ghost use Rattle.std.specs.Prelude.{◌≡◌, map, option_map};
ghost use Rattle.vod_design.specs.Values.{Values, value_at};
ghost use Rattle.vod_eval.specs.Listed.{values_of};

use sqlite_items::Items;
use vod_bits::Word;
use vod_value::Value;

/// Values of signals, by number, and of memory words, by memory and place from the least index up.
pub trait Tables<V: Value> {
    /// The values.
    ghost values: { Self → Values };

    /// The value of a signal, one bit that isn't there where there is no such signal.
    fn signal(&self, n: u32) -> V
        ensures { V.bits result ≡ (values self.now).signal n };

    /// A word of a memory, where there is one.
    fn word(&self, memory: u32, place: Word) -> Option<V>
        ensures { option_map V.bits result ≡ (values self.now).word memory place };
}

/// Tables that are lists: the values of the signals by number, and the memories by number, each as its words by place.
#[derive(Clone, Copy)]
pub struct Lists<'v, V> {
    pub signals: &'v [V],
    pub memories: &'v [Items<V>],
}

impl<V: Value> Tables<V> for Lists<'_, V> {
    ghost values = { λ t. values_of V.fill (map V.bits t.signals.now) (map (map V.bits) t.memories.now) };

    fn signal(&self, n: u32) -> V {
        value_at(self.signals, n as usize)
    }

    fn word(&self, memory: u32, place: Word) -> Option<V> {
        let words = self.memories.get(memory as usize)?;
        words.as_slice().get(place as usize).copied()
    }
}

// The value at a place of a list, one bit that isn't there where there is none.
pub fn value_at<V: Value>(values: &[V], n: usize) -> V
    ensures { V.bits result ≡ value_at V.fill (map V.bits values.now) n }
{
    values.get(n).copied().unwrap_or(V::nothing())
}
