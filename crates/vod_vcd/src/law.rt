ghost use Rattle.std.specs.Prelude.{◌≡◌, ℕ, ◌<◌, List, ◌++◌, length, map, All};
ghost use Rattle.std.specs.List.Sorted.{IsNonDecreasing};
ghost use Rattle.vod_bits.specs.Bit.{Bit};
ghost use Rattle.vod_design.specs.Netlist.{Netlist};
ghost use Rattle.vod_vcd.specs.Header.{header_text};
ghost use Rattle.vod_vcd.specs.Dump.{Moment, full_dump, last_moment, cut, dump_text};
ghost use Rattle.vod_vcd.specs.Stream.{window_text};

/// What the four calls write in turn, behind each other, is the text of the full dump's cut. The cut
/// from 0 to the last time is the full dump.
pub fn window_is_cut()
    ensures window { (source : List ℕ) (d : Netlist) (first : List (List Bit)) (moments : List Moment) (a b : ℕ) →
        IsNonDecreasing (map (λ m. m.time) moments) →
        All (λ m. length m.values ≡ length first) moments →
        header_text source d ++ window_text first moments a b ≡ dump_text source d (cut (full_dump first moments) a b) }
    ensures whole { (first : List (List Bit)) (moments : List Moment) →
        IsNonDecreasing (map (λ m. m.time) moments) →
        All (λ m. 0 < m.time) moments →
        cut (full_dump first moments) 0 (last_moment 0 moments) ≡ full_dump first moments }
{}
