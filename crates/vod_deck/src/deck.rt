ghost use Rattle.std.specs.Prelude.{◌≡◌, ℕ, ◌+◌, ◌^◌, ◌≤◌, ◌<◌, length, take, drop, IfOk, OnOk, OnErr};
ghost use Rattle.vod_io.specs.Faults.{HasCause};
ghost use Rattle.vod_deck.specs.Outcomes.{Outcome, View, Holds, Torn, Writes, Stays, IsSaid, Says, Only, Elapses, SameOutcomes, IsRead, IsLive};

use vod_io::Failed;

/// A file of bytes beside a stream of said text, on one clock. A crash at any moment leaves one of
/// its outcomes: a file and a text.
pub trait Deck {
    /// Whether it tells what it holds. Counts are told by all.
    ghost tells: { Type 0 };

    /// What callers see of it.
    ghost view: { Self → View };

    /// The length of the file.
    fn len(&mut self) -> Result<u64, Failed>
        ensures total { IfOk result (λ n. tells → n ≡ length (view self.old).bytes) }
        ensures bytes { tells → (view self.new).bytes ≡ (view self.old).bytes }
        ensures outcomes { tells → SameOutcomes (view self.old) (view self.new) }
        ensures caused { HasCause (view self.old).faults (view self.new).faults result }
        ensures read { (view self.new).bytes_read ≡ (view self.old).bytes_read };

    /// Reads a range that is inside the length.
    fn read_at(&mut self, at: u64, buf: &mut [u8]) -> Result<(), Failed>
        requires { tells → at + length buf.old ≤ length (view self.old).bytes }
        ensures got { OnOk result (tells → buf.new ≡ take (length buf.old) (drop at (view self.old).bytes)) }
        ensures bytes { tells → (view self.new).bytes ≡ (view self.old).bytes }
        ensures outcomes { tells → SameOutcomes (view self.old) (view self.new) }
        ensures caused { HasCause (view self.old).faults (view self.new).faults result }
        ensures read { IsRead (view self.old).bytes_read (view self.new).bytes_read (length buf.old) result };

    /// Writes over what is there and past the end. Until a sync, a crash may leave any bytes in the
    /// range. It may have written some of them where it fails.
    fn write_at(&mut self, at: u64, bytes: &[u8]) -> Result<(), Failed>
        requires joined { tells → at ≤ length (view self.old).bytes }
        requires short { at + length bytes.now < 2 ^ 63 }
        ensures written { OnOk result (tells → Holds (view self.old).bytes at bytes.now (view self.new).bytes) }
        ensures torn { OnErr result (tells → Torn at (length bytes.now) (view self.old).bytes (view self.new).bytes) }
        ensures outcomes { tells → Elapses (view self.old) (view self.new) (Writes at (length bytes.now)) }
        ensures caused { HasCause (view self.old).faults (view self.new).faults result }
        ensures read { (view self.new).bytes_read ≡ (view self.old).bytes_read };

    /// Makes the file last: after it a crash leaves the bytes as a read gives them.
    fn sync(&mut self) -> Result<(), Failed>
        ensures lasts { OnOk result (tells → Only (view self.old).bytes (view self.new).may_leave) }
        ensures bytes { tells → (view self.new).bytes ≡ (view self.old).bytes }
        ensures outcomes { tells → Elapses (view self.old) (view self.new) Stays }
        ensures caused { HasCause (view self.old).faults (view self.new).faults result }
        ensures read { (view self.new).bytes_read ≡ (view self.old).bytes_read };

    /// Says a text. A crash in the call leaves a front of it, and after it the whole. Some of it may
    /// be said where the call fails.
    fn say(&mut self, text: &[u8]) -> Result<(), Failed>
        ensures whole { OnOk result (tells → IsSaid (view self.old) (view self.new) text.now) }
        ensures bytes { tells → (view self.new).bytes ≡ (view self.old).bytes }
        ensures outcomes { tells → Elapses (view self.old) (view self.new) (Says (view self.old).may_leave text.now) }
        ensures caused { HasCause (view self.old).faults (view self.new).faults result }
        ensures read { (view self.new).bytes_read ≡ (view self.old).bytes_read };

    /// A law, which does nothing when it runs: the file as a read gives it is one that a crash now may leave.
    fn lives(&self)
        ensures { tells → IsLive (view self.now) };

    /// This moment is one of those since an earlier one.
    ghost counts_now: { (deck : Self) (t : ℕ) (c : Outcome) → t ≤ (view deck).moment → (view deck).may_leave c → (view deck).left_since t c };

    /// Since this moment there is no other.
    ghost only_now: { (deck : Self) (c : Outcome) → (view deck).left_since (view deck).moment c → (view deck).may_leave c };
}
