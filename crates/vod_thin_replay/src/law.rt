//! What a sound log answers.
ghost use Rattle.std.specs.Prelude.{◌≡◌, ℕ, List};
ghost use Rattle.vod_thin_design.specs.declared.thin.Vector.{Vector};
ghost use Rattle.vod_thin_design.specs.Netlist.{Netlist, IsAccepted};
ghost use Rattle.vod_thin_code.specs.Held.{IsSound};
ghost use Rattle.vod_thin_replay.specs.Replay.{IsHeadDamagedAt, IsDamagedAt, IsReadUpTo, IsDamagedUpTo};

use vod_thin_code::one_batch;

/// No record of a sound log is damaged.
pub fn sound_is_undamaged()
    ensures head { (d : Netlist) (source : List ℕ) (interval : ℕ) (vs : List Vector) (bytes : List ℕ) (at : ℕ) → IsSound d source interval vs bytes → IsHeadDamagedAt bytes at → ⊥ }
    ensures batches { (d : Netlist) → IsAccepted d → (source : List ℕ) (interval : ℕ) (vs : List Vector) (bytes : List ℕ) (at : ℕ) → IsSound d source interval vs bytes → IsDamagedAt d bytes at → ⊥ }
{
    // A law: a payload is that of one batch at most, so that the one that a sound log has there is read.
    one_batch();
}

/// Of a log up to a time, either the vectors are read or one record is the first damaged one.
pub fn one_damage()
    ensures head { (bytes : List ℕ) (at other : ℕ) → IsHeadDamagedAt bytes at → IsHeadDamagedAt bytes other → at ≡ other }
    ensures apart { (d : Netlist) → IsAccepted d → (bytes : List ℕ) (to : ℕ) (vs : List Vector) (at : ℕ) → IsReadUpTo d bytes to vs → IsDamagedUpTo d bytes to at → ⊥ }
    ensures place { (d : Netlist) → IsAccepted d → (bytes : List ℕ) (to at other : ℕ) → IsDamagedUpTo d bytes to at → IsDamagedUpTo d bytes to other → at ≡ other }
{
    // A law: a payload is that of one batch at most, so that what is read of a record is what it holds.
    one_batch();
}
