//! Laws of the bytes of records.
ghost use Rattle.std.specs.Prelude.{◌≡◌, ℕ, ◌+◌, ◌*◌, ◌<◌, ◌≤◌, ◌^◌, true, List, ◌++◌, length, take, slice_index, All, IfSome, ◌-◌};
ghost use Rattle.vod_thin_design.specs.declared.thin.Vector.{Vector};
ghost use Rattle.vod_thin_design.specs.Netlist.{Netlist, IsAccepted};
ghost use Rattle.vod_log.specs.declared.header.Header.{Header};
ghost use Rattle.vod_log.specs.Format.{begins_header, entry_of};
ghost use Rattle.vod_log.specs.Tail.{frame_header};
ghost use Rattle.vod_thin_code.specs.Bytes.{batch_bytes, record_bytes, IsHead, IsInForm};
ghost use Rattle.vod_thin_code.specs.Held.{IsHeld};

/// A record's bytes are a frame of a log: its header, its payload, and a closed gate.
pub fn frames_are_records()
    ensures begins { (h : Header) (payload : List ℕ) → begins_header (take 48 (record_bytes h payload)) ≡ true }
    ensures header { (h : Header) (payload : List ℕ) → h.length < 2 ^ 64 → h.before < 2 ^ 64 → h.after < 2 ^ 64 → h.last < 2 ^ 64 → IfSome h.known (λ time. time < 2 ^ 64 - 1) →
        frame_header (record_bytes h payload) ≡ h }
    ensures long { (h : Header) (payload : List ℕ) → length (record_bytes h payload) ≡ 49 + length payload }
    ensures closed { (h : Header) (payload : List ℕ) → slice_index (record_bytes h payload) (48 + length payload) ≡ 0 }
    ensures entry { (at : ℕ) (h : Header) (payload : List ℕ) → h.length ≡ length payload → entry_of at h (record_bytes h payload) ≡ record { entry = record { at = at; header = h }; payload = payload } }
{}

/// The input numbers of an accepted design fit in four bytes.
pub fn inputs_fit()
    ensures { (d : Netlist) → IsAccepted d → length d.inputs < 2 ^ 32 }
{}

/// A batch of at most 64 vectors in form has at most 64 times 12 bytes, and 12 for each input.
pub fn batches_are_short()
    ensures { (d : Netlist) (vs : List Vector) → All (IsInForm d) vs → length vs ≤ 64 → length (batch_bytes vs) ≤ 64 * (12 + 12 * length d.inputs) }
{}

/// A payload is that of one head at most.
pub fn one_head()
    ensures { (payload : List ℕ) (i j : ℕ) (source other : List ℕ) → IsHead payload i source → IsHead payload j other → (i ≡ j) × (source ≡ other) }
{}

/// Bytes begin with one vector at most, and a payload is that of one batch at most.
pub fn one_batch()
    ensures { (d : Netlist) → length d.inputs < 2 ^ 32 → (vs ws : List Vector) → All (IsInForm d) vs → All (IsInForm d) ws → batch_bytes vs ≡ batch_bytes ws → vs ≡ ws }
{}

/// A log holds one list of vectors of a design at most.
pub fn one_log()
    ensures { (d : Netlist) → length d.inputs < 2 ^ 32 → (i j : ℕ) (source other : List ℕ) (vs ws : List Vector) (bytes : List ℕ)
        → IsHeld d source i vs bytes → IsHeld d other j ws bytes → (i ≡ j) × (source ≡ other) × (vs ≡ ws) }
{}
