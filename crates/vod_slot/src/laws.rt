//! What holds of the queue in every order of its events.
ghost use Rattle.std.specs.Prelude.{◌≡◌, ◌⊎◌, ◌<◌, ◌≤◌, ◌+◌, ◌*◌, ℕ, List, [], ◌∷◌, ◌++◌, IsTrue, length, true, Some, slice_get, unwrap_or};
ghost use Rattle.vod_bits.specs.Bit.{Bit, BX, BZ};
ghost use Rattle.vod_design.specs.declared.parts.Block.{Block};
ghost use Rattle.vod_design.specs.declared.parts.Driver.{Driver};
ghost use Rattle.vod_design.specs.declared.parts.Input.{Input};
ghost use Rattle.vod_design.specs.declared.vector.Class.{Class};
ghost use Rattle.vod_design.specs.declared.vector.Move.{Move};
ghost use Rattle.vod_design.specs.declared.vector.Vector.{Vector};
ghost use Rattle.vod_design.specs.Accepted.{IsAccepted};
ghost use Rattle.vod_design.specs.Lawful.{assigned, IsInForm, IsUnmixed, IsLawful};
ghost use Rattle.vod_design.specs.Netlist.{Netlist, ports};
ghost use Rattle.vod_design.specs.Values.{value_at};
ghost use Rattle.vod_slot.specs.Store.{Write, brought, list_at};
ghost use Rattle.vod_slot.specs.State.{State, flag_at, start_of, opened, IsResting};
ghost use Rattle.vod_slot.specs.Step.{Event, is_allowed, after, put_all};
ghost use Rattle.vod_slot.specs.Run.{Steps, Completes, IsSlot, IsRun, ChangesData};
ghost use Rattle.vod_slot.specs.Classes.{ChangesClass, HaveGiven};
ghost use Rattle.vod_slot.specs.Edges.{edge_bit, AreEdgesKept, DoMovesFit};
ghost use Rattle.vod_slot.specs.Room.{updates_room, statement_most, nets_of, IsRoomKept};
ghost use Rattle.vod_slot.specs.Stack.{statements_most, IsStackKept};
ghost use Rattle.vod_slot.specs.Settled.{AgreeFirst, IsConsistent, IsSettled};
ghost use Rattle.vod_slot.specs.Known.{AreKnown, HasKnownConstants, AreStatesKnown, DataKnown, KnownOrZ};
ghost use Rattle.vod_slot.specs.Weight.{weight_of};
ghost use Rattle.vod_design.specs.Nets.{IsEdgeNet};

use vod_design::value_hangs_on_reads;

/// Whatever is written, each driver then awaits evaluation or brings what it brought before.
pub fn changes_wake_readers()
    ensures { (d : Netlist) (writes : List Write) (st : State) (j : ℕ) (a : Driver) → slice_get d.drivers j ≡ Some a → j < length st.wake → (flag_at (put_all d writes st).wake j ≡ true) ⊎ (brought d (put_all d writes st).store a ≡ brought d st.store a) }
{
    // What a driver brings hangs on what it reads: a law, which does nothing when it runs.
    value_hangs_on_reads();
}

/// At every moment of a run each driver awaits evaluation, or what it brings is its pending value, or its target has that; and what is
/// left of blocks and initial items writes registers and memory words alone. So where nothing is left, each driver's target has its
/// right side's value.
pub fn drivers_are_followed()
    ensures start { (d : Netlist) (ranked : List ℕ) → IsAccepted d ranked → IsConsistent d (start_of d) }
    ensures opened { (d : Netlist) (s : State) (moves : List Move) → IsConsistent d s → IsConsistent d (opened d moves s) }
    ensures after { (d : Netlist) (ranked : List ℕ) (s : State) (event : Event) → IsAccepted d ranked → IsConsistent d s → IsTrue (is_allowed s event) → IsConsistent d (after d s event) }
    ensures settled { (d : Netlist) (s : State) → IsConsistent d s → IsResting s → IsSettled d s.store }
{
    value_hangs_on_reads();
}

/// Every order of events ends: what is left weighs less after each event. From each moment of a run its slot can be completed, and in
/// every end of it each driver's target has its right side's value; so each list of vectors has a legal run.
pub fn every_order_ends()
    ensures falls { (d : Netlist) (ranked : List ℕ) (s : State) (event : Event) → IsAccepted d ranked → IsConsistent d s → IsTrue (is_allowed s event) → weight_of d ranked (after d s event) < weight_of d ranked s }
    ensures order_ends { (d : Netlist) (ranked : List ℕ) (s t : State) (events : List Event) → IsAccepted d ranked → IsConsistent d s → Steps d s events t → length events + weight_of d ranked t ≤ weight_of d ranked s }
    ensures slot_exists { (d : Netlist) (ranked : List ℕ) (s : State) → IsAccepted d ranked → IsConsistent d s → (t : State) × Completes d s t }
    ensures settled { (d : Netlist) (ranked : List ℕ) (s t : State) → IsAccepted d ranked → IsConsistent d s → Completes d s t → IsConsistent d t × IsSettled d t.store }
    ensures run_exists { (d : Netlist) (ranked : List ℕ) (vectors : List Vector) → IsAccepted d ranked → (first : State) × (ends : List State) × IsRun d vectors first ends }
{
    value_hangs_on_reads();
}

/// Where nothing is left, registers, memory words and inputs decide all else: two states with the same of these are one.
pub fn registers_decide_nets()
    ensures { (d : Netlist) (ranked : List ℕ) (s t : State) → IsAccepted d ranked → IsConsistent d s → IsConsistent d t → IsResting s → IsResting t → AgreeFirst d s.store t.store → s ≡ t }
{
    value_hangs_on_reads();
}

/// In each slot an edge net has its opening value or the one that its input brings, and so changes at most once: in slot 0 from x to z,
/// and later from what it had as the slot opened. Every event keeps this.
pub fn edge_nets_change_once()
    ensures start { (d : Netlist) (ranked : List ℕ) → IsAccepted d ranked → AreEdgesKept d (λ n. BX) (λ n. BZ) (start_of d) }
    ensures opened { (d : Netlist) (ranked : List ℕ) (s : State) (moves : List Move) → IsAccepted d ranked → IsConsistent d s → IsResting s → DoMovesFit d moves → (brought : ℕ → Bit) × AreEdgesKept d (edge_bit s.store) brought (opened d moves s) }
    ensures after { (d : Netlist) (ranked : List ℕ) (opening brought : ℕ → Bit) (s : State) (event : Event) → IsAccepted d ranked → IsConsistent d s → AreEdgesKept d opening brought s → IsTrue (is_allowed s event) → AreEdgesKept d opening brought (after d s event) }
{
    value_hangs_on_reads();
}

/// At every moment of a slot the updates of a block, and those that it can still leave, take at most the room of what its body can leave
/// for each of the nets that it waits for: none of these has two edges.
pub fn updates_have_room()
    ensures start { (d : Netlist) (opening : ℕ → Bit) → IsRoomKept d opening (start_of d) }
    ensures opened { (d : Netlist) (opening : ℕ → Bit) (s : State) (moves : List Move) → IsResting s → IsRoomKept d opening (opened d moves s) }
    ensures after { (d : Netlist) (ranked : List ℕ) (opening brought : ℕ → Bit) (s : State) (event : Event) → IsAccepted d ranked → IsConsistent d s → AreEdgesKept d opening brought s → IsTrue (is_allowed s event) → IsRoomKept d opening s → IsRoomKept d opening (after d s event) }
    ensures suffices { (d : Netlist) (opening : ℕ → Bit) (s : State) (k : ℕ) (b : Block) → slice_get d.blocks k ≡ Some b → IsRoomKept d opening s → updates_room (list_at s.later k) + updates_room (list_at s.now k) ≤ statement_most b.body * length (nets_of b) }
{}

/// At every moment of a run the statements of a block that are left at once number at most the most that its body can leave.
pub fn statements_have_room()
    ensures start { (d : Netlist) → IsStackKept d (start_of d) }
    ensures opened { (d : Netlist) (s : State) (moves : List Move) → IsResting s → IsStackKept d (opened d moves s) }
    ensures after { (d : Netlist) (s : State) (event : Event) → IsStackKept d s → IsStackKept d (after d s event) }
    ensures suffices { (d : Netlist) (s : State) (k : ℕ) (b : Block) → slice_get d.blocks k ≡ Some b → IsStackKept d s → length (list_at s.todo k) ≤ statements_most b.body }
{}

/// Whatever order of events was taken, slot 0 ends in one state.
pub fn first_slots_end_alike()
    ensures { (d : Netlist) (ranked : List ℕ) (t u : State) → IsAccepted d ranked → Completes d (start_of d) t → Completes d (start_of d) u → t ≡ u }
{
    value_hangs_on_reads();
}

/// Whatever order of events was taken, a slot that changes data alone ends in one state.
pub fn data_slots_end_alike()
    ensures { (d : Netlist) (ranked : List ℕ) (s t u : State) (moves : List Move) → IsAccepted d ranked → IsConsistent d s → DoMovesFit d moves → ChangesData d s moves → IsSlot d s moves t → IsSlot d s moves u → t ≡ u }
{
    value_hangs_on_reads();
}

/// Whatever order of events was taken, a slot that changes clocks alone, resets alone or data alone ends in one state.
pub fn slots_end_alike()
    ensures { (d : Netlist) (ranked : List ℕ) (s t u : State) (moves : List Move) (class : Class) → IsAccepted d ranked → IsConsistent d s → DoMovesFit d moves → ChangesClass d s moves class → IsSlot d s moves t → IsSlot d s moves u → t ≡ u }
{
    value_hangs_on_reads();
}

/// After a slot each input has what it was assigned, and one that wasn't has what it had.
pub fn inputs_take_moves()
    ensures { (d : Netlist) (ranked : List ℕ) (s t : State) (moves : List Move) (i : ℕ) (x : Input) → IsAccepted d ranked → IsConsistent d s → DoMovesFit d moves → IsSlot d s moves t → slice_get d.inputs i ≡ Some x → value_at BX t.store.signals x.signal ≡ unwrap_or (assigned moves i) (value_at BX s.store.signals x.signal) }
{
    value_hangs_on_reads();
}

/// After slot 0 each input is z, and after each slot it has what the vectors so far gave it last. So the assignments of a lawful vector
/// change clocks alone, resets alone or data alone.
pub fn inputs_have_given()
    ensures first { (d : Netlist) (ranked : List ℕ) (t : State) → IsAccepted d ranked → Completes d (start_of d) t → HaveGiven d [] t }
    ensures next { (d : Netlist) (ranked : List ℕ) (before : List Vector) (v : Vector) (s t : State) → IsAccepted d ranked → IsConsistent d s → IsInForm (ports d) v → HaveGiven d before s → IsSlot d s v.moves t → HaveGiven d (before ++ v ∷ []) t }
    ensures fits { (d : Netlist) (v : Vector) → IsInForm (ports d) v → DoMovesFit d v.moves }
    ensures unmixed { (d : Netlist) (before : List Vector) (v : Vector) (s : State) → HaveGiven d before s → IsUnmixed (ports d) before v → (class : Class) × ChangesClass d s v.moves class }
{
    value_hangs_on_reads();
}

/// Whatever order of events was taken, the slot of a lawful vector ends in one state; so all legal runs of the same lawful vectors have
/// the same ends.
pub fn orders_agree()
    ensures one_end { (d : Netlist) (ranked : List ℕ) (before : List Vector) (v : Vector) (s t u : State) → IsAccepted d ranked → IsConsistent d s → HaveGiven d before s → IsInForm (ports d) v → IsUnmixed (ports d) before v → IsSlot d s v.moves t → IsSlot d s v.moves u → t ≡ u }
    ensures one_run { (d : Netlist) (ranked : List ℕ) (vectors : List Vector) (first again : State) (ends others : List State) → IsAccepted d ranked → IsLawful (ports d) vectors → IsRun d vectors first ends → IsRun d vectors again others → (first ≡ again) × (ends ≡ others) }
{
    value_hangs_on_reads();
}

/// Where nothing is left to do, registers, memory words and data inputs are known and the other inputs are known or not given yet, each
/// signal is known, or is an edge net that is z. That a design's numbers, parameters and initial values are known, and that its indices
/// have bits, is asked of it.
pub fn settled_signals_are_known()
    ensures { (d : Netlist) (ranked : List ℕ) → IsAccepted d ranked → HasKnownConstants d → (s : State) → IsConsistent d s → IsSettled d s.store → AreStatesKnown d s.store → DataKnown d s.store → KnownOrZ d s.store → (n : ℕ) → n < length d.signals →
        AreKnown (value_at BX s.store.signals n) ⊎ (IsEdgeNet d n × (value_at BX s.store.signals n ≡ BZ ∷ [])) }
{
    value_hangs_on_reads();
}
