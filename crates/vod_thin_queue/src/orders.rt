//! Every order of events: all of them end, and in one state (IEEE 1364-2005, 11.4.2).
ghost use Rattle.std.specs.Prelude.{◌≡◌, ◌+◌, ◌<◌, ◌≤◌, ◌++◌, [], All, List, length, IsTrue};
ghost use Rattle.vod_thin_design.specs.declared.thin.Move.{Move};
ghost use Rattle.vod_thin_design.specs.declared.thin.Vector.{Vector};
ghost use Rattle.vod_thin_design.specs.Netlist.{Netlist, IsAccepted};
ghost use Rattle.vod_thin_design.specs.Vectors.{assigned, is_unmixed, IsVector, IsLawful};
ghost use Rattle.vod_thin_queue.specs.State.{State, start_of, IsShaped, IsResting};
ghost use Rattle.vod_thin_queue.specs.Step.{Event};
ghost use Rattle.vod_thin_queue.specs.Run.{Steps, Completes, IsSlot, IsRun, IsSettled, is_unmixed_from, HasTaken};
ghost use Rattle.vod_thin_queue.specs.Weight.{weight_of};

use vod_thin_design::value_hangs_on_reads;

/// Whatever order of events was taken, slot 0, and a slot from one settled state whose changes are
/// all of clocks or all of data, end in one state, which is settled too; so all legal runs of the
/// same lawful vectors have the same ends.
pub fn orders_agree()
    ensures first_end { (d : Netlist) (t u : State) → IsAccepted d → Completes d (start_of d) t → Completes d (start_of d) u → t ≡ u }
    ensures first_settled { (d : Netlist) (t : State) → IsAccepted d → Completes d (start_of d) t → IsShaped d t × IsSettled d t }
    ensures one_end { (d : Netlist) (s t u : State) (moves : List Move) → IsAccepted d → IsShaped d s → IsSettled d s → IsTrue (is_unmixed_from d s moves) → IsSlot d s moves t → IsSlot d s moves u → t ≡ u }
    ensures settled { (d : Netlist) (s t : State) (moves : List Move) → IsAccepted d → IsShaped d s → IsSettled d s → IsTrue (is_unmixed_from d s moves) → IsSlot d s moves t → IsShaped d t × IsSettled d t }
    ensures one_run { (d : Netlist) (vectors : List Vector) (first again : State) (ends others : List State) → IsAccepted d → IsLawful d vectors → IsRun d vectors first ends → IsRun d vectors again others → (first ≡ again) × (ends ≡ others) }
{
    // A driver none of whose signals changes keeps the value of its right side: a law, which does nothing when it runs.
    value_hangs_on_reads();
}

/// Every order of events ends, after at most as many events as what is left weighs; so a slot can
/// be completed from each state where nothing is left, and each list of vectors has a legal run.
pub fn orders_end()
    ensures order_ends { (d : Netlist) (s t : State) (events : List Event) → IsAccepted d → IsShaped d s → Steps d s events t → length events + weight_of t ≤ weight_of s }
    ensures slot_exists { (d : Netlist) (s : State) (moves : List Move) → IsAccepted d → IsShaped d s → IsResting s → (t : State) × IsSlot d s moves t }
    ensures run_exists { (d : Netlist) (vectors : List Vector) → IsAccepted d → (first : State) × (ends : List State) × IsRun d vectors first ends }
{}

/// After each slot the inputs have what the vectors so far gave them; so vectors that are unmixed
/// by what earlier ones assigned are unmixed by what the inputs have.
pub fn inputs_take_moves()
    ensures first { (d : Netlist) (s : State) → HasTaken d [] s }
    ensures next { (d : Netlist) (s t : State) (before : List Move) (vector : Vector) → IsAccepted d → IsShaped d s → HasTaken d before s → IsVector d vector → IsSlot d s vector.moves t → HasTaken d (before ++ vector.moves) t }
    ensures unmixed { (d : Netlist) (s : State) (before moves : List Move) → All (λ i. i < length d.inputs) (assigned moves) → HasTaken d before s → IsTrue (is_unmixed d before moves) → IsTrue (is_unmixed_from d s moves) }
{}
