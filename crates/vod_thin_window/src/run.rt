//! A run of the event queue, slot by slot.
ghost use Rattle.std.specs.Prelude.{◌≡◌, ◌∷◌, [], List, IfOk};
ghost use Rattle.vod_thin_design.specs.declared.thin.Vector.{Vector};
ghost use Rattle.vod_thin_design.specs.Netlist.{IsAccepted};
ghost use Rattle.vod_thin_design.specs.Vectors.{IsLawful};
ghost use Rattle.vod_thin_queue.specs.State.{State, start_of};
ghost use Rattle.vod_thin_queue.specs.Run.{Completes, IsSlot};
ghost use Rattle.vod_thin_window.specs.Progress.{Awaits};

use std::alloc::Global;
use vod_thin_design::{Design, Vector};
use vod_thin_queue::{Memory, Queue, inputs_take_moves, orders_agree};

/// Takes events until nothing is left.
fn settle(queue: &mut Queue<'_>)
    ensures design { queue.new.design ≡ queue.old.design }
    ensures completes { Completes queue.old.design queue.old.state queue.new.state }
{
    while queue.choices() > 0 {
        queue.step(0);
    }
}

/// The queue of a design at the end of slot 0.
pub fn started(alloc: Global, design: &Design) -> Result<Queue<'_>, Memory>
    ensures design { IfOk result (λ queue. queue.design ≡ design.now) }
    ensures awaits { IfOk result (λ queue. (vectors : List Vector) → IsLawful design.now vectors → Awaits design.now queue.state vectors) }
    ensures accepted { IfOk result (λ _. IsAccepted design.now) }
    ensures completes { IfOk result (λ queue. Completes design.now (start_of design.now) queue.state) }
    ensures only { IfOk result (λ queue. (t : State) → Completes design.now (start_of design.now) t → t ≡ queue.state) }
{
    let mut queue = Queue::start(alloc, design)?;
    settle(&mut queue);
    // Laws, which do nothing when they run: every other order of events would have ended here too,
    // and the inputs have what the vectors so far, none, gave them.
    orders_agree();
    inputs_take_moves();
    Ok(queue)
}

/// Runs the slot of a vector.
pub fn run_slot(queue: &mut Queue<'_>, vector: &Vector)
    requires { Awaits queue.old.design queue.old.state (vector.now ∷ []) }
    ensures design { queue.new.design ≡ queue.old.design }
    ensures awaits { (rest : List Vector) → Awaits queue.old.design queue.old.state (vector.now ∷ rest) → Awaits queue.old.design queue.new.state rest }
    ensures slot { IsSlot queue.old.design queue.old.state vector.now.moves queue.new.state }
    ensures only { (t : State) → IsSlot queue.old.design queue.old.state vector.now.moves t → t ≡ queue.new.state }
{
    queue.open_slot(vector.moves.as_slice());
    settle(queue);
    // Laws, which do nothing when they run: every other order of events would have ended here too,
    // and the inputs have what this vector gave them, so that the next one is unmixed by them.
    orders_agree();
    inputs_take_moves();
}
