//! What holds of the writes of cells.
ghost use Rattle.std.specs.Prelude.{◌≡◌, List};
ghost use Rattle.vod_design.specs.declared.statement.Statement.{Statement};
ghost use Rattle.vod_design.specs.Netlist.{Netlist};
ghost use Rattle.vod_slot.specs.State.{State, start_of};
ghost use Rattle.vod_slot.specs.Step.{put_all};
ghost use Rattle.vod_slot.specs.Store.{Write};
ghost use Rattle.vod_cells.specs.Stored.{Stored, put_all_in, state_with, stored_first};

/// Writes that are made to cells are those that are made in the state of the event queue, where a block to which an edge came has its
/// body to run unless it has begun it; and at the start both are the same.
pub fn writes_are_events()
    ensures put { (d : Netlist) (writes : List Write) (s : Stored) (bodies : List (List Statement)) (st : State) → put_all d writes (state_with d s bodies st) ≡ state_with d (put_all_in d writes s) bodies st }
    ensures start { (d : Netlist) → state_with d (stored_first d) (start_of d).todo (start_of d) ≡ start_of d }
{}
