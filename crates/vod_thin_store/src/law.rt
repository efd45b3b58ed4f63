//! What the record clause means for acknowledgements.
ghost use Rattle.std.specs.Prelude.{◌≡◌, ℕ, ◌≤◌, List};
ghost use Rattle.vod_deck.specs.Outcomes.{Outcome};
ghost use Rattle.vod_thin_design.specs.declared.thin.Vector.{Vector};
ghost use Rattle.vod_thin_design.specs.Netlist.{Netlist};
ghost use Rattle.vod_thin_code.specs.Held.{Acknowledges};
ghost use Rattle.vod_thin_store.specs.Stored.{HoldsFirst};

/// Where nothing was acknowledged before, an outcome that holds the first k vectors acknowledges at most k.
pub fn said_is_held()
    ensures { (d : Netlist) (source : List ℕ) (vs : List Vector) (e c : Outcome) (k : ℕ) → HoldsFirst d source vs e c k → ((n : ℕ) → Acknowledges e.said n → n ≡ 0)
        → (n : ℕ) → Acknowledges c.said n → n ≤ k }
{}
