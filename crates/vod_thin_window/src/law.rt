//! A law of windows.
ghost use Rattle.std.specs.Prelude.{ℕ, ◌≤◌, ◌++◌, List, Option};
ghost use Rattle.vod_thin_design.specs.declared.thin.Vector.{Vector};
ghost use Rattle.vod_thin_design.specs.Netlist.{IsAccepted};
ghost use Rattle.vod_thin_design.specs.Vectors.{IsLawful};
ghost use Rattle.vod_thin_window.specs.Progress.{IsOver};
ghost use Rattle.vod_thin_window.specs.Request.{Request, window_of, behind, IsWritten, IsBegun};

use vod_thin_queue::orders_end;

/// Vectors past the end of a window change nothing of it.
pub fn window_of_front()
    ensures written { (r : Request) (more : List Vector) (from to : ℕ) (before after : Option (List ℕ)) →
        IsAccepted r.design → IsLawful r.design (r.vectors ++ more) → IsOver more to → from ≤ to →
        IsWritten r (window_of r from to) before after → IsWritten (behind r more) (window_of (behind r more) from to) before after }
    ensures begun { (r : Request) (more : List Vector) (from to : ℕ) (before after : Option (List ℕ)) →
        IsAccepted r.design → IsLawful r.design (r.vectors ++ more) → IsOver more to → from ≤ to →
        IsBegun r (window_of r from to) before after → IsBegun (behind r more) (window_of (behind r more) from to) before after }
{
    // A law of the queue: a front of a run goes on, so that each list of vectors has a run.
    orders_end();
}
