//! The faults of the layers, as faults of the program.
ghost use Rattle.std.specs.Prelude.{◌≡◌};
ghost use Rattle.vod_program.specs.Phases.{window_fault, replay_fault, store_fault, log_fault, append_fault};

use crate::status::{Fault, Part};
use vod_log::LogFault;
use vod_thin_replay::ReplayFault;
use vod_thin_store::StoreFault;
use vod_thin_window::WindowFault;

/// A window that isn't written whole.
pub fn window_fault(fault: WindowFault) -> Fault
    ensures { result ≡ window_fault fault }
{
    match fault {
        WindowFault::Write => Fault::Write,
        WindowFault::Memory => Fault::Memory,
    }
}

/// A log whose records aren't read.
pub fn replay_fault(fault: ReplayFault) -> Fault
    ensures { result ≡ replay_fault fault }
{
    match fault {
        ReplayFault::Deck => Fault::Deck,
        ReplayFault::Damaged(at) => Fault::Damaged(at),
        ReplayFault::Memory => Fault::Memory,
    }
}

/// Vectors that aren't recorded whole.
pub fn store_fault(fault: StoreFault) -> Fault
    ensures { result ≡ store_fault fault }
{
    match fault {
        StoreFault::Deck => Fault::Deck,
        StoreFault::NotEmpty => Fault::NotYet(Part::Log, 0),
        StoreFault::Memory => Fault::Memory,
    }
}

/// A log that isn't opened.
pub fn log_fault(fault: LogFault) -> Fault
    ensures { result ≡ log_fault fault }
{
    match fault {
        LogFault::Deck => Fault::Deck,
        LogFault::NotALog(at) => Fault::NotALog(at),
        LogFault::Memory => Fault::Memory,
    }
}

/// A file of at most one byte that isn't opened to append.
pub fn append_fault(fault: LogFault) -> Fault
    ensures { result ≡ append_fault fault }
{
    match fault {
        LogFault::Deck => Fault::Deck,
        LogFault::NotALog(at) => Fault::NotYet(Part::Log, at),
        LogFault::Memory => Fault::Memory,
    }
}
