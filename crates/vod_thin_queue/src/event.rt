//! The events of the queue.

/// An event (IEEE 1364-2005, 11.4), with the number of its input, driver, block or initial value.
#[derive(Clone, Copy, PartialEq, Eq)]
pub enum Event {
    /// An input takes the value of its move.
    TakeMove(u32),
    /// A driver is evaluated.
    Evaluate(u32),
    /// A driver's target takes its pending value.
    Update(u32),
    /// A block runs its statement.
    Run(u32),
    /// A register takes its initial value.
    Initialize(u32),
    /// All nonblocking updates become active.
    Activate,
    /// A block's register takes its first active update.
    Perform(u32),
}
