//! The events of the queue.

/// An event (IEEE 1364-2005, 11.4), with the number of its input, driver, block or initial item.
#[derive(Clone, Copy, PartialEq, Eq)]
pub enum Event {
    /// An input takes the value of its move.
    TakeMove(u32),
    /// A driver is evaluated.
    Evaluate(u32),
    /// A driver's target takes its pending value.
    Update(u32),
    /// A block runs its next statement.
    Run(u32),
    /// An initial item makes its next assignment.
    Initialize(u32),
    /// All nonblocking assign updates become active.
    Activate,
    /// A block's first active nonblocking assign update is performed.
    Perform(u32),
}
