//! What an expression can read.

/// What an expression can read of signals and memories, by their numbers. An index that isn't constant reads all.
#[derive(Clone, Copy, PartialEq, Eq)]
pub enum Read {
    /// The whole value of a signal.
    Whole(u32),
    /// Bits of a signal: the lower place, and how many.
    Bits(u32, u8, u8),
    /// A word of a memory, by its place from the least index up.
    Word(u32, u16),
    /// Any word of a memory.
    Ram(u32),
}
