//! Where statements stand.

/// Where a statement stands: what it assigns by, and how.
#[derive(Clone, Copy, PartialEq, Eq)]
pub enum Context {
    /// In an `always`: assignments are nonblocking, by `<=`.
    Always,
    /// In a function: assignments are blocking, by `=`.
    Function,
}
