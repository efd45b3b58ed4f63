//! The limits on modules and instances.

/// What is limited in a source as a whole.
#[derive(Clone, Copy, PartialEq, Eq)]
pub enum Limit {
    /// 256 modules.
    Modules,
    /// 4,096 instances, the top counted.
    Instances,
    /// 16,384 nets and registers of all instances.
    Signals,
    /// 1,024 inputs of the top.
    Inputs,
    /// 16,777,216 tokens of all instances.
    Tokens,
}
