//! Sized expressions in a flat form that is made once and evaluated often. Its value is the definition *eval* of `vod_design`.
#![tactic(auto)]

mod bits;
mod compile;
mod compiled;
mod exec;
mod flat;
mod operand;
mod ops;
mod quick;
mod step;
mod work;

pub use compiled::Compiled;
pub use step::{Input, Op, Source, Step};
