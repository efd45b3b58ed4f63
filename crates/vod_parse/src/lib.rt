//! The modules of a source, read from its tokens (IEEE 1364-2005, Annex A): which lists of tokens are sources, and with which tree.
#![tactic(auto)]

mod functions;
mod items;
mod laws;
mod modules;
mod processes;
mod source;

pub use laws::sources_are_exact;
pub use source::read_source;
pub use vod_expr::ParseFault;
