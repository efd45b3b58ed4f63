//! The parameters, ports and declarations of a source, read from its tokens (IEEE 1364-2005, clauses 4, 10 and 12).
#![tactic(auto)]

mod functions;
mod further;
mod headers;
mod items;
mod laws;
mod lists;
mod parameters;
mod ranges;

pub use functions::{function_declarations, function_inputs};
pub use further::{Part, declared_by};
pub use headers::ports;
pub use items::{declaration, is_declaration};
pub use laws::{
    declarations_are_exact, function_headers_are_exact, parameters_are_exact, ports_are_exact,
    ranges_are_exact,
};
pub use parameters::parameter_ports;
pub use ranges::range;
