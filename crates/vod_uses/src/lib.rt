//! Whether the names that a source uses are declared before, and as what they are used for (IEEE 1364-2005, clauses 4, 5, 9, 10
//! and 12.7).
#![tactic(auto)]

mod declaration;
mod expr;
mod function;
mod functions;
mod initial;
mod instance;
mod items;
mod left;
mod registers;
mod scope;
mod source;
mod statement;

pub use expr::{first_misuse, first_misuse_of};
pub use functions::Functions;
pub use left::{first_left_misuse, first_left_misuse_of};
pub use scope::{Scope, Usage, misused};
pub use source::first_use_fault;
