//! The sentences of the thin form of sources, with the place of each refusal.
#![tactic(auto)]

mod fault;
mod limit;
mod names;
mod parts;
mod read;
mod reader;
mod scan;
mod syntax;
mod tokens;
mod words;

pub use fault::SyntaxFault;
pub use names::{inputs_are_few, names_are_identifiers};
pub use read::{one_sentence, read_sentence};
pub use syntax::{Direction, Item, Module, Port, Sentence, Span};
pub use tokens::one_cut;
pub use words::{Word, word_of};
