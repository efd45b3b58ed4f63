//! The parts of which the grammar of sources is made: words, names, numbers and expressions, and how phrases are put together.
#![tactic(auto)]

mod laws;
mod phrase;
mod reader;
mod word;

pub use laws::{lists_are_exact, phrases_are_exact};
pub use phrase::{Phrase, expressions, names, only, separated};
pub use reader::Reader;
pub use word::Word;
