//! Decks: a file beside a stream of said text on one clock, and what a crash at any moment may leave
//! of them.
#![tactic(auto)]

mod deck;
mod in_memory;
mod system;

pub use deck::Deck;
pub use in_memory::{MemDeck, Outcome, Room};
pub use system::FileDeck;
