//! A module, by the tokens of its source.
use vod_token::Token;

/// The direction of a port (IEEE 1364-2005, 12.3.3).
#[derive(Clone, Copy, PartialEq, Eq)]
pub enum Direction {
    Input,
    Output,
}

/// `input NAME` or `output NAME`.
#[derive(Clone, Copy)]
pub struct Port {
    pub direction: Direction,
    pub name: Token,
}

/// A range of a list of tokens, from the first on and before the last, by their numbers in the list.
#[derive(Clone, Copy)]
pub struct Span {
    pub from: u32,
    pub to: u32,
}

/// An item of a module. The tokens of a right side are a range of the sentence's.
#[derive(Clone, Copy)]
pub enum Item {
    /// `wire NAME;` (4.2)
    Wire {
        name: Token,
    },
    /// `reg NAME = 0;` or `reg NAME = 1;` (4.2.2, 6.2.1)
    Register {
        name: Token,
        initial: bool,
    },
    /// `assign TARGET = VALUE;` (6.1)
    Assign {
        target: Token,
        value: Span,
    },
    /// `always @(posedge CLOCK) REGISTER <= VALUE;` (9.2.2, 9.7.2)
    Always {
        clock: Token,
        register: Token,
        value: Span,
    },
}

/// A module: its name, its ports, of which there is one at least, and its items (12.1).
#[derive(Drop)]
pub struct Module {
    pub name: Token,
    pub ports: Vec<Port>,
    pub items: Vec<Item>,
}

/// The tokens of a source, the module that they are, and the first place past a limit, if there is one: a name of more
/// than 1,024 bytes, a 257th input, output, wire or register, or the nesting 65.
#[derive(Drop)]
pub struct Sentence {
    pub tokens: Vec<Token>,
    pub module: Module,
    pub limit: Option<u32>,
}
