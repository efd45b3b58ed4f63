//! The marks and operators of expressions.

ghost use Rattle.std.specs.Prelude.{◌≡◌, ◌∷◌, []};
ghost use Rattle.vod_expr_machine.specs.Machine.{mark_of, unary_of, binary_of};

use vod_tree::{BinaryOp, UnaryOp};

/// What a symbol of an expression is, where it is no operator.
#[derive(Clone, Copy, PartialEq, Eq)]
pub enum Mark {
    /// `(`
    OpenParen,
    /// `)`
    CloseParen,
    /// `[`
    OpenBracket,
    /// `]`
    CloseBracket,
    /// `{`
    OpenBrace,
    /// `}`
    CloseBrace,
    /// `,`
    Comma,
    /// `:`
    Colon,
    /// `?`
    Question,
}

// The mark that a text is.
#[tactic(auto, unfolding(crate::specs::Machine::mark_of))]
pub(crate) fn mark_of(text: &[u8]) -> Option<Mark>
    ensures { result ≡ mark_of text.now }
{
    match text {
        [a] => mark_of_one(*a),
        _ => None,
    }
}

#[tactic(auto, unfolding(crate::specs::Machine::mark_of))]
fn mark_of_one(a: u8) -> Option<Mark>
    ensures { result ≡ mark_of (a ∷ []) }
{
    match a {
        b'(' => Some(Mark::OpenParen),
        b')' => Some(Mark::CloseParen),
        b'[' => Some(Mark::OpenBracket),
        b']' => Some(Mark::CloseBracket),
        b'{' => Some(Mark::OpenBrace),
        b'}' => Some(Mark::CloseBrace),
        b',' => Some(Mark::Comma),
        b':' => Some(Mark::Colon),
        b'?' => Some(Mark::Question),
        _ => None,
    }
}

// The operator before a primary that a text is.
#[tactic(auto, unfolding(crate::specs::Machine::unary_of))]
pub(crate) fn unary_of(text: &[u8]) -> Option<UnaryOp>
    ensures { result ≡ unary_of text.now }
{
    match text {
        [a] => unary_of_one(*a),
        [a, b] => unary_of_two(*a, *b),
        _ => None,
    }
}

#[tactic(auto, unfolding(crate::specs::Machine::unary_of))]
fn unary_of_one(a: u8) -> Option<UnaryOp>
    ensures { result ≡ unary_of (a ∷ []) }
{
    match a {
        b'-' => Some(UnaryOp::Minus),
        b'!' => Some(UnaryOp::LogicalNot),
        b'~' => Some(UnaryOp::Not),
        b'&' => Some(UnaryOp::And),
        b'|' => Some(UnaryOp::Or),
        b'^' => Some(UnaryOp::Xor),
        _ => None,
    }
}

#[tactic(auto, unfolding(crate::specs::Machine::unary_of))]
fn unary_of_two(a: u8, b: u8) -> Option<UnaryOp>
    ensures { result ≡ unary_of (a ∷ b ∷ []) }
{
    match (a, b) {
        (b'~', b'&') => Some(UnaryOp::Nand),
        (b'~', b'|') => Some(UnaryOp::Nor),
        (b'~', b'^') => Some(UnaryOp::Xnor),
        (b'^', b'~') => Some(UnaryOp::XorNot),
        _ => None,
    }
}

// The operator between two operands that a text is.
#[tactic(auto, unfolding(crate::specs::Machine::binary_of, crate::specs::Machine::arithmetic_of, crate::specs::Machine::comparison_of, crate::specs::Machine::connective_of))]
pub(crate) fn binary_of(text: &[u8]) -> Option<BinaryOp>
    ensures { result ≡ binary_of text.now }
{
    match text {
        [a] => binary_of_one(*a),
        [a, b] => binary_of_two(*a, *b),
        [a, b, c] => binary_of_three(*a, *b, *c),
        _ => None,
    }
}

#[tactic(auto, unfolding(crate::specs::Machine::binary_of, crate::specs::Machine::arithmetic_of, crate::specs::Machine::comparison_of, crate::specs::Machine::connective_of))]
fn binary_of_one(a: u8) -> Option<BinaryOp>
    ensures { result ≡ binary_of (a ∷ []) }
{
    match a {
        b'*' => Some(BinaryOp::Mul),
        b'+' => Some(BinaryOp::Add),
        b'-' => Some(BinaryOp::Sub),
        b'<' => Some(BinaryOp::Less),
        b'>' => Some(BinaryOp::Greater),
        b'&' => Some(BinaryOp::And),
        b'^' => Some(BinaryOp::Xor),
        b'|' => Some(BinaryOp::Or),
        _ => None,
    }
}

#[tactic(auto, unfolding(crate::specs::Machine::binary_of, crate::specs::Machine::arithmetic_of, crate::specs::Machine::comparison_of, crate::specs::Machine::connective_of))]
fn binary_of_two(a: u8, b: u8) -> Option<BinaryOp>
    ensures { result ≡ binary_of (a ∷ b ∷ []) }
{
    match (a, b) {
        (b'<', b'<') => Some(BinaryOp::ShiftLeft),
        (b'>', b'>') => Some(BinaryOp::ShiftRight),
        (b'<', b'=') => Some(BinaryOp::LessEqual),
        (b'>', b'=') => Some(BinaryOp::GreaterEqual),
        (b'=', b'=') => Some(BinaryOp::Equal),
        (b'!', b'=') => Some(BinaryOp::NotEqual),
        (b'~', b'^') => Some(BinaryOp::Xnor),
        (b'^', b'~') => Some(BinaryOp::XorNot),
        (b'&', b'&') => Some(BinaryOp::LogicalAnd),
        (b'|', b'|') => Some(BinaryOp::LogicalOr),
        _ => None,
    }
}

#[tactic(auto, unfolding(crate::specs::Machine::binary_of, crate::specs::Machine::arithmetic_of, crate::specs::Machine::comparison_of, crate::specs::Machine::connective_of))]
fn binary_of_three(a: u8, b: u8, c: u8) -> Option<BinaryOp>
    ensures { result ≡ binary_of (a ∷ b ∷ c ∷ []) }
{
    match (a, b, c) {
        (b'<', b'<', b'<') => Some(BinaryOp::ArithmeticLeft),
        (b'>', b'>', b'>') => Some(BinaryOp::ArithmeticRight),
        (b'=', b'=', b'=') => Some(BinaryOp::CaseEqual),
        (b'!', b'=', b'=') => Some(BinaryOp::CaseNotEqual),
        _ => None,
    }
}
