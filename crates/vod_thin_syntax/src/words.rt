//! Words and symbols that are spelled in one way.
ghost use Rattle.std.specs.Prelude.{◌≡◌};
ghost use Rattle.std.specs.Str.{bytes_eq};
ghost use Rattle.vod_thin_syntax.specs.Words.{keyword_of, symbol_of, word_of};

/// A word, number or symbol of the thin form that is spelled in one way.
#[derive(Clone, Copy, PartialEq, Eq)]
pub enum Word {
    Module,
    Input,
    Output,
    Wire,
    Reg,
    Assign,
    Always,
    Posedge,
    Endmodule,
    /// `0`
    Zero,
    /// `1`
    One,
    /// `(`
    Open,
    /// `)`
    Close,
    /// `,`
    Comma,
    /// `;`
    Semicolon,
    /// `=`
    Equals,
    /// `&`
    And,
    /// `^`
    Xor,
    /// `|`
    Or,
    /// `~`
    Not,
    /// `@`
    Event,
    /// `<=`
    Nonblocking,
}

/// The word, number or symbol with these bytes; none where they are a name, or no token of the thin form.
pub fn word_of(text: &[u8]) -> Option<Word>
    ensures { result ≡ word_of text.now }
{
    match keyword(text) {
        Some(word) => Some(word),
        None => symbol(text),
    }
}

fn is(text: &[u8], spelling: &[u8]) -> bool
    ensures { result ≡ bytes_eq text.now spelling.now }
{
    text == spelling
}

#[tactic(auto, unfolding(crate::specs::Words::keyword_of))]
fn keyword(text: &[u8]) -> Option<Word>
    ensures { result ≡ keyword_of text.now }
{
    if is(text, b"module") {
        Some(Word::Module)
    } else if is(text, b"input") {
        Some(Word::Input)
    } else if is(text, b"output") {
        Some(Word::Output)
    } else if is(text, b"wire") {
        Some(Word::Wire)
    } else if is(text, b"reg") {
        Some(Word::Reg)
    } else if is(text, b"assign") {
        Some(Word::Assign)
    } else if is(text, b"always") {
        Some(Word::Always)
    } else if is(text, b"posedge") {
        Some(Word::Posedge)
    } else if is(text, b"endmodule") {
        Some(Word::Endmodule)
    } else if is(text, b"0") {
        Some(Word::Zero)
    } else if is(text, b"1") {
        Some(Word::One)
    } else {
        None
    }
}

#[tactic(auto, unfolding(crate::specs::Words::symbol_of))]
fn symbol(text: &[u8]) -> Option<Word>
    ensures { result ≡ symbol_of text.now }
{
    if is(text, b"(") {
        Some(Word::Open)
    } else if is(text, b")") {
        Some(Word::Close)
    } else if is(text, b",") {
        Some(Word::Comma)
    } else if is(text, b";") {
        Some(Word::Semicolon)
    } else if is(text, b"=") {
        Some(Word::Equals)
    } else if is(text, b"&") {
        Some(Word::And)
    } else if is(text, b"^") {
        Some(Word::Xor)
    } else if is(text, b"|") {
        Some(Word::Or)
    } else if is(text, b"~") {
        Some(Word::Not)
    } else if is(text, b"@") {
        Some(Word::Event)
    } else if is(text, b"<=") {
        Some(Word::Nonblocking)
    } else {
        None
    }
}
