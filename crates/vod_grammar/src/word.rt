//! Words and symbols that are spelled in one way.
ghost use Rattle.std.specs.Prelude.{◌≡◌, ◌&&◌, ◌==◌};
ghost use Rattle.std.specs.Str.{bytes_eq};
ghost use Rattle.vod_grammar.specs.Words.{is_symbol, kind_of, same_kind, spelling, is_text_of};

use vod_token::{TokenKind, spellings};

/// A reserved word or a symbol of the grammar of sources (IEEE 1364-2005, Annex A).
#[derive(Clone, Copy, PartialEq, Eq)]
pub enum Word {
    Always,
    And,
    Assign,
    Automatic,
    Begin,
    Buf,
    Case,
    Default,
    Else,
    End,
    Endcase,
    Endfunction,
    Endmodule,
    For,
    Function,
    If,
    Initial,
    Input,
    Integer,
    Localparam,
    Module,
    Nand,
    Negedge,
    Nor,
    Not,
    Or,
    Output,
    Parameter,
    Posedge,
    Reg,
    Signed,
    Wire,
    Xnor,
    Xor,
    /// `#`
    Hash,
    /// `@`
    EventControl,
    /// `(`
    OpenParen,
    /// `)`
    CloseParen,
    /// `[`
    OpenBracket,
    /// `]`
    CloseBracket,
    /// `{`
    OpenBrace,
    /// `}`
    CloseBrace,
    /// `,`
    Comma,
    /// `;`
    Semicolon,
    /// `.`
    Period,
    /// `:`
    Colon,
    /// `=`
    Equals,
    /// `<`
    Less,
    /// `<=`
    LessEqual,
    /// `+`
    Plus,
}

// Its bytes.
pub(crate) fn spelling(word: Word) -> &'static str
    ensures { result.now ≡ spelling word }
{
    match word {
        Word::Always => spellings::ALWAYS,
        Word::And => spellings::AND,
        Word::Assign => spellings::ASSIGN,
        Word::Automatic => spellings::AUTOMATIC,
        Word::Begin => spellings::BEGIN,
        Word::Buf => spellings::BUF,
        Word::Case => spellings::CASE,
        Word::Default => spellings::DEFAULT,
        Word::Else => spellings::ELSE,
        Word::End => spellings::END,
        Word::Endcase => spellings::ENDCASE,
        Word::Endfunction => spellings::ENDFUNCTION,
        Word::Endmodule => spellings::ENDMODULE,
        Word::For => spellings::FOR,
        Word::Function => spellings::FUNCTION,
        Word::If => spellings::IF,
        Word::Initial => spellings::INITIAL,
        Word::Input => spellings::INPUT,
        Word::Integer => spellings::INTEGER,
        Word::Localparam => spellings::LOCALPARAM,
        Word::Module => spellings::MODULE,
        Word::Nand => spellings::NAND,
        Word::Negedge => spellings::NEGEDGE,
        Word::Nor => spellings::NOR,
        Word::Not => spellings::NOT,
        Word::Or => spellings::OR,
        Word::Output => spellings::OUTPUT,
        Word::Parameter => spellings::PARAMETER,
        Word::Posedge => spellings::POSEDGE,
        Word::Reg => spellings::REG,
        Word::Signed => spellings::SIGNED,
        Word::Wire => spellings::WIRE,
        Word::Xnor => spellings::XNOR,
        Word::Xor => spellings::XOR,
        Word::Hash => spellings::HASH,
        Word::EventControl => spellings::EVENT_CONTROL,
        Word::OpenParen => spellings::OPEN_PAREN,
        Word::CloseParen => spellings::CLOSE_PAREN,
        Word::OpenBracket => spellings::OPEN_BRACKET,
        Word::CloseBracket => spellings::CLOSE_BRACKET,
        Word::OpenBrace => spellings::OPEN_BRACE,
        Word::CloseBrace => spellings::CLOSE_BRACE,
        Word::Comma => spellings::COMMA,
        Word::Semicolon => spellings::SEMICOLON,
        Word::Period => spellings::PERIOD,
        Word::Colon => spellings::COLON,
        Word::Equals => spellings::EQUALS,
        Word::Less => spellings::LESS,
        Word::LessEqual => spellings::LESS_EQUAL,
        Word::Plus => spellings::PLUS,
    }
}

fn is_symbol(word: Word) -> bool
    ensures { result ≡ is_symbol word }
{
    matches!(
        word,
        Word::Hash
            | Word::EventControl
            | Word::OpenParen
            | Word::CloseParen
            | Word::OpenBracket
            | Word::CloseBracket
            | Word::OpenBrace
            | Word::CloseBrace
            | Word::Comma
            | Word::Semicolon
            | Word::Period
            | Word::Colon
            | Word::Equals
            | Word::Less
            | Word::LessEqual
            | Word::Plus
    )
}

fn kind_of(word: Word) -> TokenKind
    ensures { result ≡ kind_of word }
{
    if is_symbol(word) {
        TokenKind::Symbol
    } else {
        TokenKind::Reserved
    }
}

pub(crate) fn same_kind(kind: TokenKind, wanted: TokenKind) -> bool
    ensures { result ≡ same_kind kind wanted }
{
    kind as u8 == wanted as u8
}

// Whether a token of this kind and text is the word.
#[tactic(auto, unfolding(crate::specs::Words::is_text_of))]
pub(crate) fn is_text_of(word: Word, kind: TokenKind, text: &[u8]) -> bool
    ensures { result ≡ is_text_of word kind text.now }
{
    same_kind(kind, kind_of(word)) && is(text, spelling(word))
}

fn is(text: &[u8], spelling: &str) -> bool
    ensures { result ≡ bytes_eq text.now spelling.now }
{
    text == spelling.as_bytes()
}
