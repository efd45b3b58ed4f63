//! The token at the front of the bytes.

ghost use Rattle.std.specs.Prelude.{◌≡◌, ◌≢◌, ◌||◌, ◌==◌, ◌++◌, ◌∷◌, [], ℕ, List, None, false, take, IfSome, IfNone};
ghost use Rattle.std.specs.Char.{is_ascii_digit};
ghost use Rattle.std.specs.List.{prefix_len};
ghost use Rattle.vod_token.specs.Cut.{Holds, wrong_with};
ghost use Rattle.vod_token.specs.Form.{Form, kind_of, is_white, is_word_byte};
ghost use Rattle.vod_token.specs.Form.Form.{Word};
ghost use Rattle.vod_token.specs.Front.{IsFront, begins_word};
ghost use Rattle.vod_token.specs.Scan.{token_at, word_judged, directive_judged, symbol_judged};

use crate::bytes::{Class, is_letter, run};
use crate::directive::directive_at;
use crate::number::number_at;
use crate::reserved::is_reserved;
use crate::symbol::symbol_len;
use crate::{LexFault, TokenKind};

// The greatest length of an identifier, in bytes.
const NAME_LEN: usize = 1024;

/// The kind and the length of the longest token at the front of the bytes, however long a name is; none where no token
/// begins there, and where a number does that is past its limits.
pub fn longest_token(bytes: &[u8]) -> Option<(TokenKind, usize)>
    ensures some { IfSome result (λ token. IsFront bytes.now token.0 token.1) }
    ensures none { IfNone result ((text rest : List ℕ) (form : Form) →
        bytes.now ≡ text ++ rest → Holds text rest form → wrong_with 0 0 form ≢ None) }
{
    if begins_word(bytes) {
        return Some(word(bytes));
    }
    match token_at(bytes, 0) {
        Ok(token) => Some(token),
        Err(_) => None,
    }
}

// Whether a letter stands at the front.
fn begins_word(bytes: &[u8]) -> bool
    ensures { result ≡ begins_word bytes.now }
{
    match bytes {
        [first, ..] => is_letter(*first),
        [] => false,
    }
}

// The kind and the length of the token at the front, which stands at this place of the source.
#[tactic(auto, unfolding(crate::specs::Scan::token_at, crate::specs::Scan::lexeme))]
pub(crate) fn token_at(bytes: &[u8], at: u32) -> Result<(TokenKind, usize), LexFault>
    ensures { result ≡ token_at at bytes.now }
{
    let Some(first) = bytes.first().copied() else {
        return Err(LexFault::At(at));
    };
    if is_letter(first) {
        word_at(bytes, at)
    } else if begins_number(first) {
        number_at(bytes, at)
    } else if first == b'`' {
        directive(bytes, at)
    } else {
        symbol(bytes, at)
    }
}

fn begins_number(first: u8) -> bool
    ensures { result ≡ (is_ascii_digit first || first == 39) }
{
    first.is_ascii_digit() || first == b'\''
}

// The word at the front, whose kind tells an identifier from a reserved word.
fn word(bytes: &[u8]) -> (TokenKind, usize)
    ensures { result ≡ (kind_of (take (prefix_len is_word_byte bytes.now) bytes.now) Word, prefix_len is_word_byte bytes.now) }
{
    let len = run(Class::Word, bytes);
    let kind = if is_reserved(&bytes[..len]) {
        TokenKind::Reserved
    } else {
        TokenKind::Name
    };
    (kind, len)
}

// The word at the front, which isn't a longer identifier than may be.
fn word_at(bytes: &[u8], at: u32) -> Result<(TokenKind, usize), LexFault>
    ensures { result ≡ word_judged at bytes.now }
{
    let (kind, len) = word(bytes);
    if len > NAME_LEN {
        return Err(LexFault::Name(at));
    }
    Ok((kind, len))
}

fn directive(bytes: &[u8], at: u32) -> Result<(TokenKind, usize), LexFault>
    ensures { result ≡ directive_judged at bytes.now }
{
    match directive_at(bytes) {
        Some(rest) => Ok((TokenKind::Directive, bytes.len() - rest.len())),
        None => Err(LexFault::At(at)),
    }
}

fn symbol(bytes: &[u8], at: u32) -> Result<(TokenKind, usize), LexFault>
    ensures { result ≡ symbol_judged at bytes.now }
{
    let len = symbol_len(bytes);
    if len > 0 {
        Ok((TokenKind::Symbol, len))
    } else {
        Err(LexFault::At(at))
    }
}

/// The bytes hold one longest token at their front, of one form. A token has a byte, and doesn't begin with white space.
pub fn one_token()
    ensures one { (text rest more after : List ℕ) (form other : Form) → text ++ rest ≡ more ++ after →
        Holds text rest form → Holds more after other → (text ≡ more) × (rest ≡ after) × (form ≡ other) }
    ensures some { (rest : List ℕ) (form : Form) → Holds [] rest form → ⊥ }
    ensures dark { (b : ℕ) (text rest : List ℕ) (form : Form) → Holds (b ∷ text) rest form → is_white b ≡ false }
{}
