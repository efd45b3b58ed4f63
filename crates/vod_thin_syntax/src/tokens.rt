//! The tokens of a source.
ghost use Rattle.std.specs.Prelude.{◌≡◌, ◌<◌, ◌≤◌, ◌+◌, ◌^◌, ℕ, List, Option, drop, length, All, IfOk, IfSome, IfNone};
ghost use Rattle.vod_token.specs.Span.{LiesIn};
ghost use Rattle.vod_token.specs.declared.Token.{Token};
ghost use Rattle.vod_thin_syntax.specs.Tokens.{Falls, HoldsNone};
ghost use Rattle.vod_thin_syntax.specs.Scan.{is_of_form, Continues};

use crate::words::word_of;
use std::alloc::{AllocError, Global};
use vod_token::{Token, TokenKind, is_white, longest_token, one_form, one_token};

/// The tokens of a source, to its end or up to the first byte where no token of the thin form begins.
#[derive(Drop)]
pub(crate) struct Tokens {
    pub list: Vec<Token>,
    pub stop: Option<u32>,
}

/// Cuts a source of at most 1,048,576 bytes into its tokens.
pub(crate) fn read_tokens(alloc: Global, source: &[u8]) -> Result<Tokens, AllocError>
    requires { length source.now ≤ 2 ^ 20 }
    ensures falls { IfOk result (λ tokens. Falls 0 source.now tokens.list.items tokens.stop) }
    ensures lie { IfOk result (λ tokens. All (LiesIn source.now) tokens.list.items) }
    ensures few { IfOk result (λ tokens. length tokens.list.items ≤ 2 ^ 20) }
{
    // Bytes hold one longest token at their front, which has a byte.
    one_token();
    let cut = cut(alloc, source)?;
    Ok(cut)
}

// Cuts a source into its tokens.
fn cut(alloc: Global, source: &[u8]) -> Result<Tokens, AllocError>
    requires { length source.now ≤ 2 ^ 20 }
    ensures { IfOk result (λ tokens. Falls 0 source.now tokens.list.items tokens.stop) }
{
    let mut list = Vec::new(alloc);
    let mut at = 0;
    while at < source.len() {
        if is_white(source[at]) {
            at += 1;
            continue;
        }
        match next_token(rest_from(source, at), at) {
            Some(token) => {
                list.push(token)?;
                at = token.end as usize;
            }
            None => {
                let stop = Some(at as u32);
                return Ok(Tokens { list, stop });
            }
        }
    }
    Ok(Tokens { list, stop: None })
}

// The bytes from a place on.
fn rest_from(source: &[u8], at: usize) -> &[u8]
    requires { at ≤ length source.now }
    ensures { result.now ≡ drop at source.now }
{
    &source[at..]
}

// The token of the form at the front of what is left, which begins at this place of the source.
fn next_token(rest: &[u8], at: usize) -> Option<Token>
    requires { at + length rest.now ≤ 2 ^ 20 }
    ensures some { IfSome result (λ token. Continues at rest.now token) }
    ensures none { IfNone result (HoldsNone rest.now) }
{
    // Bytes hold one longest token at their front, which has a byte and one form.
    one_token();
    one_form();
    let Some((kind, len)) = longest_token(rest) else {
        return None;
    };
    if !is_of_form(kind, &rest[..len]) {
        return None;
    }
    Some(Token {
        kind,
        start: at as u32,
        end: (at + len) as u32,
    })
}

// Whether the thin form has this token.
fn is_of_form(kind: TokenKind, text: &[u8]) -> bool
    ensures { result ≡ is_of_form kind text.now }
{
    match kind {
        TokenKind::Name => true,
        TokenKind::Reserved | TokenKind::Number | TokenKind::Directive | TokenKind::Symbol =>
            word_of(text).is_some(),
    }
}

/// The bytes of a source fall into tokens of the thin form in one way.
pub fn one_cut()
    ensures { (source : List ℕ) (ts us : List Token) (stop other : Option ℕ) →
        Falls 0 source ts stop → Falls 0 source us other → (ts ≡ us) × (stop ≡ other) }
{
    // Bytes hold one longest token at their front, which has a byte.
    one_token();
}
