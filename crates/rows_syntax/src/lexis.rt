//! Tokens and numbers.
ghost use Rattle.std.specs.Prelude.{◌≡◌, ◌≤◌, length, All};
ghost use Rattle.vod_token.specs.Span.{IsTokenOf};
ghost use Rattle.vod_token.specs.declared.TokenKind.{TokenKind};

use rows_text::Page;
use std::alloc::Global;
use vod_token::{Token, TokenKind, literal_of, tokens};

/// Each token of a source, as the letter of its kind, its start and its end; or why there are none.
pub fn show_tokens(alloc: Global, page: &mut Page, source: &[u8])
    requires { length source.now ≤ 1048576 }
{
    match tokens(alloc, source) {
        Ok(tokens) => show_each(page, tokens.as_slice()),
        Err(fault) => page.shown(&fault),
    }
}

fn show_each(page: &mut Page, tokens: &[Token]) {
    if tokens.is_empty() {
        page.put(" none");
    }
    for token in tokens {
        page.word(letter_of(token.kind));
        page.put_shown(&token.start);
        page.put("-");
        page.put_shown(&token.end);
    }
}

fn letter_of(kind: TokenKind) -> &'static str {
    match kind {
        TokenKind::Name => "n",
        TokenKind::Reserved => "r",
        TokenKind::Number => "d",
        TokenKind::Directive => "i",
        TokenKind::Symbol => "s",
    }
}

/// The size, the sign and the value of the number that a source begins with.
pub fn show_literal(alloc: Global, page: &mut Page, source: &[u8])
    requires { length source.now ≤ 1048576 }
{
    match tokens(alloc, source) {
        Ok(tokens) => show_first(page, source, tokens.as_slice()),
        Err(fault) => page.shown(&fault),
    }
}

fn show_first(page: &mut Page, source: &[u8], tokens: &[Token])
    requires { All (IsTokenOf source.now) tokens.now }
{
    match tokens.first() {
        Some(token) if token.kind == TokenKind::Number => show_number(page, source, *token),
        _ => page.put(" no number"),
    }
}

fn show_number(page: &mut Page, source: &[u8], token: Token)
    requires token { IsTokenOf source.now token }
    requires number { token.kind ≡ TokenKind.Number }
{
    let number = literal_of(&source[token.start as usize..token.end as usize]);
    page.shown(&number.size);
    page.word(if number.signed { "signed" } else { "unsigned" });
    page.shown(&number.value);
}
