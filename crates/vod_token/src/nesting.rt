//! The nesting of brackets and operators.

ghost use Rattle.std.specs.Prelude.{◌≡◌, ◌+◌, ◌^◌, ◌<◌, ◌≤◌, ◌∷◌, [], codes, length, reverse, sum, None, IfErr, IfOk, OnOk, All};
ghost use Rattle.vod_token.specs.Word.{is_among};
ghost use Rattle.vod_token.specs.Nesting.{symbol_effect, effect_of, changed, nesting, deep_at};
ghost use Rattle.vod_token.specs.Fault.{IsNestingFault};
ghost use Rattle.vod_token.specs.Span.{LiesIn};

use crate::symbol::is_operator;
use crate::{LexFault, NESTING, Token, TokenKind};
use std::alloc::{AllocError, Global};

// What a token does to the counts of operators.
#[derive(Clone, Copy, PartialEq, Eq)]
pub(crate) enum Effect {
    Opens,
    Closes,
    Separates,
    Counts,
    Leaves,
}

// Refuses tokens that are nested too deep.
pub(crate) fn check_nesting(alloc: Global, source: &[u8], tokens: &[Token]) -> Result<(), LexFault>
    requires { All (LiesIn source.now) tokens.now }
    ensures ok { OnOk result (deep_at source.now tokens.now ≡ None) }
    ensures err { IfErr result (IsNestingFault source.now tokens.now) }
{
    match first_too_deep(alloc, source, tokens)? {
        Some(place) => Err(LexFault::Nesting(place)),
        None => Ok(()),
    }
}

/// Where the first token begins that takes the nesting past `NESTING`. The tokens' spans lie in the source.
pub fn first_too_deep(
    alloc: Global,
    source: &[u8],
    tokens: &[Token],
) -> Result<Option<u32>, AllocError>
    requires { All (LiesIn source.now) tokens.now }
    ensures { IfOk result (λ place. place ≡ deep_at source.now tokens.now) }
{
    let mut last = 0;
    let mut outer = Vec::new(alloc);
    for token in tokens {
        let text = &source[token.start as usize..token.end as usize];
        change(&mut last, &mut outer, effect_of(token.kind, text))?;
        if nesting(last, &outer) > NESTING {
            return Ok(Some(token.start));
        }
    }
    Ok(None)
}

// The last count and the outer ones behind a token.
fn change(last: &mut u32, outer: &mut Vec<u32>, effect: Effect) -> Result<(), AllocError>
    requires { last.old < 1000 }
    ensures { OnOk result (last.new ∷ reverse outer.new.items
        ≡ changed effect last.old (reverse outer.old.items)) }
{
    match effect {
        Effect::Opens => {
            outer.push(*last)?;
            *last = 0;
        }
        Effect::Closes => {
            if let Some(count) = outer.pop() {
                *last = count;
            }
        }
        Effect::Separates => *last = 0,
        Effect::Counts => *last += 1,
        Effect::Leaves => {}
    }
    Ok(())
}

// The nesting: the open brackets and all counted operators.
fn nesting(last: u32, outer: &[u32]) -> u32
    requires { last + sum outer.now + length outer.now < 1000 }
    ensures { result ≡ nesting (last ∷ reverse outer.now) }
{
    last + total(outer) + outer.len() as u32
}

fn total(counts: &[u32]) -> u32
    requires { sum counts.now < 2 ^ 32 }
    ensures { result ≡ sum counts.now }
{
    counts.iter().sum()
}

fn effect_of(kind: TokenKind, text: &[u8]) -> Effect
    ensures { result ≡ effect_of kind text.now }
{
    match kind {
        TokenKind::Symbol => symbol_effect(text),
        TokenKind::Name | TokenKind::Reserved | TokenKind::Number | TokenKind::Directive => {
            Effect::Leaves
        }
    }
}

fn symbol_effect(text: &[u8]) -> Effect
    ensures { result ≡ symbol_effect text.now }
{
    if is_opening(text) {
        Effect::Opens
    } else if is_closing(text) {
        Effect::Closes
    } else if is_separator(text) {
        Effect::Separates
    } else if is_operator(text) {
        Effect::Counts
    } else {
        Effect::Leaves
    }
}

fn is_opening(text: &[u8]) -> bool
    ensures { result ≡ is_among (codes "(" ∷ codes "[" ∷ codes "{" ∷ []) text.now }
{
    matches!(text, [b'(' | b'[' | b'{'])
}

fn is_closing(text: &[u8]) -> bool
    ensures { result ≡ is_among (codes ")" ∷ codes "]" ∷ codes "}" ∷ []) text.now }
{
    matches!(text, [b')' | b']' | b'}'])
}

fn is_separator(text: &[u8]) -> bool
    ensures { result ≡ is_among (codes "," ∷ codes ";" ∷ []) text.now }
{
    matches!(text, [b',' | b';'])
}
