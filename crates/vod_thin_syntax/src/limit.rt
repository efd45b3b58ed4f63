//! The first token past a limit.
ghost use Rattle.std.specs.Prelude.{◌≡◌, ◌-◌, All, IfOk};
ghost use Rattle.std.specs.Str.{bytes_eq};
ghost use Rattle.vod_token.specs.Nesting.{slice_of};
ghost use Rattle.vod_token.specs.Span.{LiesIn};
ghost use Rattle.vod_thin_syntax.specs.Limit.{sooner, is_name, is_long, first_long, crowded, limit_of};

use std::alloc::{AllocError, Global};
use vod_token::{Token, TokenKind, first_too_deep};

/// The greatest length of a name, in bytes.
const NAME_LEN: u32 = 1024;

/// How many inputs, outputs, wires and registers there may be, each.
const SIGNALS: u32 = 256;

/// Where the first token begins that is past a limit: a longer name, one signal too many, or the nesting.
pub(crate) fn first_past(
    alloc: Global,
    source: &[u8],
    tokens: &[Token],
) -> Result<Option<u32>, AllocError>
    requires { All (LiesIn source.now) tokens.now }
    ensures { IfOk result (λ place. place ≡ limit_of source.now tokens.now) }
{
    let deep = first_too_deep(alloc, source, tokens)?;
    let ports = sooner(
        crowded(source, b"input", tokens),
        crowded(source, b"output", tokens),
    );
    let signals = sooner(
        crowded(source, b"wire", tokens),
        crowded(source, b"reg", tokens),
    );
    Ok(sooner(first_long(tokens), sooner(deep, sooner(ports, signals))))
}

/// The lesser of two places, where there are any.
pub(crate) fn sooner(a: Option<u32>, b: Option<u32>) -> Option<u32>
    ensures { result ≡ sooner a b }
{
    match (a, b) {
        (Some(p), Some(q)) => Some(p.min(q)),
        (Some(p), None) => Some(p),
        (None, _) => b,
    }
}

fn is_name(kind: TokenKind) -> bool
    ensures { result ≡ is_name kind }
{
    matches!(kind, TokenKind::Name)
}

fn is_long(token: Token) -> bool
    ensures { result ≡ is_long token }
{
    is_name(token.kind) && token.end.saturating_sub(token.start) > NAME_LEN
}

fn first_long(tokens: &[Token]) -> Option<u32>
    ensures { result ≡ first_long tokens.now }
{
    for token in tokens {
        if is_long(*token) {
            return Some(token.start);
        }
    }
    None
}

// Where the token behind the 257th of a word begins.
fn crowded(source: &[u8], word: &[u8], tokens: &[Token]) -> Option<u32>
    requires { All (LiesIn source.now) tokens.now }
    ensures { result ≡ crowded source.now word.now tokens.now }
{
    let mut more = SIGNALS;
    let mut behind = false;
    for token in tokens {
        if behind {
            if more == 0 {
                return Some(token.start);
            }
            more -= 1;
        }
        behind = is_spelled(source, word, *token);
    }
    None
}

fn is_spelled(source: &[u8], word: &[u8], token: Token) -> bool
    requires { LiesIn source.now token }
    ensures { result ≡ bytes_eq (slice_of source.now token) word.now }
{
    &source[token.start as usize..token.end as usize] == word
}
