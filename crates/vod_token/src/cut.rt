//! The reading of a whole source.

ghost use Rattle.std.specs.Prelude.{◌≡◌, ◌≢◌, ◌<◌, ◌≤◌, ◌+◌, [], ℕ, List, Option, length, All, IfOk, IfErr, MatchResult, None, Some};
ghost use Rattle.vod_token.specs.Cut.{Falls, Continues};
ghost use Rattle.vod_token.specs.Form.{Form, IsSpelled};
ghost use Rattle.vod_token.specs.Scan.{layout_len};
ghost use Rattle.vod_token.specs.Nesting.{deep_at};
ghost use Rattle.vod_token.specs.Fault.{IsCutFault, IsFault};
ghost use Rattle.vod_token.specs.Span.{AreTokens, IsTokenOf};
ghost use Rattle.vod_token.specs.declared.Token.{Token};
ghost use Rattle.vod_token.specs.declared.LexFault.{LexFault};

use crate::bytes::rest_from;
use crate::layout::layout_len;
use crate::lexeme::token_at;
use crate::nesting::check_nesting;
use crate::{LexFault, Token};
use std::alloc::Global;

/// Cuts a source of at most 1,048,576 bytes into its tokens, the longest at each place, and refuses
/// it at its first fault: where the bytes hold no token, or one past a limit; or else where the nesting
/// passes its limit.
pub fn tokens(alloc: Global, source: &[u8]) -> Result<Vec<Token>, LexFault>
    requires { length source.now ≤ 1048576 }
    ensures read { IfOk result (λ tokens. Falls 0 source.now tokens.items None) }
    ensures shallow { IfOk result (λ tokens. deep_at source.now tokens.items ≡ None) }
    ensures spans { IfOk result (λ tokens. AreTokens source.now 0 tokens.items) }
    ensures each { IfOk result (λ tokens. All (IsTokenOf source.now) tokens.items) }
    ensures fault { IfErr result (IsFault source.now) }

    // A source that falls into tokens is read, unless memory runs out; any other is refused where it stops.
    ensures accepts { (ts : List Token) →
        Falls 0 source.now ts None → deep_at source.now ts ≡ None →
        MatchResult result (λ tokens. tokens.items ≡ ts) (λ fault. fault ≡ LexFault.Memory) }
    ensures refuses { (ts : List Token) (fault : LexFault) → Falls 0 source.now ts (Some fault) →
        MatchResult result (λ tokens. ⊥) (λ other. (other ≢ LexFault.Memory) → other ≡ fault) }
    ensures nested { (ts : List Token) (place : ℕ) →
        Falls 0 source.now ts None → deep_at source.now ts ≡ Some place →
        MatchResult result (λ tokens. ⊥)
        (λ other. (other ≢ LexFault.Memory) → other ≡ LexFault.Nesting place) }
{
    read_tokens(alloc, source)
}

/// A source falls into tokens, or stops, in one way.
pub fn one_reading()
    ensures some { (source : List ℕ) →
        (ts : List Token) × (fault : Option LexFault) × Falls 0 source ts fault }
    ensures one { (source : List ℕ) (ts us : List Token) (fault other : Option LexFault) →
        Falls 0 source ts fault → Falls 0 source us other → (ts ≡ us) × (fault ≡ other) }
{}

/// A text is spelled as one form of token, so a number has one size, sign and value.
pub fn one_form()
    ensures { (text : List ℕ) (form other : Form) →
        IsSpelled text form → IsSpelled text other → form ≡ other }
{}

// Cuts a source into its tokens, and counts their nesting.
fn read_tokens(alloc: Global, source: &[u8]) -> Result<Vec<Token>, LexFault>
    requires { length source.now ≤ 1048576 }
    ensures ok { IfOk result (λ tokens.
        Falls 0 source.now tokens.items None × (deep_at source.now tokens.items ≡ None)) }
    ensures err { IfErr result (IsFault source.now) }
{
    let tokens = cut(alloc, source)?;
    check_nesting(alloc, source, &tokens)?;
    Ok(tokens)
}

// Cuts a source into its tokens.
fn cut(alloc: Global, source: &[u8]) -> Result<Vec<Token>, LexFault>
    requires { length source.now ≤ 1048576 }
    ensures ok { IfOk result (λ tokens. Falls 0 source.now tokens.items None) }
    ensures err { IfErr result (IsCutFault source.now) }
{
    let mut tokens = Vec::new(alloc);
    let mut at = 0;
    while at < source.len() {
        let rest = rest_from(source, at);
        match layout_len(rest) {
            Some(len) => at += len,
            None => {
                let token = next_token(rest, at)?;
                tokens.push(token)?;
                at = token.end as usize;
            }
        }
    }
    Ok(tokens)
}

// The token at the front of what is left, which begins at this place of the source.
fn next_token(rest: &[u8], at: usize) -> Result<Token, LexFault>
    requires fits { at + length rest.now ≤ 1048576 }
    requires some { 0 < length rest.now }
    requires dark { layout_len rest.now ≡ None }
    ensures ok { IfOk result (Continues at rest.now) }
    ensures err { IfErr result (λ fault. Falls at rest.now [] (Some fault)) }
{
    let (kind, len) = token_at(rest, at as u32)?;
    Ok(Token {
        kind,
        start: at as u32,
        end: (at + len) as u32,
    })
}
