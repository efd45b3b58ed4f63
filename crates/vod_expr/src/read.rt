//! The longest run of tokens with which an expression begins.

ghost use Rattle.std.specs.Prelude.{◌≡◌, ◌≢◌, ◌≤◌, ◌+◌, ℕ, length, drop, All, None, Ok, Err, IfOk, IfErr, MatchResult};
ghost use Rattle.vod_token.specs.Nesting.{deep_at};
ghost use Rattle.vod_token.specs.Span.{IsTokenOf};
ghost use Rattle.vod_tree.specs.declared.expr.Expr.{Expr};
ghost use Rattle.vod_expr.specs.Answer.{IsRead, IsRefused, expr_read};
ghost use Rattle.vod_expr.specs.Grammar.{lexemes};
ghost use Rattle.vod_expr_machine.specs.Machine.{start};
ghost use Rattle.vod_expr.specs.Reading.{Reads, fault_from, answered};
ghost use Rattle.vod_expr_machine.specs.View.{state_of};
ghost use Rattle.vod_expr.specs.declared.ParseFault.{ParseFault};

use crate::{ParseFault, one_answer, one_tree, source_lexemes};
use std::alloc::{AllocError, Global};
use vod_expr_machine::Reader;
use vod_token::Token;
use vod_tree::{Expr, let_go};

/// Takes the longest run of tokens from the place `from` of the list on with which some expression begins (IEEE 1364-2005,
/// clause 5). Where the run is an expression, the answer is that, with the place in the list of the token behind the run.
/// Where it is none, it is refused at the first token not taken, or at the end. The nesting of the tokens stays within 64, so
/// no tree is deeper than a call of its parts may go; `tokens` of `vod_token` gives no others (`shallow`).
pub fn read_expr(
    alloc: Global,
    source: &[u8],
    tokens: &[Token],
    from: usize,
) -> Result<(Expr, usize), ParseFault>
    requires from { from ≤ length tokens.now }
    requires tokens { All (IsTokenOf source.now) tokens.now }
    requires nested { deep_at source.now tokens.now ≡ None }
    ensures ok { IfOk result (λ read. (n : ℕ) × (read.1 ≡ from + n) × IsRead (lexemes source.now (drop from tokens.now)) n read.0) }
    ensures err { IfErr result (λ fault. (fault ≢ ParseFault.Memory) → IsRefused (lexemes source.now (drop from tokens.now)) fault) }

    // A run that is an expression is read, unless memory runs out; any other is refused where it ends.
    ensures accepts { (n : ℕ) (tree : Expr) → IsRead (lexemes source.now (drop from tokens.now)) n tree →
        MatchResult result (λ read. (read.0 ≡ tree) × (read.1 ≡ from + n)) (λ fault. fault ≡ ParseFault.Memory) }
    ensures refuses { (fault : ParseFault) → IsRefused (lexemes source.now (drop from tokens.now)) fault →
        MatchResult result (λ read. ⊥) (λ other. (other ≢ ParseFault.Memory) → other ≡ fault) }

    // The same as one function: the answer on the tokens from there on.
    ensures answer { MatchResult result
        (λ read. (n : ℕ) × (read.1 ≡ from + n) × (expr_read (lexemes source.now (drop from tokens.now)) ≡ Ok (read.0, n)))
        (λ fault. (fault ≢ ParseFault.Memory) → expr_read (lexemes source.now (drop from tokens.now)) ≡ Err fault) }
{
    // Tokens have one tree at most and one answer, which is right; and a source's tokens are lexemes, of which that is said.
    one_tree();
    one_answer();
    source_lexemes();
    read_from(alloc, source, tokens, from)
}

// The same, as the reader finds it.
fn read_from(
    alloc: Global,
    source: &[u8],
    tokens: &[Token],
    from: usize,
) -> Result<(Expr, usize), ParseFault>
    requires from { from ≤ length tokens.now }
    requires tokens { All (IsTokenOf source.now) tokens.now }
    ensures { MatchResult result
        (λ read. (n : ℕ) × (read.1 ≡ from + n) × (expr_read (lexemes source.now (drop from tokens.now)) ≡ Ok (read.0, n)))
        (λ fault. (fault ≢ ParseFault.Memory) → expr_read (lexemes source.now (drop from tokens.now)) ≡ Err fault) }
{
    let mut reader = Reader::new(alloc);
    let read = read_by(alloc, source, tokens, from, &mut reader);
    let_go(reader);
    read
}

// The same, by a reader that has read nothing.
fn read_by(
    alloc: Global,
    source: &[u8],
    tokens: &[Token],
    from: usize,
    reader: &mut Reader,
) -> Result<(Expr, usize), ParseFault>
    requires from { from ≤ length tokens.now }
    requires tokens { All (IsTokenOf source.now) tokens.now }
    requires fresh { state_of reader.old ≡ start }
    ensures { MatchResult result
        (λ read. (n : ℕ) × (read.1 ≡ from + n) × (expr_read (lexemes source.now (drop from tokens.now)) ≡ Ok (read.0, n)))
        (λ fault. (fault ≢ ParseFault.Memory) → expr_read (lexemes source.now (drop from tokens.now)) ≡ Err fault) }
{
    let run = rest_from(tokens, from);
    let taken = take_run(alloc, source, run, reader)?;
    let tree = reader.ended(alloc)?;
    answer(tree, from + taken, rest_from(run, taken))
}

// The tree with the place behind it, or the fault there.
fn answer(tree: Option<Expr>, end: usize, rest: &[Token]) -> Result<(Expr, usize), ParseFault>
    ensures { result ≡ answered tree end rest.now }
{
    match tree {
        Some(tree) => Ok((tree, end)),
        None => Err(fault_from(rest)),
    }
}

// The tokens from a place on.
fn rest_from(tokens: &[Token], place: usize) -> &[Token]
    requires { place ≤ length tokens.now }
    ensures { result.now ≡ drop place tokens.now }
{
    &tokens[place..]
}

// How many tokens the reader takes.
fn take_run(
    alloc: Global,
    source: &[u8],
    run: &[Token],
    reader: &mut Reader,
) -> Result<usize, AllocError>
    requires tokens { All (IsTokenOf source.now) run.now }
    requires fresh { state_of reader.old ≡ start }
    ensures { IfOk result (λ taken. Reads (lexemes source.now run.now) taken reader.new) }
{
    for (taken, token) in run.iter().enumerate() {
        let text = &source[token.start as usize..token.end as usize];
        if !reader.step(alloc, token.kind, text, token.start)? {
            return Ok(taken);
        }
    }
    Ok(run.len())
}

// The fault at the first of these tokens, or at the end.
fn fault_from(tokens: &[Token]) -> ParseFault
    ensures { result ≡ fault_from tokens.now }
{
    match tokens {
        [token, ..] => ParseFault::At(token.start),
        [] => ParseFault::End,
    }
}
