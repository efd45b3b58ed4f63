//! A source as its sentence, or the place where it isn't of the thin form.
ghost use Rattle.std.specs.Prelude.{◌≡◌, ◌≢◌, ◌≤◌, ◌^◌, ◌||◌, ℕ, List, Bool, false, drop, length, All, IsTrue, IfOk, IfErr, MatchResult};
ghost use Rattle.std.specs.Option.{is_some};
ghost use Rattle.vod_token.specs.Span.{LiesIn};
ghost use Rattle.vod_token.specs.declared.Token.{Token};
ghost use Rattle.vod_thin_syntax.specs.Lies.{ModuleLies, Lies};
ghost use Rattle.vod_thin_syntax.specs.Limit.{limit_of};
ghost use Rattle.vod_thin_syntax.specs.Outcome.{Broken, IsBreak, IsRead, IsFault, place_at, least_of};
ghost use Rattle.vod_thin_syntax.specs.Refusal.{Reads, Breaks, IsRefusedAt};
ghost use Rattle.vod_thin_syntax.specs.Syntax as tree;
ghost use Rattle.vod_thin_syntax.specs.Syntax.{Value, IsSentence, printed};
ghost use Rattle.vod_thin_syntax.specs.View.{marks_of, module_of};
ghost use Rattle.vod_thin_syntax.specs.declared.fault.SyntaxFault.{SyntaxFault};

use crate::SyntaxFault;
use crate::limit::first_past;
use crate::parts::module;
use crate::reader::{Reader, Stop};
use crate::syntax::{Module, Sentence};
use crate::tokens::{one_cut, read_tokens};
use std::alloc::Global;
use vod_token::Token;

/// The sentence of a source, or the least place where it isn't of the thin form. The source has at most 1,048,576 bytes;
/// where it is longer, it is handed over up to there and `more` says so.
///
/// A sentence whose tokens pass a limit is read, with the place of the first of them.
pub fn read_sentence(alloc: Global, source: &[u8], more: bool) -> Result<Sentence, SyntaxFault>
    requires short { length source.now ≤ 2 ^ 20 }
    requires cut { IsTrue more → length source.now ≡ 2 ^ 20 }
    ensures read { IfOk result (λ sentence. IsRead source.now sentence) }
    ensures lies { IfOk result (λ sentence. Lies source.now sentence) }
    ensures whole { IfOk result (λ _. more ≡ false) }
    ensures fault { IfErr result (IsFault source.now more) }

    // A source that reads is read, unless memory runs out; any other is refused at its least place.
    ensures accepts { (ts : List Token) (m : tree.Module Value) → Reads source.now ts m → more ≡ false →
        MatchResult result (λ sentence. (sentence.tokens.items ≡ ts) × (module_of source.now ts sentence.module ≡ printed m))
        (λ fault. fault ≡ SyntaxFault.Memory) }
    ensures refuses { (place : ℕ) → IsRefusedAt source.now more place →
        MatchResult result (λ _. ⊥) (λ fault. (fault ≢ SyntaxFault.Memory) → fault ≡ SyntaxFault.At place) }
{
    // A source falls into tokens in one way.
    one_cut();
    read(alloc, source, more)
}

/// A source reads as one module at most, and then doesn't break off.
pub fn one_sentence()
    ensures one { (source : List ℕ) (ts us : List Token) (m n : tree.Module Value) →
        Reads source ts m → Reads source us n → (ts ≡ us) × (m ≡ n) }
    ensures unbroken { (source : List ℕ) (ts : List Token) (m : tree.Module Value) (place : ℕ) →
        Reads source ts m → Breaks source false place → ⊥ }
    ensures refused_once { (source : List ℕ) (more : Bool) (place other : ℕ) →
        IsRefusedAt source more place → IsRefusedAt source more other → place ≡ other }
{
    // A source falls into tokens in one way.
    one_cut();
}

fn read(alloc: Global, source: &[u8], more: bool) -> Result<Sentence, SyntaxFault>
    requires short { length source.now ≤ 2 ^ 20 }
    requires cut { IsTrue more → length source.now ≡ 2 ^ 20 }
    ensures read { IfOk result (λ sentence. IsRead source.now sentence) }
    ensures lies { IfOk result (λ sentence. Lies source.now sentence) }
    ensures whole { IfOk result (λ _. more ≡ false) }
    ensures fault { IfErr result (IsFault source.now more) }
{
    // A source falls into tokens in one way.
    one_cut();
    let cut = read_tokens(alloc, source)?;
    let limit = first_past(alloc, source, &cut.list)?;
    let end = cut.stop.unwrap_or(source.len() as u32);
    match sentence_module(alloc, source, &cut.list) {
        Ok(module) => {
            if is_cut_off(more, cut.stop) {
                return Err(SyntaxFault::At(least_of(limit, end)));
            }
            Ok(Sentence {
                tokens: cut.list,
                module,
                limit,
            })
        }
        Err(Break::At(number)) => {
            let place = place_at(&cut.list, number, end);
            Err(SyntaxFault::At(least_of(limit, place)))
        }
        Err(Break::Memory) => Err(SyntaxFault::Memory),
    }
}

// Whether the source goes on behind its tokens.
fn is_cut_off(more: bool, stop: Option<u32>) -> bool
    ensures { result ≡ (more || is_some stop) }
{
    more || stop.is_some()
}

/// Why tokens aren't a sentence.
#[derive(Clone, Copy)]
pub(crate) enum Break {
    /// The number of the first token that can't stand there, or how many there are.
    At(u32),
    /// Memory ran out.
    Memory,
}

// The module that all these tokens are.
fn sentence_module(alloc: Global, source: &[u8], tokens: &[Token]) -> Result<Module, Break>
    requires lie { All (LiesIn source.now) tokens.now }
    requires few { length tokens.now ≤ 2 ^ 20 }
    ensures read { IfOk result (λ read. (m : tree.Module Value) × IsSentence (marks_of source.now tokens.now) m
        × (module_of source.now tokens.now read ≡ printed m)) }
    ensures lies { IfOk result (ModuleLies source.now tokens.now) }
    ensures broken { IfErr result (IsBreak source.now tokens.now) }
{
    let reader = Reader { source, tokens };
    let mut at = 0;
    match module(reader, &mut at, alloc) {
        Ok(module) => {
            if (at as usize) < tokens.len() {
                return Err(Break::At(at));
            }
            Ok(module)
        }
        Err(Stop::Refused) => Err(Break::At(at)),
        Err(Stop::Memory) => Err(Break::Memory),
    }
}

// Where a token begins, or where the tokens end.
fn place_at(tokens: &[Token], number: u32, end: u32) -> u32
    ensures { result ≡ place_at (drop number tokens.now) end }
{
    match tokens.get(number as usize) {
        Some(token) => token.start,
        None => end,
    }
}

fn least_of(limit: Option<u32>, place: u32) -> u32
    ensures { result ≡ least_of limit place }
{
    match limit {
        Some(passed) => passed.min(place),
        None => place,
    }
}
