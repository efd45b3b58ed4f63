//! Words, names, numbers and expressions, read one behind the other from the tokens of a source.
ghost use Rattle.std.specs.Prelude.{◌≡◌, length, MatchResult};
ghost use Rattle.vod_expr.specs.Grammar.{lexeme, ident_of};
ghost use Rattle.vod_expr_machine.specs.Numerals.{number_of};
ghost use Rattle.vod_expr.specs.declared.ParseFault.{ParseFault};
ghost use Rattle.vod_token.specs.Nesting.{slice_of};
ghost use Rattle.vod_token.specs.Span.{IsTokenOf};
ghost use Rattle.vod_grammar.specs.Words.{is_word};

use crate::word::{Word, is_text_of, same_kind};
use std::alloc::Global;
use vod_expr::{ParseFault, read_expr};
use vod_token::{Token, TokenKind, literal_of, one_literal};
use vod_tree::{Expr, Ident, Name, Number};

/// A source and its tokens. Where reading stands is the number of the token that comes next. Which tokens the readings of `word`,
/// `name`, `number` and `expression` take, and where they stop, `phrases_are_exact` says.
#[derive(Clone, Copy)]
pub struct Reader<'s> {
    pub alloc: Global,
    pub source: &'s [u8],
    pub tokens: &'s [Token],
}

impl<'s> Reader<'s> {
    ghost use Rattle.std.specs.Prelude.{◌≡◌, length, false, true, MatchOption, None};
    ghost use Rattle.vod_expr.specs.Answer.{fault_at};
    ghost use Rattle.vod_grammar.specs.Read.{passes, first, is_next, place_of, rest_of, word_read, name_read, number_read, expression_read, flag_read, Got};
    ghost use Rattle.vod_grammar.specs.State.{left, Gives, IsOfSource};
    ghost use Rattle.vod_grammar.specs.Words.{is_other, same_kind};

    /// How many tokens are left.
    pub fn remaining(self, at: usize) -> usize
        ensures { result ≡ length (left self.entry at) }
    {
        self.tokens.len().saturating_sub(at)
    }

    /// The place of the token that comes next, 0 at the end.
    pub fn place(self, at: usize) -> u32
        ensures { result ≡ place_of (left self.entry at) }
    {
        match self.tokens.get(at) {
            Some(token) => token.start,
            None => 0,
        }
    }

    /// Why nothing is read that doesn't begin with the token that comes next.
    pub fn fault(self, at: usize) -> ParseFault
        ensures { result ≡ fault_at (left self.entry at) }
    {
        match self.tokens.get(at) {
            Some(token) => ParseFault::At(token.start),
            None => ParseFault::End,
        }
    }

    /// Whether this word comes next.
    pub fn is_next(self, at: usize, word: Word) -> bool
        requires { IsOfSource self }
        ensures { result ≡ is_next word (left self.entry at) }
    {
        match self.tokens.get(at) {
            Some(token) => is_word(self.source, *token, word),
            None => false,
        }
    }

    /// Whether a name comes next.
    pub fn is_name(self, at: usize) -> bool
        ensures { result ≡ passes (λ t. same_kind t.kind TokenKind.Name) (first (left self.entry at) None) }
    {
        match self.tokens.get(at) {
            Some(token) => same_kind(token.kind, TokenKind::Name),
            None => false,
        }
    }

    /// Whether a token comes next that isn't this word.
    pub fn is_other(self, at: usize, word: Word) -> bool
        requires { IsOfSource self }
        ensures { result ≡ passes (is_other word) (first (left self.entry at) None) }
    {
        match self.tokens.get(at) {
            Some(token) => !is_word(self.source, *token, word),
            None => false,
        }
    }

    /// This word, as its place, where it comes next.
    #[tactic(auto, using(crate::proofs::Lefts::rest_left))]
    pub fn takes(self, at: &mut usize, word: Word) -> Option<u32>
        requires { IsOfSource self }
        ensures { MatchOption result
            ((is_next word (left self.entry at.old) ≡ false) × (left self.entry at.new ≡ left self.entry at.old))
            (λ place. (is_next word (left self.entry at.old) ≡ true) × (place ≡ place_of (left self.entry at.old)) × (left self.entry at.new ≡ rest_of (left self.entry at.old))) }
    {
        if !self.is_next(*at, word) {
            return None;
        }
        let place = self.place(*at);
        *at += 1;
        Some(place)
    }

    /// This word, as its place (`phrases_are_exact`, `word`).
    pub fn word(self, at: &mut usize, word: Word) -> Result<u32, ParseFault>
        requires { IsOfSource self }
        ensures { Gives result (left self.entry at.new) (word_read word (left self.entry at.old)) }
    {
        match self.takes(at, word) {
            Some(place) => Ok(place),
            None => Err(self.fault(*at)),
        }
    }

    /// A name (`phrases_are_exact`, `name`).
    #[tactic(auto, using(crate::proofs::Lefts::rest_left))]
    pub fn name(self, at: &mut usize) -> Result<Ident, ParseFault>
        requires { IsOfSource self }
        ensures { Gives result (left self.entry at.new) (name_read (left self.entry at.old)) }
    {
        match self.tokens.get(*at) {
            Some(token) if same_kind(token.kind, TokenKind::Name) => {
                *at += 1;
                ident_of(self.alloc, self.source, *token)
            }
            _ => Err(self.fault(*at)),
        }
    }

    /// A number (`phrases_are_exact`, `number`).
    #[tactic(auto, using(crate::proofs::Lefts::rest_left))]
    pub fn number(self, at: &mut usize) -> Result<Number, ParseFault>
        requires { IsOfSource self }
        ensures { Gives result (left self.entry at.new) (number_read (left self.entry at.old)) }
    {
        match self.tokens.get(*at) {
            Some(token) if same_kind(token.kind, TokenKind::Number) => {
                *at += 1;
                Ok(number_of(self.source, *token))
            }
            _ => Err(self.fault(*at)),
        }
    }

    /// The expression that the longest front of the tokens left is with which some expression begins (`phrases_are_exact`,
    /// `expression`).
    #[tactic(auto, using(crate::proofs::Lefts::tree_left))]
    pub fn expression(self, at: &mut usize) -> Result<Expr, ParseFault>
        requires { IsOfSource self }
        ensures { Gives result (left self.entry at.new) (expression_read (left self.entry at.old)) }
    {
        let from = (*at).min(self.tokens.len());
        let (expr, end) = read_expr(self.alloc, self.source, self.tokens, from)?;
        *at = end;
        Ok(expr)
    }

    /// Whether this word stands here; it is passed over.
    pub fn flag(self, at: &mut usize, word: Word) -> bool
        requires { IsOfSource self }
        ensures { flag_read word (left self.entry at.old) ≡ Got result (left self.entry at.new) }
    {
        self.takes(at, word).is_some()
    }
}

// A name where it stands.
fn ident_of(alloc: Global, source: &[u8], token: Token) -> Result<Ident, ParseFault>
    requires { IsTokenOf source.now token }
    ensures { MatchResult result (λ ident. ident ≡ ident_of (lexeme source.now token)) (λ fault. fault ≡ ParseFault.Memory) }
{
    let name = Name::from_slice(alloc, text_of(source, token))?;
    Ok(Ident {
        place: token.start,
        name,
    })
}

// The number that a token stands for.
fn number_of(source: &[u8], token: Token) -> Number
    requires of { IsTokenOf source.now token }
    requires kind { token.kind ≡ TokenKind.Number }
    ensures { result ≡ number_of (lexeme source.now token) }
{
    // A number has one literal that it stands for.
    one_literal();
    let literal = literal_of(text_of(source, token));
    Number {
        place: token.start,
        size: literal.size,
        signed: literal.signed,
        value: literal.value,
    }
}

// Whether a token is the word.
fn is_word(source: &[u8], token: Token, word: Word) -> bool
    requires { IsTokenOf source.now token }
    ensures { result ≡ is_word word (lexeme source.now token) }
{
    is_text_of(word, token.kind, text_of(source, token))
}

// The bytes of a token.
fn text_of(source: &[u8], token: Token) -> &[u8]
    requires { IsTokenOf source.now token }
    ensures { result.now ≡ slice_of source.now token }
{
    &source[token.start as usize..token.end as usize]
}
