//! The sentence, read token by token.
ghost use Rattle.std.specs.Prelude.{◌≡◌, ◌<◌, ◌≤◌, ◌^◌, [], ◌∷◌, map, length, All};
ghost use Rattle.vod_token.specs.Nesting.{slice_of};
ghost use Rattle.vod_token.specs.Span.{LiesIn};
ghost use Rattle.vod_thin_syntax.specs.Words.{word_of};
ghost use Rattle.vod_thin_syntax.specs.Reader.{same_word, is_word};

use crate::scan::Scan;
use crate::words::{Word, word_of};
use std::alloc::{AllocError, AllocFailed};
use vod_token::Token;

/// Why reading stops: the token that comes next can't stand there, or memory ran out.
#[derive(Clone, Copy)]
pub enum Stop {
    Refused,
    Memory,
}

impl From<AllocError> for Stop {
    ghost use Rattle.std.specs.Prelude.{◌≡◌};
    ghost use Rattle.vod_thin_syntax.specs.declared.reader.Stop.TheVariants.{Memory};

    ghost from_gives = { λ _ stop. stop ≡ Memory };

    fn from(_error: AllocError) -> Stop {
        Stop::Memory
    }
}

impl<T: Drop> From<AllocFailed<T>> for Stop {
    ghost use Rattle.std.specs.Prelude.{◌≡◌};
    ghost use Rattle.vod_thin_syntax.specs.declared.reader.Stop.TheVariants.{Memory};

    ghost from_gives = { λ _ stop. stop ≡ Memory };

    fn from(_failed: AllocFailed<T>) -> Stop {
        Stop::Memory
    }
}

/// A source and its tokens. Where reading stands is the number of the token that comes next.
#[derive(Clone, Copy)]
pub struct Reader<'s> {
    pub source: &'s [u8],
    pub tokens: &'s [Token],
    ghost lie: { All (LiesIn source.now) tokens.now },
    ghost few: { length tokens.now ≤ 2 ^ 20 },
}

impl<'s> Reader<'s> {
    ghost use Rattle.std.specs.Prelude.{◌≡◌, ◌<◌, ◌≤◌, ◌+◌, ◌^◌, length, if◌then◌else◌, false, OnOk, IfOk};
    ghost use Rattle.vod_token.specs.Span.{LiesIn};
    ghost use Rattle.vod_thin_syntax.specs.View.{name_of};
    ghost use Rattle.vod_thin_syntax.specs.Reader.{first_word, is_next, rest_of, name_read, word_read, step_read};
    ghost use Rattle.vod_thin_syntax.specs.State.{left, Gives};

    /// The word that comes next; none for a name, and at the end.
    pub fn first_word(self, at: u32) -> Option<Word>
        ensures { result ≡ first_word (left self.entry at) }
    {
        match self.tokens.get(at as usize) {
            Some(token) => word_at(self.source, *token),
            None => None,
        }
    }

    /// Whether this word comes next.
    pub fn is_next(self, at: u32, word: Word) -> bool
        ensures { result ≡ is_next word (left self.entry at) }
    {
        is_word(word, self.first_word(at))
    }

    /// The token that comes next is passed over.
    pub fn pass(self, at: &mut u32)
        requires { at.old < length self.tokens.now }
        ensures left { left self.entry at.new ≡ rest_of (left self.entry at.old) }
        ensures at { at.new ≡ at.old + 1 }
    {
        *at += 1;
    }

    /// Behind the token that comes next, where it may stand in a right side.
    pub fn scan(self, at: &mut u32, scan: Scan) -> Result<Scan, Stop>
        requires { scan.depth < 2 ^ 62 }
        ensures next { Gives (λ next. next) result (left self.entry at.new) (step_read scan (left self.entry at.old)) }
        ensures at { OnOk result (at.new ≡ at.old + 1) }
        ensures depth { IfOk result (λ next. next.depth ≤ scan.depth + 1) }
    {
        let Some(token) = self.tokens.get(*at as usize) else {
            return Err(Stop::Refused);
        };
        match scan.after(word_at(self.source, *token)) {
            Some(next) => {
                *at += 1;
                Ok(next)
            }
            None => Err(Stop::Refused),
        }
    }

    /// Whether this word comes next, which is then passed over.
    pub fn takes(self, at: &mut u32, word: Word) -> bool
        ensures is { result ≡ is_next word (left self.entry at.old) }
        ensures goes { left self.entry at.new ≡ (if result then rest_of (left self.entry at.old) else left self.entry at.old) }
    {
        if !self.is_next(*at, word) {
            return false;
        }
        *at += 1;
        true
    }

    /// This word.
    pub fn word(self, at: &mut u32, word: Word) -> Result<(), Stop>
        ensures { Gives (λ x. x) result (left self.entry at.new) (word_read word (left self.entry at.old)) }
    {
        if self.takes(at, word) {
            Ok(())
        } else {
            Err(Stop::Refused)
        }
    }

    /// A name.
    pub fn name(self, at: &mut u32) -> Result<Token, Stop>
        ensures gives { Gives (name_of self.entry.source.now) result (left self.entry at.new) (name_read (left self.entry at.old)) }
        ensures lies { IfOk result (LiesIn self.entry.source.now) }
    {
        match self.tokens.get(*at as usize) {
            Some(token) if word_at(self.source, *token).is_none() => {
                *at += 1;
                Ok(*token)
            }
            _ => Err(Stop::Refused),
        }
    }
}

// The word of a token; none for a name.
fn word_at(source: &[u8], token: Token) -> Option<Word>
    requires { LiesIn source.now token }
    ensures { result ≡ word_of (slice_of source.now token) }
{
    word_of(&source[token.start as usize..token.end as usize])
}

fn is_same(word: Word, wanted: Word) -> bool
    ensures { result ≡ same_word word wanted }
{
    word as u8 == wanted as u8
}

fn is_word(wanted: Word, first: Option<Word>) -> bool
    ensures { result ≡ is_word wanted first }
{
    match first {
        Some(word) => is_same(word, wanted),
        None => false,
    }
}
