//! What of a right side may stand behind what was read of it.
ghost use Rattle.std.specs.Prelude.{◌≡◌, ◌<◌, ◌≤◌, ◌+◌, ◌^◌, IfSome};
ghost use Rattle.vod_thin_syntax.specs.Reader.{after_name, after_operand_word, after_inverted_word, closed, after_behind_word, after_word, after_first, is_behind, may_end};

use crate::words::Word;

/// What comes next: an operand; a name or a parenthesis behind `~`; or what stands behind an operand.
#[derive(Clone, Copy)]
pub enum Head {
    Operand,
    Inverted,
    Behind,
}

/// A right side as far as it was read: what comes next, and how many parentheses are open.
#[derive(Clone, Copy)]
pub struct Scan {
    pub head: Head,
    pub depth: usize,
}

fn is_behind(head: Head) -> bool
    ensures { result ≡ is_behind head }
{
    matches!(head, Head::Behind)
}

impl Scan {
    /// Whether the right side is whole.
    pub fn may_end(self) -> bool
        ensures { result ≡ may_end self }
    {
        is_behind(self.head) && self.depth == 0
    }

    /// Behind a token, by its word, or none for a name.
    pub fn after(self, first: Option<Word>) -> Option<Scan>
        requires { self.depth < 2 ^ 62 }
        ensures next { result ≡ after_first first self }
        ensures depth { IfSome result (λ next. next.depth ≤ self.depth + 1) }
    {
        match first {
            None => self.after_name(),
            Some(word) => self.after_word(word),
        }
    }

    fn after_name(self) -> Option<Scan>
        ensures next { result ≡ after_name self.head self.depth }
        ensures depth { IfSome result (λ next. next.depth ≤ self.depth + 1) }
    {
        match self.head {
            Head::Operand | Head::Inverted => Some(Scan {
                head: Head::Behind,
                depth: self.depth,
            }),
            Head::Behind => None,
        }
    }

    fn after_word(self, word: Word) -> Option<Scan>
        requires { self.depth < 2 ^ 62 }
        ensures next { result ≡ after_word self.head word self.depth }
        ensures depth { IfSome result (λ next. next.depth ≤ self.depth + 1) }
    {
        match self.head {
            Head::Operand => after_operand_word(word, self.depth),
            Head::Inverted => after_inverted_word(word, self.depth),
            Head::Behind => after_behind_word(word, self.depth),
        }
    }
}

fn after_operand_word(word: Word, depth: usize) -> Option<Scan>
    requires { depth < 2 ^ 62 }
    ensures next { result ≡ after_operand_word word depth }
    ensures depth { IfSome result (λ next. next.depth ≤ depth + 1) }
{
    match word {
        Word::Not => Some(Scan {
            head: Head::Inverted,
            depth,
        }),
        Word::Open => Some(Scan {
            head: Head::Operand,
            depth: depth + 1,
        }),
        _ => None,
    }
}

fn after_inverted_word(word: Word, depth: usize) -> Option<Scan>
    requires { depth < 2 ^ 62 }
    ensures next { result ≡ after_inverted_word word depth }
    ensures depth { IfSome result (λ next. next.depth ≤ depth + 1) }
{
    match word {
        Word::Open => Some(Scan {
            head: Head::Operand,
            depth: depth + 1,
        }),
        _ => None,
    }
}

fn closed(depth: usize) -> Option<Scan>
    ensures next { result ≡ closed depth }
    ensures depth { IfSome result (λ next. next.depth ≤ depth + 1) }
{
    if depth == 0 {
        return None;
    }
    Some(Scan {
        head: Head::Behind,
        depth: depth - 1,
    })
}

fn after_behind_word(word: Word, depth: usize) -> Option<Scan>
    ensures next { result ≡ after_behind_word word depth }
    ensures depth { IfSome result (λ next. next.depth ≤ depth + 1) }
{
    match word {
        Word::And | Word::Xor | Word::Or => Some(Scan {
            head: Head::Operand,
            depth,
        }),
        Word::Close => closed(depth),
        _ => None,
    }
}
