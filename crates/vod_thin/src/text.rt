//! A source and its tokens.
ghost use Rattle.std.specs.Prelude.{◌≡◌, slice_range};
ghost use Rattle.vod_token.specs.Nesting.{slice_of};

use vod_thin_syntax::Span;
use vod_token::Token;

/// A source, and its tokens in order.
#[derive(Clone, Copy)]
pub(crate) struct Text<'s> {
    pub source: &'s [u8],
    pub tokens: &'s [Token],
}

impl<'s> Text<'s> {
    /// The bytes of a token.
    pub(crate) fn bytes(&self, token: Token) -> &'s [u8]
        ensures { result.now ≡ slice_of self.now.source.now token }
    {
        let end = self.source.len().min(token.end as usize);
        let start = end.min(token.start as usize);
        &self.source[start..end]
    }

    /// The tokens of a range.
    pub(crate) fn range(&self, span: Span) -> &'s [Token]
        ensures { result.now ≡ slice_range self.now.tokens.now span.from span.to }
    {
        let to = self.tokens.len().min(span.to as usize);
        let from = to.min(span.from as usize);
        &self.tokens[from..to]
    }
}
