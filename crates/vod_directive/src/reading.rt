//! Directives, read from the tokens of a source.
ghost use Rattle.std.specs.Prelude.{◌≡◌, None};
ghost use Rattle.vod_expr.specs.Grammar.{lexeme};
ghost use Rattle.vod_token.specs.Nesting.{slice_of};
ghost use Rattle.vod_token.specs.Span.{IsTokenOf};
ghost use Rattle.vod_grammar.specs.Read.{first, passes};
ghost use Rattle.vod_grammar.specs.State.{left, Gives, IsOfSource};
ghost use Rattle.vod_directive.specs.DirectiveForm.{directive_at, directive_form, starts_directive, is_directive_kind};

use crate::meaning::meaning;
use vod_expr::ParseFault;
use vod_grammar::Reader;
use vod_token::{Token, TokenKind};
use vod_tree::Directive;

/// Whether a token comes next that is spelled as a directive.
pub fn is_directive(reader: Reader<'_>, at: usize) -> bool
    ensures { result ≡ passes starts_directive (first (left reader.entry at) None) }
{
    match reader.tokens.get(at) {
        Some(token) => is_directive_kind(token.kind),
        None => false,
    }
}

/// A directive. What its form reads, `directives_are_exact` says: exactly the directives (`IsDirective`), each with the tree for
/// which its text stands.
#[tactic(auto, using(crate::proofs::Lefts::rest_left))]
pub fn directive(reader: Reader<'_>, at: &mut usize) -> Result<Directive, ParseFault>
    requires { IsOfSource reader }
    ensures { Gives result (left reader.entry at.new) (directive_form.read (left reader.entry at.old)) }
{
    match reader.tokens.get(*at) {
        Some(token) if is_directive_kind(token.kind) => {
            *at += 1;
            Ok(directive_in(reader.source, *token))
        }
        _ => Err(reader.fault(*at)),
    }
}

fn is_directive_kind(kind: TokenKind) -> bool
    ensures { result ≡ is_directive_kind kind }
{
    matches!(kind, TokenKind::Directive)
}

// The directive that a token stands for.
fn directive_in(source: &[u8], token: Token) -> Directive
    requires { IsTokenOf source.now token }
    ensures { result ≡ directive_at (lexeme source.now token) }
{
    Directive {
        place: token.start,
        kind: meaning(text_of(source, token)),
    }
}

// The bytes of a token.
fn text_of(source: &[u8], token: Token) -> &[u8]
    requires { IsTokenOf source.now token }
    ensures { result.now ≡ slice_of source.now token }
{
    &source[token.start as usize..token.end as usize]
}
