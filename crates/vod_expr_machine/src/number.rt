//! The numbers that tokens stand for.

ghost use Rattle.std.specs.Prelude.{◌≡◌};
ghost use Rattle.vod_token.specs.Span.{IsTokenText};
ghost use Rattle.vod_expr_machine.specs.Numerals.{number_of};

use vod_token::{TokenKind, literal_of, one_literal};
use vod_tree::Number;

// The number of a token, at its place.
#[tactic(auto, unfolding(crate::specs::Numerals::number_of))]
pub(crate) fn number_of(text: &[u8], place: u32) -> Number
    requires { IsTokenText text.now TokenKind.Number }
    ensures { result ≡ number_of (record { kind = TokenKind.Number; text = text.now; place = place }) }
{
    // A number has one literal that it stands for.
    one_literal();
    let literal = literal_of(text);
    Number {
        place,
        size: literal.size,
        signed: literal.signed,
        value: literal.value,
    }
}
