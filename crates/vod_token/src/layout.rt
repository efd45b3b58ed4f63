//! White space and comments.

ghost use Rattle.std.specs.Prelude.{◌≡◌, ◌≤◌, ◌+◌, length, IfSome};
ghost use Rattle.vod_token.specs.Scan.{close_end, comment_len, layout_len};

use crate::bytes::{Class, is_white, run};

// How long the white space or the comment at the front is.
#[tactic(auto, unfolding(crate::specs::Scan::layout_len))]
pub(crate) fn layout_len(bytes: &[u8]) -> Option<usize>
    ensures value { result ≡ layout_len bytes.now }
    ensures within { IfSome result (λ len. len ≤ length bytes.now) }
{
    match bytes {
        [first, ..] if is_white(*first) => Some(1),
        [b'/', rest @ ..] => comment_len(rest),
        _ => None,
    }
}

// How long a comment is, from behind its first `/` on.
#[tactic(auto, unfolding(crate::specs::Scan::comment_len))]
fn comment_len(rest: &[u8]) -> Option<usize>
    ensures value { result ≡ comment_len rest.now }
    ensures within { IfSome result (λ len. len ≤ 1 + length rest.now) }
{
    match rest {
        [b'/', body @ ..] => Some(2 + run(Class::Line, body)),
        [b'*', body @ ..] => close_end(body).map(|end| 2 + end),
        _ => None,
    }
}

// Where the first `*/` ends.
fn close_end(body: &[u8]) -> Option<usize>
    ensures value { result ≡ close_end body.now }
    ensures within { IfSome result (λ end. end ≤ length body.now) }
{
    for i in 0..body.len() {
        if body[i] == b'*' && i + 1 < body.len() && body[i + 1] == b'/' {
            return Some(i + 2);
        }
    }
    None
}
