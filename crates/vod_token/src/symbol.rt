//! Symbols.

ghost use Rattle.std.specs.Prelude.{◌≡◌, ◌≤◌, ◌∷◌, [], take, length};
ghost use Rattle.vod_token.specs.Word.{is_among};
ghost use Rattle.vod_token.specs.Form.{operators, marks};
ghost use Rattle.vod_token.specs.Scan.{is_symbol, symbol_len};

// How long the longest symbol at the front is, 0 where there is none.
pub(crate) fn symbol_len(bytes: &[u8]) -> usize
    ensures value { result ≡ symbol_len bytes.now }
    ensures within { result ≤ length bytes.now }
{
    let three = front(bytes, 3);
    if is_symbol(three) {
        return three.len();
    }
    let two = front(bytes, 2);
    if is_symbol(two) {
        return two.len();
    }
    let one = front(bytes, 1);
    if is_symbol(one) { one.len() } else { 0 }
}

// At most so many bytes from the front.
fn front(bytes: &[u8], most: usize) -> &[u8]
    ensures { result.now ≡ take most bytes.now }
{
    &bytes[..most.min(bytes.len())]
}

fn is_symbol(text: &[u8]) -> bool
    ensures { result ≡ is_symbol text.now }
{
    is_operator(text) || is_mark(text)
}

// Whether a text is an operator: by its length, and then by its first byte.
pub(crate) fn is_operator(text: &[u8]) -> bool
    ensures { result ≡ is_among operators text.now }
{
    match text {
        [a] => is_operator_of_one(*a),
        [a, b] => is_operator_of_two(*a, *b),
        [a, b, c] => is_operator_of_three(*a, *b, *c),
        _ => false,
    }
}

fn is_operator_of_one(a: u8) -> bool
    ensures { result ≡ is_among operators (a ∷ []) }
{
    matches!(
        a,
        b'+' | b'-' | b'*' | b'!' | b'~' | b'&' | b'|' | b'^' | b'<' | b'>' | b'?'
    )
}

fn is_operator_of_two(a: u8, b: u8) -> bool
    ensures { result ≡ is_among operators (a ∷ b ∷ []) }
{
    match a {
        b'=' | b'!' => b == b'=',
        b'<' => b == b'=' || b == b'<',
        b'>' => b == b'=' || b == b'>',
        b'&' => b == b'&',
        b'|' => b == b'|',
        b'~' => b == b'&' || b == b'|' || b == b'^',
        b'^' => b == b'~',
        _ => false,
    }
}

fn is_operator_of_three(a: u8, b: u8, c: u8) -> bool
    ensures { result ≡ is_among operators (a ∷ b ∷ c ∷ []) }
{
    match a {
        b'=' | b'!' => b == b'=' && c == b'=',
        b'<' => b == b'<' && c == b'<',
        b'>' => b == b'>' && c == b'>',
        _ => false,
    }
}

fn is_mark(text: &[u8]) -> bool
    ensures { result ≡ is_among marks text.now }
{
    match text {
        [a] => is_mark_of_one(*a),
        _ => false,
    }
}

fn is_mark_of_one(a: u8) -> bool
    ensures { result ≡ is_among marks (a ∷ []) }
{
    matches!(
        a,
        b':' | b'=' | b'(' | b')' | b'[' | b']' | b'{' | b'}' | b',' | b';' | b'.' | b'#' | b'@'
    )
}
