//! Texts that are cut at a byte.

ghost use Rattle.std.specs.Prelude.{◌≡◌, ◌==◌, [], ◌∷◌, ◌++◌, position, MatchOption};
ghost use Rattle.vod_thin_script.specs.Pieces.{Lacks, StopsAt};

/// What stands before the first such byte, and the rest from this byte on.
pub fn cut(text: &[u8], byte: u8) -> (&[u8], &[u8])
    ensures whole { text.now ≡ result.0.now ++ result.1.now }
    ensures before { Lacks byte result.0.now }
    ensures from { StopsAt byte result.1.now }
{
    text.split_at(place(text, byte).unwrap_or(text.len()))
}

// The place of the first such byte.
fn place(text: &[u8], byte: u8) -> Option<usize>
    ensures { result ≡ position (λ b. b == byte) text.now }
{
    text.iter().position(|b| *b == byte)
}

/// What follows such a byte, where the text begins with one.
pub fn behind(text: &[u8], byte: u8) -> Option<&[u8]>
    ensures { MatchOption result (StopsAt byte text.now → text.now ≡ []) (λ rest. text.now ≡ byte ∷ rest.now) }
{
    match text {
        [first, rest @ ..] if *first == byte => Some(rest),
        _ => None,
    }
}
