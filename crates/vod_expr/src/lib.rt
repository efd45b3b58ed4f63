//! The expressions of a source, read from its tokens (IEEE 1364-2005, clause 5).
#![tactic(auto)]

mod read;

ghost use Rattle.std.specs.Prelude.{◌≡◌, ◌≤◌, ◌<◌, ◌∷◌, ◌++◌, List, ℕ, length, drop, All, Ok, Err, MatchResult};
ghost use Rattle.vod_token.specs.Span.{IsTokenOf};
ghost use Rattle.vod_token.specs.declared.Token.{Token};
ghost use Rattle.vod_tree.specs.declared.expr.Expr.{Expr};
ghost use Rattle.vod_expr.specs.Answer.{BeginsNone, EndsExpr, IsRead, IsRefused, expr_len, expr_read, fault_at};
ghost use Rattle.vod_expr.specs.Grammar.{Lexeme, Begins, IsExpr, IsLexeme, IsLongest, lexemes};
ghost use Rattle.vod_expr.specs.declared.ParseFault.{ParseFault};

pub use read::read_expr;
use std::alloc::AllocError;
use std::fmt;
use vod_token::one_literal;

/// Why tokens are no expression or no source.
#[derive(Clone, Copy, Debug, PartialEq, Eq)]
pub enum ParseFault {
    /// The place of the first token with which no sentence goes on.
    At(u32),
    /// The tokens end where the sentence does not.
    End,
    /// The place of a statement that is nested too deep.
    Statement(u32),
    /// Memory ran out.
    Memory,
}

impl From<AllocError> for ParseFault {
    ghost use Rattle.vod_expr.specs.declared.ParseFault.TheVariants.{Memory};

    ghost from_gives = { λ _ e. e ≡ Memory };

    fn from(_: AllocError) -> ParseFault {
        ParseFault::Memory
    }
}

impl fmt::Display for ParseFault {
    fn fmt<W: fmt::Write>(&self, f: &mut fmt::Formatter<W>) -> fmt::Result {
        match self {
            ParseFault::At(place) => write!(f, "this token may not stand here: byte {}", place),
            ParseFault::End => f.write_str("the source ends too early"),
            ParseFault::Statement(place) => write!(
                f,
                "statements are nested deeper than 64 levels at byte {}",
                place
            ),
            ParseFault::Memory => f.write_str("there was no memory"),
        }
    }
}

impl std::error::Error for ParseFault {}

/// Tokens are an expression with one tree at most.
pub fn one_tree()
    ensures { (ts : List Lexeme) (a b : Expr) → IsExpr 0 ts a → IsExpr 0 ts b → a ≡ b }
{
    // A number has one literal that it stands for.
    one_literal();
}

/// Tokens have one longest front that begins an expression, at most.
pub fn one_longest()
    ensures { (ts : List Lexeme) (n m : ℕ) → IsLongest ts n → IsLongest ts m → n ≡ m }
{}

/// An expression is read whole before a token with which none goes on: one that is no operator between operands, nor `?`, `[`
/// or `(`.
pub fn read_before()
    ensures { (ts us : List Lexeme) (t : Lexeme) (tree : Expr) → IsExpr 0 ts tree → EndsExpr t → IsRead (ts ++ t ∷ us) (length ts) tree }
{
    // A number has one literal that it stands for.
    one_literal();
}

/// Each list of tokens has one answer, and it is right: the tree of the longest front with which some expression begins and
/// the number of its tokens, which is at least 1; or, where that front is no expression, the fault at the token behind it.
pub fn one_answer()
    ensures right { (ts : List Lexeme) → All IsLexeme ts →
        MatchResult (expr_read ts) (λ read. IsRead ts read.1 read.0) (λ fault. IsRefused ts fault) }
    ensures longest { (ts : List Lexeme) → All IsLexeme ts → IsLongest ts (expr_len ts) }
    ensures place { (ts : List Lexeme) → MatchResult (expr_read ts) (λ read. read.1 ≡ expr_len ts) (λ fault. fault ≡ fault_at (drop (expr_len ts) ts)) }
    ensures within { (ts : List Lexeme) → expr_len ts ≤ length ts }
    ensures some { (ts : List Lexeme) (tree : Expr) (n : ℕ) → expr_read ts ≡ Ok (tree, n) → 0 < n }
{
    // A number has one literal that it stands for.
    one_literal();
}

/// The answer on an expression that stands at the end, or before a token with which none goes on, is that expression.
pub fn answer_before()
    ensures last { (ts : List Lexeme) (tree : Expr) → IsExpr 0 ts tree → expr_read ts ≡ Ok (tree, length ts) }
    ensures before { (ts us : List Lexeme) (t : Lexeme) (tree : Expr) → IsExpr 0 ts tree → EndsExpr t → expr_read (ts ++ t ∷ us) ≡ Ok (tree, length ts) }
{
    // A number has one literal that it stands for.
    one_literal();
}

/// An answer hangs on the tokens taken and the one behind them, and on no further one.
pub fn one_ahead()
    ensures len { (front rest other : List Lexeme) (t : Lexeme) → expr_len (front ++ t ∷ rest) ≡ length front → expr_len (front ++ t ∷ other) ≡ length front }
    ensures answer { (front rest other : List Lexeme) (t : Lexeme) → expr_len (front ++ t ∷ rest) ≡ length front → expr_read (front ++ t ∷ other) ≡ expr_read (front ++ t ∷ rest) }
{}

/// No expression begins with a token that is no name, number, operator before a primary, `(` or `{`, and it is refused.
pub fn none_begins()
    ensures none { (t : Lexeme) (ts : List Lexeme) → BeginsNone t → Begins (t ∷ ts) → ⊥ }
    ensures refused { (t : Lexeme) (ts : List Lexeme) → BeginsNone t → expr_read (t ∷ ts) ≡ Err (ParseFault.At t.place) }
{
    // A number has one literal that it stands for.
    one_literal();
}

/// What these laws ask of tokens holds of those of a source.
pub fn source_lexemes()
    ensures { (source : List ℕ) (ts : List Token) → All (IsTokenOf source) ts → All IsLexeme (lexemes source ts) }
{}
