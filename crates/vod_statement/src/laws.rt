//! What the forms of left sides and statements keep.
ghost use Rattle.std.specs.Prelude.{◌≡◌, ◌≤◌, ◌⊎◌, ◌∷◌, ℕ, Bool, true, false, List, Option, length};
ghost use Rattle.vod_expr.specs.Grammar.{Lexeme};
ghost use Rattle.vod_tree.specs.declared.ident.Ident.{Ident};
ghost use Rattle.vod_tree.specs.declared.statement.Lval.{Lval};
ghost use Rattle.vod_tree.specs.declared.statement.Statement.{Statement};
ghost use Rattle.vod_grammar.specs.Form.{Sight};
ghost use Rattle.vod_grammar.specs.Laws.{Laws};
ghost use Rattle.vod_grammar.specs.Read.{passes};
ghost use Rattle.vod_grammar.specs.Words.{is_word};
ghost use Rattle.vod_grammar.specs.declared.word.Word.TheVariants.{Colon, OpenBracket};
ghost use Rattle.vod_statement.specs.Depth.{Below};
ghost use Rattle.vod_statement.specs.Label.{IsLabel, label_form};
ghost use Rattle.vod_statement.specs.LeftSide.{IsLval};
ghost use Rattle.vod_statement.specs.LeftSideForm.{lval_form, starts_lval};
ghost use Rattle.vod_statement.specs.StatementForm.{StatementPhrase, starts_statement, statement_form};
ghost use Rattle.vod_statement.specs.Statements.{IsStatement};
ghost use Rattle.vod_statement.specs.declared.context.Context.{Context};

use vod_expr::{answer_before, none_begins, one_answer};
use vod_grammar::phrases_are_exact;

/// Left sides are read exactly, and refused at the first token with which none goes on: the phrases of their form are the left
/// sides that no `[` follows. One that is nested too deep has as many tokens before it as the form has
/// levels. Each begins with `{` or a name.
pub fn left_sides_are_exact()
    ensures laws { (n : ℕ) → Laws (lval_form n) }
    ensures phrase { (n : ℕ) (m : Sight) (ts : List Lexeme) (x : Lval) (b : Option Lexeme) → (lval_form n).phrase m ts x b → IsLval ts x }
    ensures left_side { (n : ℕ) (m : Sight) (ts : List Lexeme) (x : Lval) (b : Option Lexeme) →
        passes (is_word OpenBracket) b ≡ false → IsLval ts x → (lval_form n).phrase m ts x b }
    ensures deep { (n : ℕ) (front : List Lexeme) (t : Lexeme) → (lval_form n).deep front t → n ≤ length front }
    ensures starts { (ts : List Lexeme) (x : Lval) → IsLval ts x → (t : Lexeme) × (us : List Lexeme) × (ts ≡ t ∷ us) × (starts_lval t ≡ true) }
{
    // Words, names and expressions are read exactly, of which the form is made.
    phrases_are_exact();
}

/// The name of a block, or nothing, is read exactly: the phrases of its form are these, where no `:` follows nothing. Nothing in
/// it is nested too deep.
pub fn block_names_are_exact()
    ensures laws { Laws label_form }
    ensures phrase { (m : Sight) (ts : List Lexeme) (x : Option Ident) (b : Option Lexeme) → label_form.phrase m ts x b → IsLabel ts x }
    ensures label { (m : Sight) (ts : List Lexeme) (x : Option Ident) (b : Option Lexeme) →
        passes (is_word Colon) b ≡ false → IsLabel ts x → label_form.phrase m ts x b }
    ensures shallow { (front : List Lexeme) (t : Lexeme) → label_form.deep front t → ⊥ }
{}

/// Statements are read exactly, and refused at the first token with which none goes on: the phrases of their form are the
/// statements, where no `else` follows one that ends in an `if` without `else`. One is nested too deep where a token begins it
/// as many levels below the first as the form has; or a left side is. It is told with which tokens statements begin.
pub fn statements_are_exact()
    ensures laws { (c : Context) (size n : ℕ) → Laws (statement_form c size n) }
    ensures phrase { (c : Context) (size n : ℕ) (m : Sight) (ts : List Lexeme) (x : Statement) (b : Option Lexeme) →
        (statement_form c size n).phrase m ts x b → StatementPhrase c m ts x b }
    ensures statement { (c : Context) (size n : ℕ) (m : Sight) (ts : List Lexeme) (x : Statement) (b : Option Lexeme) →
        StatementPhrase c m ts x b → (statement_form c size n).phrase m ts x b }
    ensures deep { (c : Context) (size n : ℕ) (front : List Lexeme) (t : Lexeme) → (statement_form c size n).deep front t →
        (Below c n front × (starts_statement t ≡ true)) ⊎ (size ≤ length front) }
    ensures below { (c : Context) (size n : ℕ) (front : List Lexeme) (t : Lexeme) → starts_statement t ≡ true → Below c n front →
        (statement_form c size n).deep front t }
    ensures starts { (c : Context) (open_ended : Bool) (ts : List Lexeme) (x : Statement) → IsStatement c open_ended ts x →
        (t : Lexeme) × (us : List Lexeme) × (ts ≡ t ∷ us) × (starts_statement t ≡ true) }
{
    // Words, names and expressions are read exactly, of which the form is made.
    phrases_are_exact();
    // An expression has one answer, and is read whole before a token that ends it; none begins with any other token.
    one_answer();
    answer_before();
    none_begins();
}
