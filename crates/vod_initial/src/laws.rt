//! What the form of the statements of an `initial` keeps.
ghost use Rattle.std.specs.Prelude.{◌≡◌, ◌∷◌, ℕ, true, List, Option};
ghost use Rattle.vod_expr.specs.Grammar.{Lexeme};
ghost use Rattle.vod_tree.specs.declared.statement.InitialStatement.{InitialStatement};
ghost use Rattle.vod_grammar.specs.Form.{Sight};
ghost use Rattle.vod_grammar.specs.Laws.{Laws};
ghost use Rattle.vod_initial.specs.Depth.{Below};
ghost use Rattle.vod_initial.specs.Initial.{IsInitial};
ghost use Rattle.vod_initial.specs.InitialForm.{initial_form, starts_initial};

use vod_grammar::phrases_are_exact;

/// Statements of an `initial` are read exactly, and refused at the first token with which none goes on: the phrases of their
/// form are these statements, whatever follows. One is nested too deep exactly where a token begins it as many levels below
/// the first as the form has. It is told with which tokens they begin.
pub fn initial_statements_are_exact()
    ensures laws { (n : ℕ) → Laws (initial_form n) }
    ensures phrase { (n : ℕ) (m : Sight) (ts : List Lexeme) (x : InitialStatement) (b : Option Lexeme) → (initial_form n).phrase m ts x b → IsInitial ts x }
    ensures statement { (n : ℕ) (m : Sight) (ts : List Lexeme) (x : InitialStatement) (b : Option Lexeme) → IsInitial ts x → (initial_form n).phrase m ts x b }
    ensures deep { (n : ℕ) (front : List Lexeme) (t : Lexeme) → (initial_form n).deep front t → Below n front × (starts_initial t ≡ true) }
    ensures below { (n : ℕ) (front : List Lexeme) (t : Lexeme) → starts_initial t ≡ true → Below n front → (initial_form n).deep front t }
    ensures starts { (ts : List Lexeme) (x : InitialStatement) → IsInitial ts x → (t : Lexeme) × (us : List Lexeme) × (ts ≡ t ∷ us) × (starts_initial t ≡ true) }
{
    // Words, names and expressions are read exactly, of which the form is made.
    phrases_are_exact();
}
