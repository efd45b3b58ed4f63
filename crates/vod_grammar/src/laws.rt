//! What the forms of words, names, numbers and expressions keep.
ghost use Rattle.std.specs.Prelude.{◌≡◌, true, false, List, Option, Some, None};
ghost use Rattle.vod_expr.specs.Grammar.{Lexeme, AreExprs, IsExpr};
ghost use Rattle.vod_tree.specs.declared.expr.Expr.{Expr};
ghost use Rattle.vod_tree.specs.declared.ident.Ident.{Ident};
ghost use Rattle.vod_grammar.specs.ExpressionLaws.{closes};
ghost use Rattle.vod_grammar.specs.Form.{Sight, word_form, name_form, number_form, expression_form, separated, ExpressionPhrase, NamePhrase};
ghost use Rattle.vod_grammar.specs.Laws.{Laws};
ghost use Rattle.vod_grammar.specs.ListLaws.{Commas};
ghost use Rattle.vod_grammar.specs.Words.{Is, is_word, spelling};
ghost use Rattle.vod_grammar.specs.declared.word.Word.{Word};
ghost use Rattle.vod_grammar.specs.declared.word.Word.TheVariants.{Comma};

use vod_expr::{answer_before, one_ahead, one_answer};
use vod_token::one_literal;

/// Words, names, numbers and expressions are read exactly, and refused at the first token with which none goes on. An
/// expression is read whole at the end, and before `)`, `]`, `,`, `:` and `;`.
pub fn phrases_are_exact()
    ensures word { (w : Word) → Laws (word_form w) }
    ensures name { Laws name_form }
    ensures number { Laws number_form }
    ensures expression { Laws expression_form }
    ensures last { (m : Sight) (ts : List Lexeme) (x : Expr) → IsExpr 0 ts x → ExpressionPhrase m ts x None }
    ensures before { (m : Sight) (ts : List Lexeme) (x : Expr) (w : Word) (t : Lexeme) → IsExpr 0 ts x → Is w t → closes (spelling w) ≡ true →
        ExpressionPhrase m ts x (Some t) }
{
    // An expression has one answer, which is right; it is read whole at the end or before a token that ends it, and hangs on one
    // token behind it. A number has one literal that it stands for.
    one_answer();
    answer_before();
    one_ahead();
    one_literal();
}

/// Lists of names and of expressions, with `,` between, are read exactly, and refused at the first token with which none goes on:
/// the phrases of their forms are these lists, of expressions before `)`, `]`, `:` and `;`.
pub fn lists_are_exact()
    ensures name_laws { Laws (separated name_form) }
    ensures names { (m : Sight) (ts : List Lexeme) (xs : List Ident) (b : Option Lexeme) → (separated name_form).phrase m ts xs b → Commas NamePhrase m ts xs b }
    ensures of_names { (m : Sight) (ts : List Lexeme) (xs : List Ident) (b : Option Lexeme) → Commas NamePhrase m ts xs b → (separated name_form).phrase m ts xs b }
    ensures expression_laws { Laws (separated expression_form) }
    ensures expressions { (m : Sight) (ts : List Lexeme) (xs : List Expr) (b : Option Lexeme) → (separated expression_form).phrase m ts xs b → AreExprs ts xs }
    ensures of_expressions { (m : Sight) (ts : List Lexeme) (xs : List Expr) (w : Word) (t : Lexeme) → Is w t → closes (spelling w) ≡ true → is_word Comma t ≡ false →
        AreExprs ts xs → (separated expression_form).phrase m ts xs (Some t) }
{
    // Names and expressions are read exactly, of which the lists are made.
    phrases_are_exact();
}
