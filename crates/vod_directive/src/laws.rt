//! What directives stand for, and what their form keeps.
ghost use Rattle.std.specs.Prelude.{◌≡◌, [], ◌∷◌, List, Option, ℕ};
ghost use Rattle.vod_expr.specs.Grammar.{Lexeme};
ghost use Rattle.vod_token.specs.Span.{IsTokenText};
ghost use Rattle.vod_token.specs.declared.TokenKind.TheVariants.{Directive};
ghost use Rattle.vod_tree.specs.declared.module.Directive.{Directive as DirectiveTree};
ghost use Rattle.vod_tree.specs.declared.module.DirectiveKind.{DirectiveKind};
ghost use Rattle.vod_grammar.specs.Form.{Sight};
ghost use Rattle.vod_grammar.specs.Laws.{Laws};
ghost use Rattle.vod_directive.specs.DirectiveForm.{directive_form};
ghost use Rattle.vod_directive.specs.Meaning.{IsDirective, StandsFor, directive_of};

/// A text that is spelled as a directive stands for one, which is its function's value. Directives are read exactly, and any
/// other token is refused: the phrases of their form are the directives. Nothing in them is nested too deep.
pub fn directives_are_exact()
    ensures stands { (text : List ℕ) → IsTokenText text Directive → StandsFor text (directive_of text) }
    ensures one { (text : List ℕ) (k : DirectiveKind) → StandsFor text k → directive_of text ≡ k }
    ensures laws { Laws directive_form }
    ensures phrase { (m : Sight) (ts : List Lexeme) (x : DirectiveTree) (b : Option Lexeme) → directive_form.phrase m ts x b → (t : Lexeme) × (ts ≡ t ∷ []) × IsDirective t x }
    ensures directive { (m : Sight) (t : Lexeme) (x : DirectiveTree) (b : Option Lexeme) → IsDirective t x → directive_form.phrase m (t ∷ []) x b }
    ensures shallow { (front : List Lexeme) (t : Lexeme) → directive_form.deep front t → ⊥ }
{}
