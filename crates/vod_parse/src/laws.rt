//! What the form of sources keeps.
ghost use Rattle.std.specs.Prelude.{◌≡◌, ◌≤◌, ◌⊎◌, [], ℕ, List, Option, None, length};
ghost use Rattle.vod_tree.specs.declared.«module».Tree.{Tree};
ghost use Rattle.vod_expr.specs.Grammar.{Lexeme};
ghost use Rattle.vod_grammar.specs.Form.{Sight, Before};
ghost use Rattle.vod_grammar.specs.Laws.{Laws};
ghost use Rattle.vod_grammar.specs.Read.{first};
ghost use Rattle.vod_parse.specs.Depth.{IsTooDeep};
ghost use Rattle.vod_parse.specs.Modules.{IsSource};
ghost use Rattle.vod_parse.specs.ModulesForm.{source_form};

use vod_declaration::{
    declarations_are_exact, function_headers_are_exact, parameters_are_exact, ports_are_exact,
    ranges_are_exact,
};
use vod_directive::directives_are_exact;
use vod_grammar::phrases_are_exact;
use vod_initial::initial_statements_are_exact;
use vod_instance::{gates_are_exact, instances_are_exact};
use vod_statement::{left_sides_are_exact, statements_are_exact};

/// Sources are read exactly, up to the end, and refused at the first token with which none goes on: the phrases of their form are
/// the sources. A statement is nested too deep where it begins 64 levels below that of an item; or else more `{` are nested than
/// the form has levels.
pub fn sources_are_exact()
    ensures laws { (size : ℕ) → Laws (source_form size) }
    ensures phrase { (size : ℕ) (m : Sight) (ts : List Lexeme) (x : Tree) (b : Option Lexeme) → (source_form size).phrase m ts x b → IsSource ts x }
    ensures source { (size : ℕ) (ts : List Lexeme) (x : Tree) → IsSource ts x → (source_form size).phrase Before ts x None }
    ensures ends { (size : ℕ) (ts : List Lexeme) (x : Tree) (rest : List Lexeme) → (source_form size).phrase Before ts x (first rest None) → rest ≡ [] }
    ensures deep { (size : ℕ) (front : List Lexeme) (t : Lexeme) → (source_form size).deep front t → IsTooDeep front t ⊎ (size ≤ length front) }
    ensures below { (size : ℕ) (front : List Lexeme) (t : Lexeme) → IsTooDeep front t → (source_form size).deep front t }
{
    // The forms of which that of sources is made are read exactly: each crate below says so of its own.
    phrases_are_exact();
    left_sides_are_exact();
    statements_are_exact();
    initial_statements_are_exact();
    ranges_are_exact();
    function_headers_are_exact();
    declarations_are_exact();
    parameters_are_exact();
    ports_are_exact();
    gates_are_exact();
    instances_are_exact();
    directives_are_exact();
}
