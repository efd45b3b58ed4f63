//! What the forms of gates and instances keep.
ghost use Rattle.std.specs.Prelude.{◌≡◌, [], ◌∷◌, true, false, List, Option};
ghost use Rattle.vod_expr.specs.Grammar.{Lexeme, IsName};
ghost use Rattle.vod_tree.specs.declared.instance.Gate.{Gate};
ghost use Rattle.vod_tree.specs.declared.instance.GateKind.{GateKind};
ghost use Rattle.vod_tree.specs.declared.instance.Instances.{Instances};
ghost use Rattle.vod_grammar.specs.Form.{Sight};
ghost use Rattle.vod_grammar.specs.Laws.{Laws, Begun};
ghost use Rattle.vod_grammar.specs.Words.{Is};
ghost use Rattle.vod_grammar.specs.declared.word.Word.{Word};
ghost use Rattle.vod_instance.specs.Gates.{IsGate, gate_word};
ghost use Rattle.vod_instance.specs.GatesForm.{gate_form, is_gate_word, starts_gate};
ghost use Rattle.vod_instance.specs.Instances.{AreInstances};
ghost use Rattle.vod_instance.specs.InstancesForm.{instances_form};

use vod_expr::{answer_before, none_begins, one_answer};
use vod_grammar::phrases_are_exact;

/// Gates are read exactly, and refused at the first token with which none goes on: the phrases of their form are the gates,
/// whatever follows. Each begins with the word of its kind, and each such word begins some; no other word does, and no name.
pub fn gates_are_exact()
    ensures laws { Laws gate_form }
    ensures phrase { (m : Sight) (ts : List Lexeme) (x : Gate) (b : Option Lexeme) → gate_form.phrase m ts x b → IsGate ts x }
    ensures gate { (m : Sight) (ts : List Lexeme) (x : Gate) (b : Option Lexeme) → IsGate ts x → gate_form.phrase m ts x b }
    ensures shallow { (front : List Lexeme) (t : Lexeme) → gate_form.deep front t → ⊥ }
    ensures first { (ts : List Lexeme) (x : Gate) → IsGate ts x → (t : Lexeme) × (us : List Lexeme) × (ts ≡ t ∷ us) × Is (gate_word x.kind) t }
    ensures starts { (k : GateKind) (t : Lexeme) → Is (gate_word k) t → starts_gate t ≡ true }
    ensures word { (t : Lexeme) → starts_gate t ≡ true → (k : GateKind) × Is (gate_word k) t }
    ensures begins { (t : Lexeme) → starts_gate t ≡ true → Begun gate_form.phrase (t ∷ []) }
    ensures other { (w : Word) (t : Lexeme) → Is w t → starts_gate t ≡ is_gate_word w }
    ensures name { (t : Lexeme) → IsName t → starts_gate t ≡ false }
{
    // Words, names and expressions are read exactly, of which the form is made.
    phrases_are_exact();
}

/// Instances are read exactly, and refused at the first token with which none goes on: the phrases of their form are the
/// instances, whatever follows. Each begins with a name, and each name begins some.
pub fn instances_are_exact()
    ensures laws { Laws instances_form }
    ensures phrase { (m : Sight) (ts : List Lexeme) (x : Instances) (b : Option Lexeme) → instances_form.phrase m ts x b → AreInstances ts x }
    ensures instances { (m : Sight) (ts : List Lexeme) (x : Instances) (b : Option Lexeme) → AreInstances ts x → instances_form.phrase m ts x b }
    ensures shallow { (front : List Lexeme) (t : Lexeme) → instances_form.deep front t → ⊥ }
    ensures first { (ts : List Lexeme) (x : Instances) → AreInstances ts x → (t : Lexeme) × (us : List Lexeme) × (ts ≡ t ∷ us) × IsName t }
    ensures begins { (t : Lexeme) → IsName t → Begun instances_form.phrase (t ∷ []) }
{
    // Words, names and expressions are read exactly, of which the form is made.
    phrases_are_exact();
    // An expression has one answer, and is read whole before a token that ends it; none begins with any other token.
    one_answer();
    answer_before();
    none_begins();
}
