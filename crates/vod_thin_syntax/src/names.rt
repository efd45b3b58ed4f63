//! What the names of a sentence are.
ghost use Rattle.std.specs.Prelude.{◌≡◌, ◌≤◌, ℕ, List, None, All, length};
ghost use Rattle.vod_token.specs.declared.Token.{Token};
ghost use Rattle.vod_thin_syntax.specs.Limit.{limit_of};
ghost use Rattle.vod_thin_syntax.specs.Names.{names_of, input_ports, IsIdentifier, IsShort};
ghost use Rattle.vod_thin_syntax.specs.Refusal.{Reads};
ghost use Rattle.vod_thin_syntax.specs.Syntax as tree;
ghost use Rattle.vod_thin_syntax.specs.Syntax.{Value};

/// The names of a sentence are identifiers that aren't reserved, of at most 1,024 bytes where no limit is passed.
pub fn names_are_identifiers()
    ensures plain { (source : List ℕ) (ts : List Token) (m : tree.Module Value) →
        Reads source ts m → All IsIdentifier (names_of m) }
    ensures short { (source : List ℕ) (ts : List Token) (m : tree.Module Value) →
        Reads source ts m → limit_of source ts ≡ None → All IsShort (names_of m) }
{}

/// A sentence has at most 256 inputs where no limit is passed.
pub fn inputs_are_few()
    ensures { (source : List ℕ) (ts : List Token) (m : tree.Module Value) →
        Reads source ts m → limit_of source ts ≡ None → length (input_ports m.ports) ≤ 256 }
{}
