//! What the forms of parameters, ports, declarations and the headers of functions keep.
ghost use Rattle.std.specs.Prelude.{◌≡◌, true, false, List, Option, None};
ghost use Rattle.vod_expr.specs.Grammar.{Lexeme};
ghost use Rattle.vod_tree.specs.declared.declaration.ParameterPort.{ParameterPort};
ghost use Rattle.vod_tree.specs.declared.declaration.Ports.{Ports};
ghost use Rattle.vod_tree.specs.declared.declaration.Range.{Range};
ghost use Rattle.vod_tree.specs.declared.«module».FunctionDeclaration.{FunctionDeclaration};
ghost use Rattle.vod_tree.specs.declared.«module».FunctionInput.{FunctionInput};
ghost use Rattle.vod_tree.specs.declared.«module».ItemKind.{ItemKind};
ghost use Rattle.vod_grammar.specs.Form.{Sight};
ghost use Rattle.vod_grammar.specs.Laws.{Laws};
ghost use Rattle.vod_grammar.specs.Read.{first, passes};
ghost use Rattle.vod_grammar.specs.Words.{is_word};
ghost use Rattle.vod_grammar.specs.declared.word.Word.TheVariants.{OpenBracket, OpenParen};
ghost use Rattle.vod_declaration.specs.FlatLaws.{Shallow};
ghost use Rattle.vod_declaration.specs.Functions.{AreInputs, AreFunctionDeclarations};
ghost use Rattle.vod_declaration.specs.FunctionsForm.{function_declarations, function_inputs, starts_function_declaration};
ghost use Rattle.vod_declaration.specs.Items.{IsDeclaration};
ghost use Rattle.vod_declaration.specs.ItemsForm.{declaration_form, starts_declaration};
ghost use Rattle.vod_declaration.specs.Parameters.{AreParameterPorts};
ghost use Rattle.vod_declaration.specs.ParametersForm.{parameter_ports};
ghost use Rattle.vod_declaration.specs.Parts.{IsOptional};
ghost use Rattle.vod_declaration.specs.Ports.{IsPortList};
ghost use Rattle.vod_declaration.specs.PortsForm.{port_list};
ghost use Rattle.vod_declaration.specs.Ranges.{IsRange};
ghost use Rattle.vod_declaration.specs.RangesForm.{range_form};

use vod_grammar::phrases_are_exact;

/// A range is read exactly where `[` comes next, and refused at the first token with which none goes on; nothing in it is
/// nested too deep.
pub fn ranges_are_exact()
    ensures laws { Laws range_form }
    ensures phrase { (m : Sight) (ts : List Lexeme) (x : Option Range) (b : Option Lexeme) → range_form.phrase m ts x b → IsOptional IsRange ts x }
    ensures range { (m : Sight) (ts : List Lexeme) (x : Option Range) (b : Option Lexeme) →
        passes (is_word OpenBracket) b ≡ false → IsOptional IsRange ts x → range_form.phrase m ts x b }
    ensures shallow { Shallow range_form }
{
    // Words, names and expressions are read exactly, of which the form is made.
    phrases_are_exact();
}

/// The parameters of a module's header are read exactly, and refused at the first token with which none go on; nothing in them
/// is nested too deep.
pub fn parameters_are_exact()
    ensures laws { Laws parameter_ports }
    ensures phrase { (m : Sight) (ts : List Lexeme) (x : List ParameterPort) (b : Option Lexeme) → parameter_ports.phrase m ts x b → AreParameterPorts ts x }
    ensures parameters { (m : Sight) (ts : List Lexeme) (x : List ParameterPort) (b : Option Lexeme) → AreParameterPorts ts x → parameter_ports.phrase m ts x b }
    ensures shallow { Shallow parameter_ports }
{
    // Words, names and expressions are read exactly, of which the form is made.
    phrases_are_exact();
}

/// What stands behind a module's name and parameters is read exactly, where no `(` follows nothing, and refused at the first
/// token with which no ports go on; nothing in it is nested too deep.
pub fn ports_are_exact()
    ensures laws { Laws port_list }
    ensures phrase { (m : Sight) (ts : List Lexeme) (x : Ports) (b : Option Lexeme) → port_list.phrase m ts x b → IsPortList ts x }
    ensures ports { (m : Sight) (ts : List Lexeme) (x : Ports) (b : Option Lexeme) →
        passes (is_word OpenParen) b ≡ false → IsPortList ts x → port_list.phrase m ts x b }
    ensures shallow { Shallow port_list }
{
    // Words, names and expressions are read exactly, of which the form is made.
    phrases_are_exact();
}

/// A declaration is read exactly, and refused at the first token with which none goes on; it begins with one of seven words, and
/// nothing in it is nested too deep.
pub fn declarations_are_exact()
    ensures laws { Laws declaration_form }
    ensures phrase { (m : Sight) (ts : List Lexeme) (x : ItemKind) (b : Option Lexeme) → declaration_form.phrase m ts x b → IsDeclaration ts x }
    ensures declaration { (m : Sight) (ts : List Lexeme) (x : ItemKind) (b : Option Lexeme) → IsDeclaration ts x → declaration_form.phrase m ts x b }
    ensures starts { (ts : List Lexeme) (x : ItemKind) → IsDeclaration ts x → passes starts_declaration (first ts None) ≡ true }
    ensures shallow { Shallow declaration_form }
{
    // Words, names and expressions are read exactly, of which the form is made.
    phrases_are_exact();
}

/// The inputs of a function's header, or nothing, are read exactly, and so is what a function declares; they are refused at the
/// first token with which none go on, and nothing in them is nested too deep.
pub fn function_headers_are_exact()
    ensures input_laws { Laws function_inputs }
    ensures input_phrase { (m : Sight) (ts : List Lexeme) (x : Option (List FunctionInput)) (b : Option Lexeme) → function_inputs.phrase m ts x b → IsOptional AreInputs ts x }
    ensures inputs { (m : Sight) (ts : List Lexeme) (x : Option (List FunctionInput)) (b : Option Lexeme) →
        passes (is_word OpenParen) b ≡ false → IsOptional AreInputs ts x → function_inputs.phrase m ts x b }
    ensures input_shallow { Shallow function_inputs }
    ensures laws { Laws function_declarations }
    ensures phrase { (m : Sight) (ts : List Lexeme) (x : List FunctionDeclaration) (b : Option Lexeme) → function_declarations.phrase m ts x b → AreFunctionDeclarations ts x }
    ensures declarations { (m : Sight) (ts : List Lexeme) (x : List FunctionDeclaration) (b : Option Lexeme) →
        passes starts_function_declaration b ≡ false → AreFunctionDeclarations ts x → function_declarations.phrase m ts x b }
    ensures shallow { Shallow function_declarations }
{
    // Words, names and expressions are read exactly, of which the form is made.
    phrases_are_exact();
}
