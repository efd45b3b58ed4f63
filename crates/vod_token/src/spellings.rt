//! How the reserved words and the symbols that readers ask for are spelled (IEEE 1364-2005, 2.5 and 3.7.2).

// The reserved words.

/// The reserved word `always`.
pub const ALWAYS: &str = "always";
/// The reserved word `and`.
pub const AND: &str = "and";
/// The reserved word `assign`.
pub const ASSIGN: &str = "assign";
/// The reserved word `automatic`.
pub const AUTOMATIC: &str = "automatic";
/// The reserved word `begin`.
pub const BEGIN: &str = "begin";
/// The reserved word `buf`.
pub const BUF: &str = "buf";
/// The reserved word `case`.
pub const CASE: &str = "case";
/// The reserved word `default`.
pub const DEFAULT: &str = "default";
/// The reserved word `else`.
pub const ELSE: &str = "else";
/// The reserved word `end`.
pub const END: &str = "end";
/// The reserved word `endcase`.
pub const ENDCASE: &str = "endcase";
/// The reserved word `endfunction`.
pub const ENDFUNCTION: &str = "endfunction";
/// The reserved word `endmodule`.
pub const ENDMODULE: &str = "endmodule";
/// The reserved word `for`.
pub const FOR: &str = "for";
/// The reserved word `function`.
pub const FUNCTION: &str = "function";
/// The reserved word `if`.
pub const IF: &str = "if";
/// The reserved word `initial`.
pub const INITIAL: &str = "initial";
/// The reserved word `input`.
pub const INPUT: &str = "input";
/// The reserved word `integer`.
pub const INTEGER: &str = "integer";
/// The reserved word `localparam`.
pub const LOCALPARAM: &str = "localparam";
/// The reserved word `module`.
pub const MODULE: &str = "module";
/// The reserved word `nand`.
pub const NAND: &str = "nand";
/// The reserved word `negedge`.
pub const NEGEDGE: &str = "negedge";
/// The reserved word `nor`.
pub const NOR: &str = "nor";
/// The reserved word `not`.
pub const NOT: &str = "not";
/// The reserved word `or`.
pub const OR: &str = "or";
/// The reserved word `output`.
pub const OUTPUT: &str = "output";
/// The reserved word `parameter`.
pub const PARAMETER: &str = "parameter";
/// The reserved word `posedge`.
pub const POSEDGE: &str = "posedge";
/// The reserved word `reg`.
pub const REG: &str = "reg";
/// The reserved word `signed`.
pub const SIGNED: &str = "signed";
/// The reserved word `wire`.
pub const WIRE: &str = "wire";
/// The reserved word `xnor`.
pub const XNOR: &str = "xnor";
/// The reserved word `xor`.
pub const XOR: &str = "xor";

// The marks.

/// The mark `:`.
pub const COLON: &str = ":";
/// The mark `=`.
pub const EQUALS: &str = "=";
/// The mark `(`.
pub const OPEN_PAREN: &str = "(";
/// The mark `)`.
pub const CLOSE_PAREN: &str = ")";
/// The mark `[`.
pub const OPEN_BRACKET: &str = "[";
/// The mark `]`.
pub const CLOSE_BRACKET: &str = "]";
/// The mark `{`.
pub const OPEN_BRACE: &str = "{";
/// The mark `}`.
pub const CLOSE_BRACE: &str = "}";
/// The mark `,`.
pub const COMMA: &str = ",";
/// The mark `;`.
pub const SEMICOLON: &str = ";";
/// The mark `.`.
pub const PERIOD: &str = ".";
/// The mark `#`.
pub const HASH: &str = "#";
/// The mark `@`.
pub const EVENT_CONTROL: &str = "@";

// The operators that stand in statements too.

/// The operator `<=`.
pub const LESS_EQUAL: &str = "<=";
/// The operator `+`.
pub const PLUS: &str = "+";
/// The operator `<`.
pub const LESS: &str = "<";
