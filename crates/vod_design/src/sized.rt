//! Expressions with the size and sign at which each part is evaluated (IEEE 1364-2005, clause 5).
ghost use Rattle.std.specs.Prelude.{◌≡◌, List, All};
ghost use Rattle.vod_bits.specs.Bit.{Bit};
ghost use Rattle.vod_design.specs.declared.statement.Function.{Function};
ghost use Rattle.vod_design.specs.Values.{Values, Frame};
ghost use Rattle.vod_design.specs.Run.{eval};
ghost use Rattle.vod_design.specs.Reads.{reads, Agree};
ghost use Rattle.vod_design.specs.Source.{unplaced};

use sqlite_items::{Boxed, Items};
use vod_bits::Bits;

/// What holds a value: a signal of the design by its number, or an input, a local or the result of a function, by its place
/// among these in this order (4.2, 10.4.1).
#[derive(Clone, Copy)]
pub enum Variable {
    Signal(u32),
    Local(u32),
}

/// What a name stands for.
#[derive(Clone, Copy)]
pub enum Named {
    Variable(Variable),
    Constant(Bits),
}

/// A memory as an expression sees it: its number, and how many bits each of its words has (4.9).
#[derive(Clone, Copy)]
pub struct NamedMemory {
    pub number: u32,
    pub width: u8,
}

/// An operator on one operand that has the operator's own size (5.1.5, 5.1.10).
#[derive(Clone, Copy, PartialEq, Eq)]
pub enum UnaryOp {
    /// `-`
    Minus,
    /// `~`
    Not,
}

/// An operator on two operands that have the operator's own size (5.1.5, 5.1.10).
#[derive(Clone, Copy, PartialEq, Eq)]
pub enum BinaryOp {
    /// `+`
    Add,
    /// `-`
    Sub,
    /// `*`
    Mul,
    /// `&`
    And,
    /// `|`
    Or,
    /// `^`
    Xor,
    /// `~^` and `^~`
    Xnor,
}

/// A comparison of two operands, which take the larger size of the two (5.1.7, 5.1.8).
#[derive(Clone, Copy, PartialEq, Eq)]
pub enum ComparisonOp {
    /// `<`
    Less,
    /// `<=`
    LessEqual,
    /// `>`
    Greater,
    /// `>=`
    GreaterEqual,
    /// `==`
    Equal,
    /// `!=`
    NotEqual,
    /// `===`
    CaseEqual,
    /// `!==`
    CaseNotEqual,
}

/// An operator on truths (5.1.9).
#[derive(Clone, Copy, PartialEq, Eq)]
pub enum LogicalOp {
    /// `&&`
    And,
    /// `||`
    Or,
}

/// A reduction of all bits to one (5.1.11).
#[derive(Clone, Copy, PartialEq, Eq)]
pub enum ReductionOp {
    /// `&`
    And,
    /// `~&`
    Nand,
    /// `|`
    Or,
    /// `~|`
    Nor,
    /// `^`
    Xor,
    /// `~^` and `^~`
    Xnor,
}

/// A shift (5.1.12).
#[derive(Clone, Copy, PartialEq, Eq)]
pub enum ShiftOp {
    /// `<<` and `<<<`
    Left,
    /// `>>`
    Right,
    /// `>>>`: copies of the upper bit move in where the result is signed
    ArithmeticRight,
}

/// A gate (7.2, 7.3).
#[derive(Clone, Copy, PartialEq, Eq)]
pub enum GateOp {
    And,
    Nand,
    Or,
    Nor,
    Xor,
    Xnor,
    Buf,
    Not,
}

/// An expression: the place of its first token, as a byte offset in the source, and the size in bits and the sign at which it is
/// evaluated. A size is from 1 to `WIDTH`; one outside counts as the nearest of these.
#[cycle(sized)]
#[derive(Drop)]
pub struct SizedExpr {
    pub place: u32,
    pub width: u8,
    pub signed: bool,
    pub kind: SizedKind,
}

/// The kinds of expressions.
#[cycle(sized)]
#[derive(Drop)]
pub enum SizedKind {
    /// A number (3.5.1).
    Number(Bits),
    /// The whole value of a name (5.2).
    Name(Named),
    /// A constant select: the lower place, counted from the lowest bit, and how many bits (5.2.1).
    Select(Named, u8, u8),
    /// A bit select by a value: the index of the lowest bit, and the index (5.2.1).
    Index(Named, u16, Boxed<SizedExpr>),
    /// A word of a memory at a constant index: the memory, and the word's place from the least index up (5.2.2).
    Word(NamedMemory, u16),
    /// A word by a value: the memory, its least index, and the index (5.2.2).
    WordIndex(NamedMemory, u16, Boxed<SizedExpr>),
    /// `-` and `~`
    Unary(UnaryOp, Boxed<SizedExpr>),
    /// `+ - * & | ^ ~^`
    Binary(BinaryOp, Boxed<SizedExpr>, Boxed<SizedExpr>),
    /// `< <= > >= == != === !==`
    Comparison(ComparisonOp, Boxed<SizedExpr>, Boxed<SizedExpr>),
    /// `!`
    LogicalNot(Boxed<SizedExpr>),
    /// `&& ||`
    Logical(LogicalOp, Boxed<SizedExpr>, Boxed<SizedExpr>),
    /// The reductions.
    Reduction(ReductionOp, Boxed<SizedExpr>),
    /// `<< >> <<< >>>`: the value and the amount.
    Shift(ShiftOp, Boxed<SizedExpr>, Boxed<SizedExpr>),
    /// `?:`: the test and the branches (5.1.13).
    Conditional(Boxed<SizedExpr>, Boxed<SizedExpr>, Boxed<SizedExpr>),
    /// `{ }`, from the upper part on (5.1.14).
    Concat(Items<SizedExpr>),
    /// `{n{ }}`: how often, and the concatenation (5.1.14).
    Replicate(u8, Boxed<SizedExpr>),
    /// A call of a function by its number, with its arguments (10.4.3).
    Call(u32, Items<SizedExpr>),
    /// A gate, with its inputs, each of one bit (7.2, 7.3).
    Gate(GateOp, Items<SizedExpr>),
}

/// An expression's value hangs on what it reads alone, whatever stands for a bit that isn't there: the values of a function's
/// variables aside, two environments that agree on that give it one value.
pub fn value_hangs_on_reads()
    ensures { (fill : Bit) (functions : List Function) (u v : Values) (frame : Frame) (e : SizedExpr) → All (Agree fill u v) (reads e) → eval fill functions u frame e ≡ eval fill functions v frame e }
{}

/// An expression's value doesn't hang on places, whatever stands for a bit that isn't there: two expressions that are equal but for
/// these have one value.
pub fn value_forgets_places()
    ensures { (fill : Bit) (functions : List Function) (values : Values) (frame : Frame) (a b : SizedExpr) → unplaced a ≡ unplaced b → eval fill functions values frame a ≡ eval fill functions values frame b }
{}
