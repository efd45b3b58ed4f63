//! The syntax trees of sources: what stands where, by the grammar's alternatives, with its parts in the order of the source.
//!
//! A place is the byte offset of a token. Each part has the place of its first token, a part that begins with a name has it
//! there. Contracts see a tree as plain data: lists, bytes and numbers.
#![tactic(auto)]

mod declaration;
mod expr;
mod ident;
mod instance;
mod module;
mod statement;

pub use declaration::{
    DeclaredPort, NetDeclaration, NetPort, ParameterDeclaration, ParameterPort, ParameterType,
    Ports, Range, RegDeclaration, RegPort, Register, Setting, TypedParameter, Value,
    VariableDeclaration,
};
pub use expr::{BinaryOp, Expr, ExprKind, UnaryOp};
pub use ident::{Ident, Name, Number};
pub use instance::{
    Arguments, Connections, Gate, GateKind, GateTerminals, Instance, Instances, NamedArgument,
    NamedConnection,
};
pub use module::{
    Directive, DirectiveKind, Function, FunctionDeclaration, FunctionInput, FunctionPort,
    FunctionVariables, Item, ItemKind, Module, NetType, SourceItem, Time, TimeCount, TimeUnit,
    Tree,
};
pub use statement::{
    Always, Assignment, CaseItem, CaseLabel, Edge, Event, ForLoop, InitialKind, InitialStatement,
    Lval, LvalKind, SecondEvent, Separator, Statement, StatementKind,
};

/// Lets go of a part of a tree. Its drop then stands here alone, and not in each function that gives a part up.
pub fn let_go<T: Drop>(_value: T) {}
