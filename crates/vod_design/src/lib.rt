//! Designs: what a simulation is of.
#![tactic(auto)]

mod design;
mod image;
mod parts;
mod read;
mod refusal;
mod sized;
mod statement;
mod vector;

pub use design::{Design, Draft, DriverForm, Drivers, Origins};
pub use image::{Edges, Image, Words, blank_image_fits};
pub use parts::{
    Assigns, Block, Driver, Edge, Initial, InitialAssign, InitialTarget, Input, Name, Precision,
    Ram, Scope, Signal, Unit,
};
pub use read::Read;
pub use refusal::{Memory, Rule, Which};
pub use sized::{
    BinaryOp, ComparisonOp, GateOp, LogicalOp, Named, NamedMemory, ReductionOp, ShiftOp, SizedExpr,
    SizedKind, UnaryOp, Variable, value_forgets_places, value_hangs_on_reads,
};
pub use statement::{
    Body, CaseItem, Function, Locals, Part, PartTarget, Place, Places, Size, Statement, Target,
    run_forgets_places,
};
pub use vector::{Class, Move, Moves, Vector, one_more_is_lawful};
