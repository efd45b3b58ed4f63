//! The value of a sized expression, as the definition *eval* of `vod_design` gives it, of either kind of value, and
//! what the statements of blocks ask; beside it the operators, for other forms of expressions. Nothing here takes memory: the variables of functions that are called stand in room that the
//! caller hands in.
#![tactic(auto)]

mod bits;
mod block;
mod eval;
mod labels;
mod ops;
mod reads;
mod room;
mod scene;
mod table;

pub use bits::{at_size, bit_at_place, bounded, index_place, select, unknown};
pub use block::{is_taken, item_taken, part_value, resolve};
pub use eval::value_of;
pub use ops::{
    binary, compared, gate_output, gate_start, gate_table, logical, reduction, shifted, unary,
};
pub use reads::add_reads;
pub use room::{call_rooms, expr_room, statement_room};
pub use table::{Lists, Tables};
