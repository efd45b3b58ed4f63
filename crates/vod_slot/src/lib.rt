//! The event queue of whole designs: what its events do, and what holds in every order of them (IEEE 1364-2005, 11.3 and 11.4).
#![tactic(auto)]

mod event;
mod laws;

pub use crate::event::Event;
pub use crate::laws::{
    changes_wake_readers, data_slots_end_alike, drivers_are_followed, edge_nets_change_once,
    every_order_ends, first_slots_end_alike, inputs_have_given, inputs_take_moves, orders_agree,
    registers_decide_nets, settled_signals_are_known, slots_end_alike, statements_have_room,
    updates_have_room,
};
