//! The run of a thin design over vectors, and the window of its dump.
#![tactic(auto)]

mod law;
mod run;
mod window;

pub use law::window_of_front;
pub use window::{Window, WindowFault, write_dump, write_window};
