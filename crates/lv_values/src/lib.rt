//! Values, texts and rows: lists that contracts see as lists, their total order, and their printed form.
#![tactic(auto)]

mod boxed;
mod edits;
mod exact;
mod items;
mod memory;
mod printing;
mod room;
mod rows;
mod steps;
mod text;
mod value;

pub use boxed::Boxed;
pub use edits::{Any, Edit, Test};
pub use exact::Exact;
pub use items::{Copying, Items};
pub use memory::NoMemory;
pub use printing::{print_natural, print_number, print_row, print_value, print_values};
pub use room::Room;
pub use rows::{Bytes, Row, Rows, compare_keys, compare_to_key};
pub use steps::Steps;
pub use text::{Text, TextFault};
pub use value::Value;
