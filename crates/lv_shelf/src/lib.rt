//! Lists in which elements are put anywhere without being moved.
#![tactic(auto)]

mod chain_shelf;
mod chains;
mod guessing;
mod order;
mod ranked_places;
mod run;
mod shelf;
mod slots;

pub use chain_shelf::ChainShelf;
pub use run::Run;
pub use shelf::Shelf;
