//! The tables, views and transactions of an engine, as they lie in memory. A call that a journal has to keep comes in two
//! halves: one takes all memory, the other takes none, and between the two the caller writes the record.
#![tactic(auto)]

mod alone;
mod answer;
mod changing;
mod cleaned;
mod cleaning;
mod committing;
mod creating;
mod fault;
mod inputs;
mod installed;
mod installing;
mod joining;
mod marking;
mod own;
mod pending;
mod planning;
mod querying;
mod reading;
mod settings;
mod sought;
mod stepping;
mod store;
mod transactions;
mod workers;

pub use answer::Answer;
pub use cleaned::Cleaned;
pub use committing::Prepared;
pub use creating::{ReadyTable, ReadyView};
pub use fault::PrepareFault;
pub use installed::Installed;
pub use settings::Settings;
pub use store::Store;
