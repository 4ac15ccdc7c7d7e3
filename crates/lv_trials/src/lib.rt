//! What only a call can show, and no script: public calls that no statement reaches, each compared with its answer once;
//! records and files of a journal, byte for byte; actors over a machine; words of a command line; and runs in which a call of
//! the outside fails, a journal is damaged, or the disk stops.
//!
//! A test has no way out but its end: what it asserts of is answered by a function beside it. A large value is let go of by
//! `drop`, at one place, before a function may end early: each way out that lets go of it would cost the prover seconds
//! (`docs/GATE.md`).
#![tactic(auto)]

#[cfg(test)]
mod causes;
#[cfg(test)]
mod claims;
#[cfg(test)]
mod counting;
#[cfg(test)]
mod damage;
#[cfg(test)]
mod failing;
#[cfg(test)]
mod files;
#[cfg(test)]
mod lexer;
#[cfg(test)]
mod meeting;
#[cfg(test)]
mod outside;
#[cfg(test)]
mod parser;
#[cfg(test)]
mod reading;
#[cfg(test)]
mod records;
#[cfg(test)]
mod runs;
#[cfg(test)]
mod schema;
#[cfg(test)]
mod stops;
#[cfg(test)]
mod streams;
#[cfg(test)]
mod threads;
#[cfg(test)]
mod values;
#[cfg(test)]
mod words;
#[cfg(test)]
mod worked;
