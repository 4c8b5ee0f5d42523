// Refusals 4 to 10 of a network, and the first of 1 to 10.
#![tactic(auto)]

mod blank;
mod branches;
mod curve;
mod ranges;
mod tables;

pub use tables::tables_of;
