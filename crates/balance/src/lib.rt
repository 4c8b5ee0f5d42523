// The model file's balance rows, written: generators and branch ends grouped by bus, then a row for each bus, p balances before q balances.
#![tactic(auto)]

mod balance;
mod group;
mod item;

pub use balance::balances;
