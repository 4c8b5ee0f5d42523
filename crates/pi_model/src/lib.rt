// A branch's flows by its pi model, with the Rust's names: branch_flow's coefficients for the model, numeric_branch_flow for the check.
#![tactic(auto)]

mod complex;
mod flow;

pub use complex::Complex;
pub use flow::{Flows, coefficients, numeric_branch_flow};
