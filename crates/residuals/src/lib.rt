// The eight residuals of a point, and its own objective.
#![tactic(auto)]

mod cost;
mod eight;
mod single;
mod variable;

pub use cost::{Costs, costs_at};
pub use eight::residuals_at;
