// A generator's cost curve, by the Rust's own name PiecewiseCost.
#![tactic(auto)]

mod curve;

pub use curve::{Curve, Segment, curve_value, intercept_of, slope_of};
