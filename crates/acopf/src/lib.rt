// The AC optimal power flow model: what compile_ac_opf_model builds and validate_primal starts from.
#![tactic(auto)]

mod case;
mod columns;
mod objective;
mod tallies;

pub use base::Refusal;
pub use case::Case;
pub use columns::{epigraph_start, generator_start, lower_bound, upper_bound, vm_lower, vm_upper};
pub use objective::{objective_constant, objective_constants};
pub use tallies::{Tallies, row_segments, tallies_of};
