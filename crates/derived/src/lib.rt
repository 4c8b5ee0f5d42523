// What validate_primal works out from a point: voltages, flows, injections, balances and the outputs; refusal 15, whose word is derived.
#![tactic(auto)]

mod bus;
mod candidate;
mod fill;
mod flow;

pub use candidate::Candidate;
pub use fill::{Derived, balances, derived_fault, fill_outputs, output_count};
use network::{MOST_BRANCHES, MOST_BUSES};

// Two numbers for each bus, as balances have.
pub const MOST_PER_BUS: usize = 2 * MOST_BUSES;

// The most that `output_count` answers.
pub const MOST_OUTPUTS: usize = 2 * MOST_BUSES + 4 * MOST_BRANCHES;
