// validate_primal: whether a solver's point is accepted.
#![tactic(auto)]

ghost use Rattle.std.specs.Prelude.{◌≡◌};
ghost use Rattle.validate.specs.Check.{objective_of};

mod boundary;
mod measure;
mod point;
mod primal;
mod report;
mod tolerance;

use base::Refusal;
pub use boundary::{
    fervoulk_check, fervoulk_objective, fervoulk_outputs, fervoulk_residual, fervoulk_residuals,
};
pub use primal::check;
pub use report::residuals;

// The objective of an accepted point, or the refusal; and the residuals, which are 0 after a refusal other than 16.
#[derive(Clone, Copy)]
pub struct Checked {
    pub verdict: Result<f64, Refusal>,
    pub residuals: [f64; 8],
}

impl Checked {
    // The objective of an accepted point, else 0.
    pub fn objective(&self) -> f64
        ensures { result ≡ objective_of self.now.verdict }
    {
        self.verdict.unwrap_or(0.0)
    }
}
