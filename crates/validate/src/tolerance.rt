// The tolerances: refusal 20, of the list lent, and refusal 16, residual, the first of the eight that is above its own.
ghost use Rattle.std.specs.Prelude.{◌≡◌, length};
ghost use Rattle.base.specs.Fault.{fault_of};
ghost use Rattle.validate.specs.Tolerances.{fault_tolerance, fault_residual};

use base::{Reason, Refusal, unless, unless_found};

// 20. The length is looked at before any tolerance; each is finite and not below 0, and -0 is not below 0.
pub(crate) fn tolerance_fault(tolerances: &[f64]) -> Result<(), Refusal>
    ensures { fault_of result ≡ fault_tolerance tolerances.now }
{
    unless(tolerances.len() == 8, Reason::Tolerance, 0)?;
    let wrong = tolerances
        .iter()
        .position(|tolerance| !bounds::validate_bounds(0.0, *tolerance));
    unless_found(wrong, Reason::Tolerance, 1)
}

// 16. A residual equal to its tolerance is not refused. The length stands in `requires`: the callers' `Opened` says that 20 is clear, and
// so the length too, so that a struct with this fact would say it a second time and is no plainer.
pub(crate) fn residual_fault(residuals: [f64; 8], tolerances: &[f64]) -> Result<(), Refusal>
    requires { length tolerances.now ≡ 8 }
    ensures { fault_of result ≡ fault_residual tolerances.now residuals }
{
    let above = residuals
        .iter()
        .zip(tolerances)
        .position(|(residual, most)| *most < *residual);
    unless_found(above, Reason::Residual, 1)
}
