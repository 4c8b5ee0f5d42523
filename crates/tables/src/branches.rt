// Refusals 8, spread, 9, rating, and 10, square, branch by branch.
ghost use Rattle.std.specs.Prelude.{◌≡◌, not, ◌||◌};
ghost use Rattle.base.specs.Fault.{fault, fault_of, unless, or_else};
ghost use Rattle.base.specs.Refusal.{SPREAD, RATING, SQUARE};
ghost use Rattle.float.specs.Number.{◌⊗◌, zero64, is_finite};
ghost use Rattle.bounds.specs.Bounds.{bounds_right};
ghost use Rattle.tables.specs.Fault.{fault_branches};

use base::{Reason, Refusal, unless};
use bounds::validate_active;
use network::{Branch, Tables};

// A branch that is number b.
fn branch_fault(branch: Branch, b: usize) -> Result<(), Refusal>
    ensures { fault_of result ≡
        or_else (unless (not branch.angled || bounds_right branch.angle_min branch.angle_max) (fault SPREAD b))
        (or_else (unless (not branch.limited || bounds_right zero64 branch.s_max) (fault RATING b))
        (unless (not branch.limited || is_finite (branch.s_max ⊗ branch.s_max)) (fault SQUARE b))) }
{
    let spread = validate_active(branch.angled, branch.angle_min, branch.angle_max);
    unless(spread, Reason::Spread, b)?;
    let s_max = branch.s_max;
    unless(
        validate_active(branch.limited, 0.0, s_max),
        Reason::Rating,
        b,
    )?;
    let square = float::is_finite(s_max * s_max);
    unless(!branch.limited | square, Reason::Square, b)
}

pub(crate) fn branches_fault(tables: &Tables) -> Result<(), Refusal>
    ensures { fault_of result ≡ fault_branches tables.now.words.now tables.now.numbers.now }
{
    for b in 0..tables.layout.branches {
        branch_fault(tables.branch(b), b)?;
    }
    Ok(())
}
