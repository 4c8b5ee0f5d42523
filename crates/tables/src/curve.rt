// Refusal 5, curve: the first power that is not above the one before.
ghost use Rattle.std.specs.Prelude.{◌≡◌, ◌+◌, ◌-◌, ◌*◌, ◌≤◌, length};
ghost use Rattle.std.specs.Float.Ieee.{lt};
ghost use Rattle.base.specs.Fault.{fault, fault_of, unless, first};
ghost use Rattle.base.specs.Refusal.{CURVE};
ghost use Rattle.network.specs.Limits.{point_numbers};
ghost use Rattle.network.specs.Network.{power};
ghost use Rattle.tables.specs.Fault.{fault_curve};

use base::{Reason, Refusal, unless};
use network::{POINT_NUMBERS, Tables};

// One curve, whose points start at `at`.
// piecewise_cost's Curve is not below this crate, and would be taken apart again: the refusal names a power's place in the numbers.
fn curve_at(numbers: &[f64], at: usize, points: usize) -> Result<(), Refusal>
    requires { at + point_numbers * points ≤ length numbers.now }
    ensures { fault_of result ≡ first (points - 1) (λ s.
        unless (lt (power numbers.now at s) (power numbers.now at (s + 1)))
        (fault CURVE (at + point_numbers * (s + 1)))) }
{
    for s in 0..points.saturating_sub(1) {
        let next = at + POINT_NUMBERS * (s + 1);
        let above = numbers[at + POINT_NUMBERS * s] < numbers[next];
        unless(above, Reason::Curve, next)?;
    }
    Ok(())
}

pub(crate) fn curve_fault(tables: &Tables) -> Result<(), Refusal>
    ensures { fault_of result ≡ fault_curve tables.now.words.now tables.now.numbers.now }
{
    for (_, generator) in tables.generators() {
        curve_at(tables.numbers, generator.curve, generator.points)?;
    }
    Ok(())
}
