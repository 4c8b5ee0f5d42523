// The bounds of vm, a generator's bounds and start in the model's columns, and the start of its epigraph column.
ghost use Rattle.std.specs.Prelude.{◌≡◌, cond, ◌+◌, ◌-◌, ◌*◌, ◌≤◌, length};
ghost use Rattle.std.specs.Float.Ieee.{neg};
ghost use Rattle.float.specs.Number.{zero64};
ghost use Rattle.bounds.specs.Bounds.{huge64, clamp_start};
ghost use Rattle.network.specs.Limits.{point_numbers, most_points};
ghost use Rattle.piecewise_cost.specs.Curve.{evaluate};

use bounds::clamp_start;
use network::{Bus, Generator};
use piecewise_cost::Curve;

// These four differ in what an inactive bound is. A float can't be a const parameter, and a common function that took it would have the body
// of each and leave a call of it to them.

// The bounds of the bus's vm where they are active, else 0 and 1e19.
pub fn vm_lower(bus: Bus) -> f64
    ensures { result ≡ cond bus.bounded bus.vm_min zero64 }
{
    if bus.bounded {
        return bus.vm_min;
    }
    0.0
}

pub fn vm_upper(bus: Bus) -> f64
    ensures { result ≡ cond bus.bounded bus.vm_max huge64 }
{
    if bus.bounded {
        return bus.vm_max;
    }
    1e19
}

// The table's bound where it is active, else 1e19 down or up.
pub fn lower_bound(active: bool, given: f64) -> f64
    ensures { result ≡ cond active given (neg huge64) }
{
    if active {
        return given;
    }
    -1e19
}

pub fn upper_bound(active: bool, given: f64) -> f64
    ensures { result ≡ cond active given huge64 }
{
    if active {
        return given;
    }
    1e19
}

// Of pg or qg.
pub fn generator_start(active: bool, given: f64, lower: f64, upper: f64) -> f64
    ensures { result ≡ clamp_start given (cond active lower (neg huge64)) (cond active upper huge64) }
{
    clamp_start(
        given,
        lower_bound(active, lower),
        upper_bound(active, upper),
    )
}

// The curve's value at the generator's pg start.
pub fn epigraph_start(numbers: &[f64], generator: Generator) -> f64
    requires { (generator.curve + point_numbers * generator.points ≤ length numbers.now) × (generator.points ≤ most_points) }
    ensures { result ≡ evaluate numbers.now generator.curve (generator.points - 1) (clamp_start generator.pg
        (cond generator.bounded generator.p_min (neg huge64)) (cond generator.bounded generator.p_max huge64)) }
{
    let power = generator_start(
        generator.bounded,
        generator.pg,
        generator.p_min,
        generator.p_max,
    );
    Curve::new(numbers, &generator).value(power)
}
