// All eight residuals of a point.
ghost use Rattle.std.specs.Prelude.{◌≡◌};
ghost use Rattle.derived.specs.Outputs.{flows};
ghost use Rattle.residuals.specs.internal.Derived.{CostsAre};
ghost use Rattle.residuals.specs.Residuals.{residuals};

use crate::cost::Costs;
use crate::single::{
    angle_limits, balance_residual, objective_difference, reference_angles, thermal_limits,
};
use crate::variable::variable_bounds;
use derived::{Derived, MOST_PER_BUS};

// An array, since tolerances and the controller name a residual by its number. The costs are those at the point.
pub fn residuals_at(derived: &Derived, solver: f64, costs: Costs) -> [f64; 8]
    requires { let tables = derived.now.candidate.tables in
        CostsAre tables.words.now tables.numbers.now derived.now.candidate.point.now costs }
    ensures { let ws = derived.now.candidate.tables.words.now in let xs = derived.now.candidate.tables.numbers.now in
        let x = derived.now.candidate.point.now in result ≡ residuals ws xs x (flows ws xs x) solver }
{
    let candidate = &derived.candidate;
    let n = candidate.tables.layout.buses;
    let mut balance = [0.0; MOST_PER_BUS];
    derived.balances(&mut balance);
    let active = balance_residual(&balance[..n]);
    let reactive = balance_residual(&balance[n..2 * n]);
    [
        active,
        reactive,
        variable_bounds(candidate),
        reference_angles(candidate),
        angle_limits(candidate),
        thermal_limits(derived),
        costs.epigraph,
        objective_difference(solver, costs.objective),
    ]
}
