// The residuals but for variable bounds and epigraph: five are the largest of 0 and what each bus, reference or branch is off by.
ghost use Rattle.std.specs.Prelude.{◌≡◌, length};
ghost use Rattle.float.specs.Number.{◌⊖◌, ◌⊘◌, one64, absolute, maximum};
ghost use Rattle.network.specs.Network.{number};
ghost use Rattle.derived.specs.Outputs.{flows};
ghost use Rattle.residuals.specs.Residuals.{largest, reference_angles, angle_limits, thermal_limits};

use derived::{Candidate, Derived};

// 1 active and 2 reactive balance, of each bus's balance.
pub(crate) fn balance_residual(balance: &[f64]) -> f64
    ensures { result ≡ largest (length balance.now) (λ i. absolute (number balance.now i)) }
{
    // Seven loops have this shape, here and in variable.rt: one over a closure would need its contract, as in rows, longer than a loop.
    let mut most = 0.0;
    for off in balance {
        most = float::maximum(most, float::absolute(*off));
    }
    most
}

// 4 reference angles.
pub(crate) fn reference_angles(candidate: &Candidate) -> f64
    ensures { result ≡ reference_angles candidate.now.tables.words.now candidate.now.tables.numbers.now candidate.now.point.now }
{
    let tables = &candidate.tables;
    let mut most = 0.0;
    for r in 0..tables.layout.references {
        let angle = candidate.va(tables.reference(r));
        most = float::maximum(most, float::absolute(angle));
    }
    most
}

// 5 angle limits.
pub(crate) fn angle_limits(candidate: &Candidate) -> f64
    ensures { result ≡ angle_limits candidate.now.tables.words.now candidate.now.tables.numbers.now candidate.now.point.now }
{
    let tables = &candidate.tables;
    let mut most = 0.0;
    for b in 0..tables.layout.branches {
        let branch = tables.branch(b);
        if branch.angled {
            let angle = candidate.va(branch.from) - candidate.va(branch.to);
            let outside = bounds::positive_violation(angle, branch.angle_min, branch.angle_max);
            most = float::maximum(most, outside);
        }
    }
    most
}

// 6 thermal limits.
pub(crate) fn thermal_limits(derived: &Derived) -> f64
    ensures { let ws = derived.now.candidate.tables.words.now in let xs = derived.now.candidate.tables.numbers.now in
        let x = derived.now.candidate.point.now in result ≡ thermal_limits ws xs x (flows ws xs x) }
{
    let tables = &derived.candidate.tables;
    let mut most = 0.0;
    for b in 0..tables.layout.branches {
        let branch = tables.branch(b);
        let rated = branch.rated();
        if rated {
            let flow = derived.flows(b);
            let over = thermal::violation(
                flow.p_from,
                flow.q_from,
                flow.p_to,
                flow.q_to,
                branch.s_max,
            );
            most = float::maximum(most, over);
        }
    }
    most
}

// 8 objective difference.
pub(crate) fn objective_difference(solver: f64, own: f64) -> f64
    ensures { result ≡ absolute (solver ⊖ own) ⊘ maximum (absolute own) one64 }
{
    let size = float::maximum(float::absolute(own), 1.0);
    float::absolute(solver - own) / size
}
