// What the generators cost at a point: its own objective, and residual 7. One walk gives both, and works out each curve's value once.
ghost use Rattle.std.specs.Prelude.{◌≡◌};
ghost use Rattle.float.specs.Number.{◌⊕◌, ◌⊗◌, half64};
ghost use Rattle.residuals.specs.internal.Derived.{CostsAre};

use derived::Candidate;
use network::Generator;
use piecewise_cost::Curve;

// Both are 0 before the walk.
#[derive(Clone, Copy, Debug, Default, PartialEq)]
pub struct Costs {
    pub objective: f64,
    pub epigraph: f64,
}

// What a generator without a curve costs at the power p.
fn quadratic_cost(generator: Generator, p: f64) -> f64
    ensures { result ≡ half64 ⊗ generator.cost_q ⊗ (p ⊗ p) ⊕ generator.cost_c ⊗ p ⊕ generator.cost_0 }
{
    0.5 * generator.cost_q * (p * p) + generator.cost_c * p + generator.cost_0
}

// Without costs no generator has an epigraph column.
pub fn costs_at(candidate: &Candidate) -> Costs
    ensures { CostsAre candidate.now.tables.words.now candidate.now.tables.numbers.now candidate.now.point.now result }
{
    let tables = &candidate.tables;
    let mut costs = Costs::default();
    if !tables.layout.costs {
        return costs;
    }
    for (g, generator) in tables.generators() {
        let p = candidate.pg(g);
        let column = generator.epigraph;
        match column {
            Some(epigraph) => {
                let cost = Curve::new(tables.numbers, &generator).value(p);
                let over = float::maximum(cost - candidate.point[epigraph], 0.0);
                costs.objective += cost;
                costs.epigraph = float::maximum(costs.epigraph, over);
            }
            None => costs.objective += quadratic_cost(generator, p),
        }
    }
    costs
}
