// The objective constant, and how many constants the objective's expression has.
ghost use Rattle.std.specs.Prelude.{◌≡◌, cond, not, ◌&&◌, ◌-◌, ◌*◌, ◌≤◌, eqb};
ghost use Rattle.float.specs.Number.{◌⊕◌};
ghost use Rattle.network.specs.Limits.{most_generators};
ghost use Rattle.acopf.specs.Model.{objective_constant};

use network::Tables;

// The sum of c0 over the generators without a curve, under header 1.
pub fn objective_constant(tables: &Tables) -> f64
    ensures { result ≡ objective_constant tables.now.words.now tables.now.numbers.now }
{
    let mut sum = 0.0;
    for (_, generator) in tables.generators() {
        if tables.layout.costs & !generator.curved() {
            sum += generator.cost_0;
        }
    }
    sum
}

// Two a generator without a curve, or the one of an empty sum. Of any three such values, and so of no Case.
pub fn objective_constants(costs: bool, k: usize, epigraphs: usize) -> usize
    requires { (epigraphs ≤ k) × (k ≤ most_generators) }
    ensures { (result ≡ cond (costs && not (eqb k 0)) (2 * (k - epigraphs)) 1) × (result ≤ 2 * most_generators) }
{
    let some = k != 0;
    if costs & some {
        return 2 * (k - epigraphs);
    }
    1
}
