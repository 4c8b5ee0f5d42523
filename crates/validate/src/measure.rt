// What is worked out from a candidate: the outputs, the objective and the residuals, and refusal 15.
ghost use Rattle.std.specs.Prelude.{◌≡◌, ◌+◌, ◌*◌, ◌≤◌, length, IfOk};
ghost use Rattle.base.specs.Fault.{fault_of};
ghost use Rattle.validate.specs.Check.{solved, fault_derived};

use base::Refusal;
use derived::{Candidate, Derived};
use residuals::{costs_at, residuals_at};

// What is asked about: the candidate and the solver's objective.
#[derive(Clone, Copy)]
pub(crate) struct Asked<'a> {
    pub candidate: Candidate<'a>,
    pub solver: f64,
}

#[derive(Clone, Copy)]
pub(crate) struct Measured<'b> {
    pub outputs: &'b [f64],
    pub objective: f64,
    pub residuals: [f64; 8],
}

// The outputs fill the list's front.
pub(crate) fn measure<'b>(asked: &Asked, list: &'b mut [f64]) -> Result<Measured<'b>, Refusal>
    requires { let layout = asked.now.candidate.tables.layout in 2 * layout.buses + 4 * layout.branches ≤ length list.old }
    ensures fault { let c = asked.now.candidate in let ws = c.tables.words.now in let xs = c.tables.numbers.now in
        let x = c.point.now in let solver = asked.now.solver in
        fault_of result ≡ fault_derived ws xs x solver (solved ws xs x solver) }
    ensures outputs { let c = asked.now.candidate in
        IfOk result (λ m. m.outputs.now ≡ (solved c.tables.words.now c.tables.numbers.now c.point.now asked.now.solver).outputs) }
    ensures objective { let c = asked.now.candidate in
        IfOk result (λ m. m.objective ≡ (solved c.tables.words.now c.tables.numbers.now c.point.now asked.now.solver).objective) }
    ensures residuals { let c = asked.now.candidate in
        IfOk result (λ m. m.residuals ≡ (solved c.tables.words.now c.tables.numbers.now c.point.now asked.now.solver).residuals) }
{
    let derived = Derived::new(&asked.candidate, list);
    let costs = costs_at(&asked.candidate);
    derived.fault(asked.solver, costs.objective)?;
    Ok(Measured {
        outputs: derived.list,
        objective: costs.objective,
        residuals: residuals_at(&derived, asked.solver, costs),
    })
}
