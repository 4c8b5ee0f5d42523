// validate_primal's verdict: refusals 1 to 16 in document 01's order, with 20 after 12, and the outputs of an accepted point.
ghost use Rattle.std.specs.Prelude.{◌≡◌, ◌+◌, ◌*◌, ◌≤◌, length, IfOk};
ghost use Rattle.base.specs.Fault.{fault_of, left};
ghost use Rattle.validate.specs.Tolerances.{fault_residual};
ghost use Rattle.validate.specs.Check.{answer_of, checked, outputs_after};
ghost use Rattle.validate.specs.internal.Verdict.{Opened, Answers, answer_in};

use crate::Checked;
use crate::measure::{Asked, Measured, measure};
use crate::point::{candidate_of, lent_fault, output_count};
use crate::tolerance::residual_fault;
use base::Refusal;
use derived::MOST_OUTPUTS;
use factor::judge;
use lists::copy_front;

// The scratch list of a small network: to clear the large one would take as long as its check.
const FEW_OUTPUTS: usize = 128;

// 16, else the outputs and the objective of an accepted point.
fn accept(measured: &Measured, tolerances: &[f64], outputs: &mut [f64]) -> Result<f64, Refusal>
    requires { (length tolerances.now ≡ 8) × (length measured.now.outputs.now ≤ length outputs.old) }
    ensures fault { fault_of result ≡ fault_residual tolerances.now measured.now.residuals }
    ensures objective { IfOk result (λ objective. objective ≡ measured.now.objective) }
    ensures outputs { outputs.new ≡ left (fault_residual tolerances.now measured.now.residuals) measured.now.outputs.now outputs.old }
{
    residual_fault(measured.residuals, tolerances)?;
    copy_front(measured.outputs, outputs);
    Ok(measured.objective)
}

// 15, 16 and the outputs, where 1 to 14 are clear; the scratch list takes the outputs until the point is accepted. Tolerances and outputs
// stay two parameters: a clause speaks of one that is only read, and of the other before and after, so that a struct of both is no plainer.
fn verdict(
    asked: &Asked,
    tolerances: &[f64],
    scratch: &mut [f64],
    outputs: &mut [f64],
) -> Result<Checked, Refusal>
    requires { let c = asked.now.candidate in let layout = c.tables.layout in
        (Opened c.tables.words.now c.tables.numbers.now c.point.now asked.now.solver tolerances.now (length outputs.old))
        × (2 * layout.buses + 4 * layout.branches ≤ length scratch.old) }
    ensures { let c = asked.now.candidate in
        Answers c.tables.words.now c.tables.numbers.now c.point.now asked.now.solver tolerances.now
        outputs.old outputs.new (answer_in result) }
{
    let measured = measure(asked, scratch)?;
    Ok(Checked {
        verdict: accept(&measured, tolerances, outputs),
        residuals: measured.residuals,
    })
}

// The same with scratch lists of its own: nothing lent serves as scratch.
fn settled(asked: &Asked, tolerances: &[f64], outputs: &mut [f64]) -> Result<Checked, Refusal>
    requires { let c = asked.now.candidate in
        Opened c.tables.words.now c.tables.numbers.now c.point.now asked.now.solver tolerances.now (length outputs.old) }
    ensures { let c = asked.now.candidate in
        Answers c.tables.words.now c.tables.numbers.now c.point.now asked.now.solver tolerances.now
        outputs.old outputs.new (answer_in result) }
{
    if output_count(&asked.candidate.tables) <= FEW_OUTPUTS {
        let mut few = [0.0; FEW_OUTPUTS];
        return verdict(asked, tolerances, &mut few, outputs);
    }
    let mut scratch = [0.0; MOST_OUTPUTS];
    verdict(asked, tolerances, &mut scratch, outputs)
}

// The check, where an early refusal has no residuals.
fn checked(
    words: &[u32],
    numbers: &[f64],
    point: &[f64],
    solver: f64,
    tolerances: &[f64],
    outputs: &mut [f64],
) -> Result<Checked, Refusal>
    ensures { Answers words.now numbers.now point.now solver tolerances.now outputs.old outputs.new (answer_in result) }
{
    let case = judge(words, numbers)?.case;
    lent_fault(&case.tables, outputs.len(), tolerances)?;
    let candidate = candidate_of(&case, point)?;
    settled(&Asked { candidate, solver }, tolerances, outputs)
}

// Whether the point is accepted, with a tolerance for each of the eight residuals. The outputs are written only then: the list's front is
// all p injections, all q injections, then all p_from, q_from, p_to and q_to. After a refusal the list is as it was.
pub fn check(
    words: &[u32],
    numbers: &[f64],
    point: &[f64],
    solver_objective: f64,
    tolerances: &[f64],
    outputs: &mut [f64],
) -> Checked
    ensures { let ws = words.now in let xs = numbers.now in let x = point.now in
        let ts = tolerances.now in let before = outputs.old in
        (answer_of result ≡ checked ws xs x solver_objective ts (length before))
        × (outputs.new ≡ outputs_after ws xs x solver_objective ts before) }
{
    let answer = checked(words, numbers, point, solver_objective, tolerances, outputs);
    answer.unwrap_or_else(|refusal| Checked {
        verdict: Err(refusal),
        residuals: [0.0; 8],
    })
}
