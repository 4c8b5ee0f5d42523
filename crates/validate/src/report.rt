// The eight residuals and the objective of a point, whether a residual is above its tolerance or not: refusals 1 to 15.
ghost use Rattle.std.specs.Prelude.{◌≡◌, ◌≤◌, length};
ghost use Rattle.base.specs.Fault.{fault_of};
ghost use Rattle.validate.specs.Check.{fault_report, residuals_fault, report_after};
ghost use Rattle.validate.specs.internal.Verdict.{Cleared};

use crate::measure::{Asked, measure};
use crate::point::candidate_of;
use base::{Reason, Refusal, unless};
use derived::MOST_OUTPUTS;
use factor::judge;
use lists::copy_front;

// 15 and the nine numbers, where 1 to 14 are clear. The scratch list is an array of its own: nothing lent serves as scratch.
fn settle(asked: &Asked, report: &mut [f64]) -> Result<(), Refusal>
    requires { let c = asked.now.candidate in let ws = c.tables.words.now in let xs = c.tables.numbers.now in
        let x = c.point.now in let solver = asked.now.solver in
        (9 ≤ length report.old) × Cleared ws xs x solver (fault_report ws xs x solver (length report.old)) }
    ensures { let c = asked.now.candidate in let ws = c.tables.words.now in let xs = c.tables.numbers.now in
        let x = c.point.now in let solver = asked.now.solver in let before = report.old in
        (fault_of result ≡ residuals_fault ws xs x solver (length before)) × (report.new ≡ report_after ws xs x solver before) }
{
    let mut scratch = [0.0; MOST_OUTPUTS];
    let measured = measure(asked, &mut scratch)?;
    copy_front(&measured.residuals, report);
    report[8] = measured.objective;
    Ok(())
}

// The eight residuals and then the objective, in the front of the list of nine, where 1 to 15 refuse nothing. After a refusal the list is
// as it was. A residual above its tolerance refuses nothing here: that is the check's.
pub fn residuals(
    words: &[u32],
    numbers: &[f64],
    point: &[f64],
    solver_objective: f64,
    report: &mut [f64],
) -> Result<(), Refusal>
    ensures { let ws = words.now in let xs = numbers.now in let x = point.now in
        let before = report.old in
        (fault_of result ≡ residuals_fault ws xs x solver_objective (length before))
        × (report.new ≡ report_after ws xs x solver_objective before) }
{
    let case = judge(words, numbers)?.case;
    unless(9 <= report.len(), Reason::Short, 1)?;
    let candidate = candidate_of(&case, point)?;
    let asked = Asked {
        candidate,
        solver: solver_objective,
    };
    settle(&asked, report)
}
