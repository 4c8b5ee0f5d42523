// The check across the C boundary: each function returns one number of the answer, and leaves the output list as `check` does.
ghost use Rattle.std.specs.Prelude.{◌≡◌, T, length};
ghost use Rattle.std.specs.Float.{binary64};
ghost use Rattle.std.specs.Float.Ieee.{fits};
ghost use Rattle.base.specs.Fault.{packed};
ghost use Rattle.float.specs.Doubles.{Doubles};
ghost use Rattle.validate.specs.Check.{outputs_needed, checked, outputs_after, residuals_fault, report_after};
ghost use Rattle.validate.specs.Check.{residual_at};

use crate::point::output_count;
use crate::primal::check;
use crate::report::residuals;
use factor::judge;

// The length of the outputs, from the network alone: a host sizes its list by it before it lends it. 0 where the network is refused.
#[unsafe(no_mangle)]
pub extern "C" fn fervoulk_outputs(words: &[u32], numbers: &[f64]) -> usize
    ensures { result ≡ outputs_needed words.now numbers.now }
{
    judge(words, numbers).map_or(0, |clear| output_count(&clear.case.tables))
}

// The refusal's number times 2 to the power 32 plus its place. What is handed in are doubles, as f64 are: with it, the number 0 says what
// exact's theorems say of an accepted point.
#[unsafe(no_mangle)]
pub extern "C" fn fervoulk_check(
    words: &[u32],
    numbers: &[f64],
    point: &[f64],
    solver: f64,
    tolerances: &[f64],
    outputs: &mut [f64],
) -> u64
    ensures { let ws = words.now in let xs = numbers.now in let x = point.now in
        let ts = tolerances.now in let before = outputs.old in
        (result ≡ packed (checked ws xs x solver ts (length before)).fault) × (outputs.new ≡ outputs_after ws xs x solver ts before)
        × Doubles xs × Doubles x × T (fits binary64 solver) × Doubles ts }
{
    let answer = check(words, numbers, point, solver, tolerances, outputs);
    base::packed(answer.verdict)
}

#[unsafe(no_mangle)]
pub extern "C" fn fervoulk_objective(
    words: &[u32],
    numbers: &[f64],
    point: &[f64],
    solver: f64,
    tolerances: &[f64],
    outputs: &mut [f64],
) -> f64
    ensures { let ws = words.now in let xs = numbers.now in let x = point.now in
        let ts = tolerances.now in let before = outputs.old in
        (result ≡ (checked ws xs x solver ts (length before)).objective) × (outputs.new ≡ outputs_after ws xs x solver ts before) }
{
    let answer = check(words, numbers, point, solver, tolerances, outputs);
    answer.objective()
}

fn residual(residuals: [f64; 8], i: usize) -> f64
    ensures { result ≡ residual_at residuals i }
{
    residuals.get(i).copied().unwrap_or(0.0)
}

// Residual i, from 0; an index past 7 answers 0.
#[unsafe(no_mangle)]
pub extern "C" fn fervoulk_residual(
    words: &[u32],
    numbers: &[f64],
    point: &[f64],
    solver: f64,
    tolerances: &[f64],
    outputs: &mut [f64],
    i: usize,
) -> f64
    ensures { let ws = words.now in let xs = numbers.now in let x = point.now in
        let ts = tolerances.now in let before = outputs.old in
        (result ≡ residual_at (checked ws xs x solver ts (length before)).residuals i)
        × (outputs.new ≡ outputs_after ws xs x solver ts before) }
{
    let answer = check(words, numbers, point, solver, tolerances, outputs);
    residual(answer.residuals, i)
}

// All eight residuals and the objective by one run: number and place as `residuals` answers, and the list as it leaves it.
#[unsafe(no_mangle)]
pub extern "C" fn fervoulk_residuals(
    words: &[u32],
    numbers: &[f64],
    point: &[f64],
    solver: f64,
    report: &mut [f64],
) -> u64
    ensures { let ws = words.now in let xs = numbers.now in let x = point.now in
        let before = report.old in
        (result ≡ packed (residuals_fault ws xs x solver (length before))) × (report.new ≡ report_after ws xs x solver before) }
{
    base::packed(residuals(words, numbers, point, solver, report))
}
