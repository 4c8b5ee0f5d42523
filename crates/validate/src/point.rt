// Refusals 12, short, and 20, tolerance, of what is lent, then 13, point, and 14, swing.
ghost use Rattle.std.specs.Prelude.{◌≡◌, List, ◌+◌, ◌*◌, Float, IfOk};
ghost use Rattle.base.specs.Fault.{fault_of};
ghost use Rattle.validate.specs.Check.{fault_swing};
ghost use Rattle.validate.specs.internal.Verdict.{fault_lent, fault_given};

use crate::tolerance::tolerance_fault;
use acopf::Case;
use base::{Reason, Refusal, unless};
use derived::Candidate;
pub(crate) use derived::output_count;
use network::Tables;

// 12, of an output list of that length, then 20.
pub(crate) fn lent_fault(tables: &Tables, lent: usize, tolerances: &[f64]) -> Result<(), Refusal>
    ensures { (x : List Float) (solver : Float)
        → fault_of result ≡ fault_lent tables.now.words.now tables.now.numbers.now x solver tolerances.now lent }
{
    unless(output_count(tables) <= lent, Reason::Short, 1)?;
    tolerance_fault(tolerances)
}

// 14, of the columns va.
fn swing_fault(candidate: &Candidate) -> Result<(), Refusal>
    ensures { (solver : Float)
        → fault_of result ≡ fault_swing candidate.now.tables.words.now candidate.now.tables.numbers.now candidate.now.point.now solver }
{
    for i in 0..candidate.tables.layout.buses {
        unless(bounds::angle_right(candidate.va(i)), Reason::Swing, i)?;
    }
    Ok(())
}

// 13, then 14, else the candidate.
pub(crate) fn candidate_of<'a>(case: &Case<'a>, point: &'a [f64]) -> Result<Candidate<'a>, Refusal>
    ensures fault { (solver : Float)
        → fault_of result ≡ fault_given case.now.tables.words.now case.now.tables.numbers.now point.now solver }
    ensures tables { IfOk result (λ candidate. candidate.tables ≡ case.now.tables) }
    ensures point { IfOk result (λ candidate. candidate.point.now ≡ point.now) }
{
    let candidate = Candidate::new(case, point)?;
    swing_fault(&candidate)?;
    Ok(candidate)
}
