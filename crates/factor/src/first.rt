// The first refusal of a network, 1 to 11.
ghost use Rattle.std.specs.Prelude.{◌≡◌, IfOk};
ghost use Rattle.base.specs.Fault.{fault_of};
ghost use Rattle.acopf.specs.Factor.{network_fault};

use crate::clear::Clear;
use crate::factor::factor_fault;
use acopf::Case;
use base::Refusal;
use tables::tables_of;

// The network's tables with what is counted of them, so that no later function works them out again, or its refusal.
pub fn judge<'a>(words: &'a [u32], numbers: &'a [f64]) -> Result<Clear<'a>, Refusal>
    ensures fault { fault_of result ≡ network_fault words.now numbers.now }
    ensures words { IfOk result (λ clear. clear.case.tables.words.now ≡ words.now) }
    ensures numbers { IfOk result (λ clear. clear.case.tables.numbers.now ≡ numbers.now) }
{
    let tables = tables_of(words, numbers)?;
    let clear = Clear {
        case: Case::new(&tables),
    };
    factor_fault(&clear)?;
    Ok(clear)
}
