// Refusals 1 to 10 of a network, in document 01's order.
ghost use Rattle.std.specs.Prelude.{◌≡◌, IfOk};
ghost use Rattle.base.specs.Fault.{fault_of, or_else};
ghost use Rattle.tables.specs.Fault.{fault_blank, fault_curve, fault_shift, fault_bounds, fault_branches, fault_tables};

use crate::blank::blank_fault;
use crate::branches::branches_fault;
use crate::curve::curve_fault;
use crate::ranges::{bounds_fault, shift_fault};
use base::Refusal;
use network::Tables;

// 4 to 10, where the form is right.
fn numbers_fault(tables: &Tables) -> Result<(), Refusal>
    ensures { let ws = tables.now.words.now in let xs = tables.now.numbers.now in
        fault_of result ≡ or_else (fault_blank ws xs) (or_else (fault_curve ws xs)
        (or_else (fault_shift ws xs) (or_else (fault_bounds ws xs) (fault_branches ws xs)))) }
{
    blank_fault(tables)?;
    curve_fault(tables)?;
    shift_fault(tables)?;
    bounds_fault(tables)?;
    branches_fault(tables)
}

// The tables of a network that 1 to 10 do not refuse.
pub fn tables_of<'a>(words: &'a [u32], numbers: &'a [f64]) -> Result<Tables<'a>, Refusal>
    ensures fault { fault_of result ≡ fault_tables words.now numbers.now }
    ensures words { IfOk result (λ tables. tables.words.now ≡ words.now) }
    ensures numbers { IfOk result (λ tables. tables.numbers.now ≡ numbers.now) }
{
    let tables = network::tables_of(words, numbers)?;
    numbers_fault(&tables)?;
    Ok(tables)
}
