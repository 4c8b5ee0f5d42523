// Refusal 11, factor: the first number of the model that is not finite. Of a network that 1 to 10 do not refuse only the numbers looked
// at here can be non-finite.
ghost use Rattle.std.specs.Prelude.{◌≡◌, ◌+◌, ◌-◌, ◌*◌, ◌≤◌, ◌<◌};
ghost use Rattle.base.specs.Fault.{fault_of, or_else};
ghost use Rattle.acopf.specs.Factor.{fault_factor};
ghost use Rattle.acopf.specs.Model.{objective_constant};
ghost use Rattle.factor.specs.internal.NonFinite.{non_finite, segments_fault, branches_factor, curves_factor, epigraphs_factor, curves_on};

use crate::clear::Clear;
use acopf::{epigraph_start, objective_constant};
use base::{Reason, Refusal, unless};
use lists::first_non_finite;
use network::Tables;
use pi_model::coefficients;
use piecewise_cost::{Curve, Segment};

// The coefficients of all branches, twelve each.
fn branches_factor(tables: &Tables) -> Result<(), Refusal>
    ensures { fault_of result ≡ branches_factor tables.now.words.now tables.now.numbers.now }
{
    for b in 0..tables.layout.branches {
        let cs = coefficients(tables.branch(b));
        first_non_finite(&cs, Reason::Factor, 12 * b)?;
    }
    Ok(())
}

// A segment's slope and intercept.
fn segment_fault(segment: Segment, place: usize) -> Result<(), Refusal>
    requires { place ≤ 0xffff }
    ensures { fault_of result ≡ or_else (non_finite segment.slope place) (non_finite segment.intercept (place + 1)) }
{
    first_non_finite(&[segment.slope, segment.intercept], Reason::Factor, place)
}

// All segments of a curve.
fn segments_fault(curve: &Curve, place: usize) -> Result<(), Refusal>
    requires { place ≤ 0x4000 }
    ensures { fault_of result ≡ segments_fault curve.now.numbers.now curve.now.at (curve.now.points - 1) place }
{
    for s in 0..curve.segments() {
        segment_fault(curve.segment(s), place + 2 * s)?;
    }
    Ok(())
}

// The curves of all generators; the first slope has the place `start`.
fn curves_factor(tables: &Tables, start: usize) -> Result<(), Refusal>
    requires { start ≤ 10240 }
    ensures { fault_of result ≡ curves_factor tables.now.words.now tables.now.numbers.now start }
{
    let mut place = start;
    for (_, generator) in tables.generators() {
        if generator.curved() {
            let curve = Curve::new(tables.numbers, &generator);
            segments_fault(&curve, place)?;
            place += 2 * curve.segments();
        }
    }
    Ok(())
}

// The epigraph starts of all generators, where the first column's start has the place `start`.
fn epigraphs_factor(tables: &Tables, start: usize) -> Result<(), Refusal>
    requires { start ≤ 0x4000 }
    ensures { fault_of result ≡ epigraphs_factor tables.now.words.now tables.now.numbers.now start }
{
    for (_, generator) in tables.generators() {
        if let Some(epigraph) = generator.epigraph {
            let finite = float::is_finite(epigraph_start(tables.numbers, generator));
            unless(finite, Reason::Factor, start + epigraph)?;
        }
    }
    Ok(())
}

// The objective constant, whose place is the number of constants, then the starts.
fn later_factor(tables: &Tables, count: usize) -> Result<(), Refusal>
    requires { count < 0x4000 }
    ensures { let ws = tables.now.words.now in let xs = tables.now.numbers.now in
        fault_of result ≡ or_else (non_finite (objective_constant ws xs) count) (epigraphs_factor ws xs (count + 1)) }
{
    let constant = float::is_finite(objective_constant(tables));
    unless(constant, Reason::Factor, count)?;
    epigraphs_factor(tables, count + 1)
}

// The curves' constants, then what follows the constants.
fn curves_on(clear: &Clear) -> Result<(), Refusal>
    ensures { fault_of result ≡ curves_on clear.now.case.tables.words.now clear.now.case.tables.numbers.now }
{
    let tables = &clear.case.tables;
    let layout = tables.layout;
    let tallies = clear.case.tallies;
    let start = 4 * layout.buses + 16 * layout.branches + 2 * tallies.rated;
    curves_factor(tables, start)?;
    later_factor(tables, clear.constants())
}

// 11.
pub fn factor_fault(clear: &Clear) -> Result<(), Refusal>
    ensures { fault_of result ≡ fault_factor clear.now.case.tables.words.now clear.now.case.tables.numbers.now }
{
    branches_factor(&clear.case.tables)?;
    curves_on(clear)
}
