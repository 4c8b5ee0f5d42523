// Refusals 6, shift, and 7, bounds.
ghost use Rattle.std.specs.Prelude.{◌≡◌, not, ◌||◌};
ghost use Rattle.base.specs.Fault.{fault, fault_of, unless, or_else, first};
ghost use Rattle.base.specs.Refusal.{BOUNDS};
ghost use Rattle.bounds.specs.Bounds.{bounds_right};
ghost use Rattle.network.specs.Network.{vm_bounded, capable, vm_column, pg_column, qg_column, vm_min, vm_max, p_min, p_max, q_min, q_max};
ghost use Rattle.tables.specs.Fault.{fault_shift, fault_bounds};

use base::{Reason, Refusal, unless};
use bounds::{angle_right, validate_active};
use network::{Generator, Tables};

pub(crate) fn shift_fault(tables: &Tables) -> Result<(), Refusal>
    ensures { fault_of result ≡ fault_shift tables.now.words.now tables.now.numbers.now }
{
    for b in 0..tables.layout.branches {
        let at = tables.branch_start(b) + 7;
        unless(angle_right(tables.numbers[at]), Reason::Shift, at)?;
    }
    Ok(())
}

fn bounds_of_buses(tables: &Tables) -> Result<(), Refusal>
    ensures { let ws = tables.now.words.now in let xs = tables.now.numbers.now in
        fault_of result ≡ first tables.now.layout.buses (λ i. unless (not (vm_bounded ws i)
        || bounds_right (vm_min ws xs i) (vm_max ws xs i)) (fault BOUNDS (vm_column ws i))) }
{
    for i in 0..tables.layout.buses {
        let bus = tables.bus(i);
        let right = validate_active(bus.bounded, bus.vm_min, bus.vm_max);
        unless(right, Reason::Bounds, tables.layout.buses + i)?;
    }
    Ok(())
}

// A generator with the columns pg and qg.
fn bounds_of_generator(g: Generator, pg: usize, qg: usize) -> Result<(), Refusal>
    ensures { fault_of result ≡ or_else (unless (not g.bounded || bounds_right g.p_min g.p_max) (fault BOUNDS pg))
        (unless (not g.bounded || bounds_right g.q_min g.q_max) (fault BOUNDS qg)) }
{
    unless(
        validate_active(g.bounded, g.p_min, g.p_max),
        Reason::Bounds,
        pg,
    )?;
    unless(
        validate_active(g.bounded, g.q_min, g.q_max),
        Reason::Bounds,
        qg,
    )
}

fn bounds_of_generators(tables: &Tables) -> Result<(), Refusal>
    ensures { let ws = tables.now.words.now in let xs = tables.now.numbers.now in
        fault_of result ≡ first tables.now.layout.generators (λ g. or_else
        (unless (not (capable ws g) || bounds_right (p_min ws xs g) (p_max ws xs g)) (fault BOUNDS (pg_column ws g)))
        (unless (not (capable ws g) || bounds_right (q_min ws xs g) (q_max ws xs g)) (fault BOUNDS (qg_column ws g)))) }
{
    let pg = 2 * tables.layout.buses;
    let qg = pg + tables.layout.generators;
    for (g, generator) in tables.generators() {
        bounds_of_generator(generator, pg + g, qg + g)?;
    }
    Ok(())
}

pub(crate) fn bounds_fault(tables: &Tables) -> Result<(), Refusal>
    ensures { fault_of result ≡ fault_bounds tables.now.words.now tables.now.numbers.now }
{
    bounds_of_buses(tables)?;
    bounds_of_generators(tables)
}
